//! Runs over many sheets of one schema, which is loaded once.
ghost use Rattle.std.specs.Prelude.{IfErr, IfOk, IfSome, OnOk};
ghost use Rattle.edi_compare.specs.Headline.{IsFormOf};
ghost use Rattle.edi_compare.specs.Runs.{AfterReading, IsRead, seen};
ghost use Rattle.edi_compare.specs.Under.{UnderFault};
ghost use Rattle.edi_compare.specs.inner.Under.{UnderSchema};

use crate::canonical::canon_from;
use crate::fault::RunFault;
use crate::input::Input;
use crate::runs::read_input;
use edi_line::{ByteIn, FileBytes, Pieces};
use edi_schema::Schema;
use std::alloc::Global;

/// Reads a sheet, which is the third input, and gives its canonical file under a schema.
pub fn canon_under<V: ByteIn>(
    alloc: Global,
    schema: &Schema,
    vec: &mut V,
) -> Result<Vec<u8>, RunFault>
    ensures ok { IfOk result (λ c. IfSome (V.contents vec.old) (λ v. IsFormOf schema.now v c.items)) }
    ensures read { OnOk result (IsRead (seen V.ByteIn vec.old vec.new)) }
    ensures err { IfErr result (UnderFault schema.now (seen V.ByteIn vec.old vec.new)) }
    ensures after { IfErr result (λ e. AfterReading e (IsRead (seen V.ByteIn vec.old vec.new))) }
{
    let vec: Pieces = read_input(alloc, vec, Input::First)?;
    form_or_fault(alloc, schema, vec)
}

// The canonical file of a sheet, with its refusal as a run's.
fn form_or_fault(alloc: Global, schema: &Schema, vec: Pieces) -> Result<Vec<u8>, RunFault>
    ensures ok { IfOk result (λ c. IsFormOf schema.now vec c.items) }
    ensures err { IfErr result (UnderSchema schema.now vec) }
{
    let canonical = canon_from(alloc, schema, FileBytes::InPieces(vec))?;
    Ok(canonical)
}
