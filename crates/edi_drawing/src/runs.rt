//! The run that draws a sheet.
ghost use Rattle.std.specs.Prelude.{◌≡◌, IfOk, IfErr, OnOk};
ghost use Rattle.edi_line.specs.FileBytes.{file_bytes};
ghost use Rattle.edi_compare.specs.Runs.{AfterReading, AreRead, FilesFault, IfThreeKnown, seen};
ghost use Rattle.edi_compare.specs.inner.Runs.{OneSheetFault};
ghost use Rattle.edi_drawing.specs.UnderFiles.{IsPictureUnder};

use crate::drawing::draw_from;
use edi_compare::{Fault, Input, RunFault, load_or_fault, read_input};
use edi_line::{ByteIn, FileBytes, Pieces};
use edi_schema::Kinds;
use std::alloc::Global;

/// Reads three files, and draws the third, a sheet of this name under the schema of the first two (docs/FORMAT.md,
/// "Pictures"). The faults are those of `edi_compare::canon_of`.
pub fn run_draw<S: ByteIn, D: ByteIn, V: ByteIn>(
    alloc: Global,
    kinds: &Kinds<'_>,
    name: &str,
    scd: &mut S,
    dic: &mut D,
    vec: &mut V,
) -> Result<Vec<u8>, RunFault>
    ensures ok { IfOk result (λ picture. IfThreeKnown (S.contents scd.old) (D.contents dic.old) (V.contents vec.old)
        (λ s d v. IsPictureUnder kinds.now name.now s d v picture.items)) }
    ensures read { OnOk result (AreRead (seen S.ByteIn scd.old scd.new) (seen D.ByteIn dic.old dic.new)
        (seen V.ByteIn vec.old vec.new)) }
    ensures err { IfErr result (FilesFault kinds.now (seen S.ByteIn scd.old scd.new) (seen D.ByteIn dic.old dic.new)
        (seen V.ByteIn vec.old vec.new) (λ _. ⊥)) }
    ensures after { IfErr result (λ e. AfterReading e
        (AreRead (seen S.ByteIn scd.old scd.new) (seen D.ByteIn dic.old dic.new) (seen V.ByteIn vec.old vec.new))) }
{
    let scd: Vec<u8> = read_input(alloc, scd, Input::Scd)?;
    let dic: Vec<u8> = read_input(alloc, dic, Input::Dic)?;
    let vec: Pieces = read_input(alloc, vec, Input::First)?;
    draw_or_fault(alloc, kinds, name, &scd, &dic, FileBytes::InPieces(vec))
}

// The picture of a sheet under the schema of the two files.
fn draw_or_fault(
    alloc: Global,
    kinds: &Kinds<'_>,
    name: &str,
    scd: &[u8],
    dic: &[u8],
    vec: FileBytes<'_>,
) -> Result<Vec<u8>, RunFault>
    ensures ok { IfOk result (λ picture.
        IsPictureUnder kinds.now name.now scd.now dic.now (file_bytes vec.entry) picture.items) }
    ensures err { IfErr result (OneSheetFault kinds.now scd.now dic.now (file_bytes vec.entry)) }
{
    let schema = load_or_fault(alloc, kinds, scd, dic)?;
    match draw_from(alloc, &schema, name, vec) {
        Ok(picture) => Ok(picture),
        Err(Fault::Memory(error)) => Err(RunFault::Memory(error)),
        Err(fault) => Err(RunFault::First(fault)),
    }
}
