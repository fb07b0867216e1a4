//! Pictures of files.

ghost use Rattle.std.specs.Prelude.{IfErr, IfOk, OnOk};
ghost use Rattle.edi_line.specs.FileBytes.{file_bytes};
ghost use Rattle.edi_compare.specs.Refused.{IsPairRefusal, IsRefusal};
ghost use Rattle.edi_compare.specs.Rules.{IsAccepted};
ghost use Rattle.edi_drawing.specs.Drawn.{IsDrawnDifference, IsPictureOfFile};

use crate::drawn::DrawnDifference;
use crate::names::FileNames;
use crate::pair::SheetPair;
use crate::pictures::{picture_of, picture_of_both};
use edi_compare::{CompareFault, Fault};
use edi_diff::{TextForm, find_differences};
use edi_line::FileBytes;
use edi_report::locate_from;
use edi_schema::Schema;
use std::alloc::Global;

/// The picture of a sheet of this name under a schema, or its refusal.
pub(crate) fn draw_from(
    alloc: Global,
    schema: &Schema,
    name: &str,
    bytes: FileBytes<'_>,
) -> Result<Vec<u8>, Fault>
    ensures accepted { OnOk result (IsAccepted schema.now (file_bytes bytes.entry)) }
    ensures picture { IfOk result (λ picture.
        IsPictureOfFile schema.now name.now (file_bytes bytes.entry) picture.items) }
    ensures refusal { IfErr result (IsRefusal schema.now (file_bytes bytes.entry)) }
{
    schema.keeps();
    let sheet = locate_from(alloc, schema, bytes)?;
    match picture_of(alloc, schema, name, &sheet) {
        Ok(picture) => Ok(picture),
        Err(error) => Err(Fault::Memory(error)),
    }
}

/// What `edi_diff::diff` gives of two sheets of these names under a schema, with a picture of both, or their refusal.
/// The files are freed, if they are owned, one after the other.
pub fn draw_difference_from(
    alloc: Global,
    schema: &Schema,
    names: &FileNames<'_>,
    a: FileBytes<'_>,
    b: FileBytes<'_>,
    form: TextForm<'_>,
) -> Result<DrawnDifference, CompareFault>
    ensures first { OnOk result (IsAccepted schema.now (file_bytes a.entry)) }
    ensures second { OnOk result (IsAccepted schema.now (file_bytes b.entry)) }
    ensures drawn { IfOk result
        (IsDrawnDifference schema.now names.now (file_bytes a.entry) (file_bytes b.entry) form.entry) }
    ensures refusal { IfErr result (IsPairRefusal schema.now (file_bytes a.entry) (file_bytes b.entry)) }
{
    schema.keeps();
    let found = find_differences(alloc, schema, a, b, form)?;
    let pair = SheetPair {
        first: &found.first,
        second: &found.second,
        unchanged: &found.unchanged,
        became: &found.became,
    };
    match picture_of_both(alloc, schema, names, &pair) {
        Ok(picture) => Ok(DrawnDifference {
            difference: found.difference,
            picture,
        }),
        Err(error) => Err(CompareFault::Memory(error)),
    }
}
