//! The canonical bytes of a plan.

ghost use Rattle.std.specs.Prelude.{◌≡◌, ◌≤◌, ◌++◌, ◌∷◌, length, map, option_copied, option_to_list, take, IfOk, OnOk};
ghost use Rattle.edi_line.specs.Printing.{printed};
ghost use Rattle.edi_record.specs.CanonicalZones.{begin_zone, cse_zone};
ghost use Rattle.edi_plan.specs.Agreeing.{Agrees};
ghost use Rattle.edi_rank.specs.Arranged.{arranged};
ghost use Rattle.edi_rank.specs.Labelling.{AreLabels};
ghost use Rattle.edi_write.specs.Layout.{layout};

use crate::heads::{BEGIN, CHARACTER_SET, END};
use crate::labelled_plan::LabelledPlan;
use crate::page::Page;
use crate::shared_front::SharedFront;
use edi_rank::Labels;
use edi_schema::Schema;
use edi_topo::Sound;
use std::alloc::{AllocError, Global};

/// The bytes of a sound plan, turned and numbered by its labels: the layout of
/// docs/FORMAT.md, "The canonical file". The schema is that which the plan was built under.
pub fn write_canon(
    alloc: Global,
    schema: &Schema,
    sound: &Sound,
    labels: &Labels,
) -> Result<Vec<u8>, AllocError>
    requires agrees { Agrees schema.now sound.now }
    requires labels { AreLabels schema.now sound.now labels.now }
    ensures { IfOk result (λ c. c.items ≡ layout schema.now (arranged schema.now labels.now sound.now)) }
{
    let behind = write_canon_behind(alloc, schema, sound, labels, b"")?;
    Ok(behind.rest)
}

/// A canonical file without a front that another file begins with too.
#[derive(Drop)]
pub struct BehindFront {
    /// How many bytes the front has.
    pub front: usize,
    /// The bytes behind it.
    pub rest: Vec<u8>,
}

/// The file that `write_canon` gives, without a front that another file begins with too. The front is not kept, so that
/// of a file that is equal to the other one no more than the last records are in memory at once.
pub fn write_canon_behind(
    alloc: Global,
    schema: &Schema,
    sound: &Sound,
    labels: &Labels,
    other: &[u8],
) -> Result<BehindFront, AllocError>
    requires agrees { Agrees schema.now sound.now }
    requires labels { AreLabels schema.now sound.now labels.now }
    ensures within { IfOk result (λ c. c.front ≤ length other.now) }
    ensures written { IfOk result (λ c. take c.front other.now ++ c.rest.items
        ≡ layout schema.now (arranged schema.now labels.now sound.now)) }
{
    let plan = sound.plan();
    let labelled = LabelledPlan {
        schema,
        plan,
        labels,
    };
    let mut file = SharedFront::new(alloc, other);
    write_begin(&mut file.page, plan.cse())?;
    labelled.write_records(alloc, &mut file)?;
    file.page.write(END, b"")?;
    file.drop_shared();
    let SharedFront { front, page, .. } = file;
    Ok(BehindFront {
        front,
        rest: page.file,
    })
}

/// Writes what stands before the records: the first zone, and the character set if there is one.
fn write_begin(page: &mut Page, set: Option<&[u8]>) -> Result<(), AllocError>
    ensures { OnOk result (page.new.file.items
        ≡ page.old.file.items ++ printed (begin_zone ∷ map cse_zone (option_to_list (option_copied set.entry)))) }
{
    page.write(BEGIN, b"CANON.VEC")?;
    match set {
        Some(text) => page.write(CHARACTER_SET, text),
        None => Ok(()),
    }
}
