//! THF files: how they are read, and which one a folder has.
ghost use Rattle.std.specs.Prelude.{◌≡◌, ◌∷◌, [], ◌≤◌, IfErr, IfOk, codes, length, map, string_bytes};
ghost use Rattle.edi_answers.specs.Effects.{inputs};
ghost use Rattle.edi_delivery.specs.DeliveryRefusal.{IsDeliveryOf, IsDeliveryRefusal};
ghost use Rattle.edi_answers.specs.WholeInputs.{OfWholeInput, WholeInputFault};
ghost use Rattle.edi_deliveries.specs.Deliveries.{LacksOneThf, thf_names};
ghost use Rattle.edi_deliveries.specs.inner.Paths.{MatchChosen, MatchThf};

use crate::found::has_extension;
use edi_answers::whole::read_path;
use edi_compare::RunFault;
use edi_delivery::{Delivery, DeliveryFault};
use edi_files::Folder;
use std::alloc::{AllocError, Global};

/// Why a THF file states no lots.
#[derive(Drop)]
pub(crate) enum NoDelivery {
    /// It can't be read.
    Unread(RunFault),
    /// It is refused.
    Refused(DeliveryFault),
}

/// The delivery that a THF file states.
pub(crate) fn read_thf<F: Folder>(
    alloc: Global,
    folder: &F,
    thf: &str,
) -> Result<Delivery, NoDelivery>
    ensures ok { IfOk result (λ lots.
        OfWholeInput (inputs F.Folder F.Reader.ByteIn folder.now) thf.now (λ b. IsDeliveryOf b lots)) }
    ensures err { IfErr result (MatchThf (inputs F.Folder F.Reader.ByteIn folder.now) thf.now) }
{
    match read_path(alloc, folder, thf) {
        Ok(bytes) => match Delivery::read(alloc, &bytes) {
            Ok(delivery) => Ok(delivery),
            Err(fault) => Err(NoDelivery::Refused(fault)),
        },
        Err(fault) => Err(NoDelivery::Unread(fault)),
    }
}

// The THF files among names.
fn thf_names<'a>(alloc: Global, names: &'a [String]) -> Result<Vec<&'a str>, AllocError>
    ensures { IfOk result (λ found. map (λ name. name.now) found.items ≡ thf_names (map string_bytes names.now)) }
{
    let mut found = Vec::new(alloc);
    for name in names {
        if has_extension("THF", name) {
            found.push(name.as_str())?;
        }
    }
    Ok(found)
}

/// The only THF file among names, or what is wrong with them.
pub(crate) fn only_thf<'a>(
    alloc: Global,
    names: &'a [String],
) -> Result<Result<&'a str, &'static [u8]>, AllocError>
    ensures { IfOk result (MatchChosen (map string_bytes names.now)) }
{
    match thf_names(alloc, names)?.as_slice() {
        [] => Ok(Err(b"no THF file")),
        [name] => Ok(Ok(*name)),
        _ => Ok(Err(b"more than one THF file")),
    }
}
