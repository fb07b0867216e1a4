//! What is replied to the paths of deliveries.
ghost use Rattle.std.specs.Prelude.{◌≡◌, ◌⊎◌, IsTrue};
ghost use Rattle.edi_answers.specs.Effects.{effects, written};
ghost use Rattle.edi_answers.specs.Statuses.{IsSheetStatus, OnlyLacksMemory};
ghost use Rattle.edi_deliveries.specs.Deliveries.{AreLotsAnswered, IsDeliveryStatus, IsPathAnswered, listings};
ghost use Rattle.edi_deliveries.specs.inner.Opening.{opened_of};

use crate::found::FolderNames;
use crate::lots::LotAnswerer;
use crate::opening::{OpenDelivery, open_delivery};
use edi_answers::report;
use edi_files::{Folder, Listing, Progress};
use edi_line::ByteOut;
use edi_words::GivenKinds;
use std::alloc::Global;

/// Answers each path in its order, and gives the greatest status: where it is a folder, the lots of the only THF file
/// in it, and else those of the THF file that it is.
pub fn answer_paths<F: Folder + Listing, O: ByteOut, E: ByteOut + Progress>(
    alloc: Global,
    folder: &F,
    kinds: &GivenKinds<'_>,
    paths: &[&str],
    out: &mut O,
    err: &mut E,
) -> u8
    ensures status { IsSheetStatus result }
    ensures answer { IsDeliveryStatus
        (effects F.Folder F.Reader.ByteIn F.Sink.ByteOut F.NewFile.ByteOut folder.now folder.now)
        (listings F.Listing folder.now) kinds.now paths.now (written O.ByteOut out.old out.new)
        (written E.ByteOut err.old err.new) result }
    ensures out_stays { IsTrue (O.has_failed out.old) → IsTrue (O.has_failed out.new) }
    ensures err_stays { IsTrue (E.has_failed err.old) → IsTrue (E.has_failed err.new) }
{
    let mut worst = 0;
    err.begin(paths.len());
    for path in paths {
        let status = answer_path(alloc, folder, kinds, path, out, err);
        worst = worst.max(status);
        err.count(status != 0);
    }
    err.end();
    worst
}

// Answers a path.
fn answer_path<F: Folder + Listing, O: ByteOut, E: ByteOut + Progress>(
    alloc: Global,
    folder: &F,
    kinds: &GivenKinds<'_>,
    path: &str,
    out: &mut O,
    err: &mut E,
) -> u8
    ensures status { IsSheetStatus result }
    ensures answer { IsPathAnswered
        (effects F.Folder F.Reader.ByteIn F.Sink.ByteOut F.NewFile.ByteOut folder.now folder.now)
        (listings F.Listing folder.now) kinds.now path.now (written O.ByteOut out.old out.new)
        (written E.ByteOut err.old err.new) result }
    ensures out_stays { IsTrue (O.has_failed out.old) → IsTrue (O.has_failed out.new) }
    ensures err_stays { IsTrue (E.has_failed err.old) → IsTrue (E.has_failed err.new) }
{
    match open_delivery(alloc, folder, path, err) {
        Ok(opened) => answer_open_delivery(alloc, folder, kinds, &opened, out, err),
        Err(status) => status,
    }
}

// Answers the lots of a delivery that was opened, or says that there is no memory for the table of their names.
fn answer_open_delivery<F: Folder, O: ByteOut, E: ByteOut + Progress>(
    alloc: Global,
    folder: &F,
    kinds: &GivenKinds<'_>,
    opened: &OpenDelivery,
    out: &mut O,
    err: &mut E,
) -> u8
    ensures status { IsSheetStatus result }
    ensures answer { AreLotsAnswered (effects F.Folder F.Reader.ByteIn F.Sink.ByteOut F.NewFile.ByteOut folder.now
        folder.now) kinds.now
        (opened_of opened.now).before (opened_of opened.now).names (opened_of opened.now).lots
        (written O.ByteOut out.old out.new) (written E.ByteOut err.old err.new) result
        ⊎ (OnlyLacksMemory (written O.ByteOut out.old out.new) (written E.ByteOut err.old err.new) × (result ≡ 5)) }
    ensures out_stays { IsTrue (O.has_failed out.old) → IsTrue (O.has_failed out.new) }
    ensures err_stays { IsTrue (E.has_failed err.old) → IsTrue (E.has_failed err.new) }
{
    let Ok(names) = FolderNames::new(alloc, &opened.names) else {
        return report::out_of_memory(err);
    };
    let before = opened.before.as_str();
    let lots = opened.delivery.lots();
    let answerer = LotAnswerer {
        alloc,
        folder,
        kinds,
        before,
        names: &names,
    };
    answerer.answer_lots(lots, out, err)
}
