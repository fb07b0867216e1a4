//! The delivery that a path leads to.
ghost use Rattle.std.specs.Prelude.{◌≡◌, ◌++◌, IfErr, IfOk, IsTrue, MatchOption, map, string_bytes};
ghost use Rattle.std.specs.Path.{path_buf_bytes, with_separator};
ghost use Rattle.edi_answers.specs.Effects.{effects, inputs, written};
ghost use Rattle.edi_answers.specs.Hashes.{named_line};
ghost use Rattle.edi_answers.specs.Statuses.{IsSheetStatus};
ghost use Rattle.edi_answers.specs.WholeInputs.{OfWholeInput};
ghost use Rattle.edi_delivery.specs.DeliveryRefusal.{IsDeliveryOf};
ghost use Rattle.edi_deliveries.specs.Deliveries.{Opens, OpensNoLots, OpensNone, listed_path, listings, parent_of, status_of_refusal};
ghost use Rattle.edi_deliveries.specs.inner.Opening.{MatchThfPath, OpensAt, opened_of};

use crate::lot_files::path_in;
use crate::said::{refusal_line, say_lines};
use crate::thf::{NoDelivery, only_thf, read_thf};
use edi_answers::hashes::{line_of_path, tell_fault};
use edi_answers::report;
use edi_compare::RunFault;
use edi_delivery::{Delivery, DeliveryFault};
use edi_files::{Folder, Listing};
use edi_line::{ByteOut, LineFault};
use edi_record::RecordFault;
use edi_words::is_standard;
use std::alloc::{AllocError, Global};
use std::path::{Path, PathBuf};

const MEMORY_STATUS: u8 = 5;

const UNREAD_STATUS: u8 = 4;

const REFUSED_STATUS: u8 = 2;

/// A delivery whose THF file was read.
#[derive(Drop)]
pub(crate) struct OpenDelivery {
    /// The path of the THF file.
    pub(crate) thf: String,
    pub(crate) delivery: Delivery,
    /// The names in the folder of that file.
    pub(crate) names: Vec<String>,
    /// What stands before these in paths.
    pub(crate) before: PathBuf,
}

/// The delivery that a path leads to: where it is a folder, that of the only THF file in it, and else that of the THF
/// file that it is. Where it leads to none, the errors say why, and this gives the status.
pub(crate) fn open_delivery<F: Folder + Listing, E: ByteOut>(
    alloc: Global,
    folder: &F,
    path: &str,
    err: &mut E,
) -> Result<OpenDelivery, u8>
    ensures ok { IfOk result
        (λ d. Opens (inputs F.Folder F.Reader.ByteIn folder.now) (listings F.Listing folder.now) path.now (opened_of d)
        × (err.new ≡ err.old)) }
    ensures err { IfErr result
        (λ s. IsSheetStatus s × OpensNone
        (effects F.Folder F.Reader.ByteIn F.Sink.ByteOut F.NewFile.ByteOut folder.now folder.now)
        (listings F.Listing folder.now) path.now (written E.ByteOut err.old err.new) s) }
    ensures stays { IsTrue (E.has_failed err.old) → IsTrue (E.has_failed err.new) }
{
    match thf_path(alloc, folder, path) {
        Ok(Ok(thf)) => open_thf(alloc, folder, thf, err),
        Ok(Err(words)) => Err(say_lines(err, &line_of_path(alloc, path, words), UNREAD_STATUS)),
        Err(_) => Err(report::out_of_memory(err)),
    }
}

// The path of the THF file to which a path leads, or what is wrong with the folder that it leads to.
fn thf_path<F: Folder + Listing>(
    alloc: Global,
    folder: &F,
    path: &str,
) -> Result<Result<String, &'static [u8]>, AllocError>
    ensures { IfOk result (MatchThfPath (listings F.Listing folder.now) path.now) }
{
    if is_standard(path) {
        return Ok(Ok(String::from_str(alloc, path)?));
    }
    let Some(names) = folder.names(alloc, path)? else {
        return Ok(Ok(String::from_str(alloc, path)?));
    };
    match only_thf(alloc, &names)? {
        Ok(name) => Ok(Ok(path_below(alloc, path, name)?)),
        Err(words) => Ok(Err(words)),
    }
}

// What stands before the names of the files in a folder.
fn before_names(alloc: Global, folder: &str) -> Result<PathBuf, AllocError>
    ensures { IfOk result (λ before. path_buf_bytes before ≡ with_separator folder.now) }
{
    Path::new(folder).join(alloc, "")
}

// The path of a file in a folder.
fn path_below(alloc: Global, folder: &str, name: &str) -> Result<String, AllocError>
    ensures { IfOk result (λ path. string_bytes path ≡ with_separator folder.now ++ name.now) }
{
    let before = before_names(alloc, folder)?;
    path_in(alloc, before.as_str(), name)
}

// Opens the delivery that a THF file states, or says why it states none.
fn open_thf<F: Folder + Listing, E: ByteOut>(
    alloc: Global,
    folder: &F,
    thf: String,
    err: &mut E,
) -> Result<OpenDelivery, u8>
    ensures ok { IfOk result
        (λ d. OpensAt (inputs F.Folder F.Reader.ByteIn folder.now) (listings F.Listing folder.now) (string_bytes thf)
        (opened_of d) × (err.new ≡ err.old)) }
    ensures err { IfErr result
        (λ s. IsSheetStatus s × OpensNoLots
        (effects F.Folder F.Reader.ByteIn F.Sink.ByteOut F.NewFile.ByteOut folder.now folder.now)
        (listings F.Listing folder.now) (string_bytes thf) (written E.ByteOut err.old err.new) s) }
    ensures stays { IsTrue (E.has_failed err.old) → IsTrue (E.has_failed err.new) }
{
    match read_thf(alloc, folder, &thf) {
        Ok(delivery) => open_folder(alloc, folder, thf, delivery, err),
        Err(NoDelivery::Refused(fault)) => Err(say_lines(
            err,
            &refusal_line(alloc, &thf, &fault),
            status_of(&fault),
        )),
        Err(NoDelivery::Unread(fault)) => Err(tell_fault(alloc, folder, &fault, &thf, err)),
    }
}

// Opens a delivery whose THF file was read: lists the folder of that file, or says why it can't be listed.
fn open_folder<F: Folder + Listing, E: ByteOut>(
    alloc: Global,
    folder: &F,
    thf: String,
    delivery: Delivery,
    err: &mut E,
) -> Result<OpenDelivery, u8>
    requires { OfWholeInput (inputs F.Folder F.Reader.ByteIn folder.now) (string_bytes thf)
        (λ b. IsDeliveryOf b delivery) }
    ensures ok { IfOk result
        (λ d. OpensAt (inputs F.Folder F.Reader.ByteIn folder.now) (listings F.Listing folder.now) (string_bytes thf)
        (opened_of d) × (err.new ≡ err.old)) }
    ensures err { IfErr result
        (λ s. IsSheetStatus s × OpensNoLots
        (effects F.Folder F.Reader.ByteIn F.Sink.ByteOut F.NewFile.ByteOut folder.now folder.now)
        (listings F.Listing folder.now) (string_bytes thf) (written E.ByteOut err.old err.new) s) }
    ensures stays { IsTrue (E.has_failed err.old) → IsTrue (E.has_failed err.new) }
{
    match list_folder(alloc, folder, &thf) {
        Ok(Some((names, before))) => Ok(OpenDelivery {
            thf,
            delivery,
            names,
            before,
        }),
        Ok(None) => {
            let at = listed_path(parent_of(&thf));
            Err(tell_fault(alloc, folder, &RunFault::Read { input: 1 }, at, err))
        }
        Err(_) => Err(report::out_of_memory(err)),
    }
}

// The names in the folder of a THF file, if it can be listed, and what stands before these in paths.
fn list_folder<F: Listing>(
    alloc: Global,
    folder: &F,
    thf: &str,
) -> Result<Option<(Vec<String>, PathBuf)>, AllocError>
    ensures { IfOk result (λ found. MatchOption found (F.unlisted folder.now (listed_path (parent_of thf.now)))
        (λ f. F.lists folder.now (listed_path (parent_of thf.now)) (map string_bytes f.0.items)
        × (path_buf_bytes f.1 ≡ with_separator (parent_of thf.now)))) }
{
    let parent = parent_of(thf);
    let Some(names) = folder.names(alloc, listed_path(parent))? else {
        return Ok(None);
    };
    Ok(Some((names, before_names(alloc, parent)?)))
}

// The path of the folder in which a file lies.
fn parent_of(path: &str) -> &str
    ensures { result.now ≡ parent_of path.now }
{
    match Path::new(path).parent() {
        Some(parent) => parent.as_str(),
        None => "",
    }
}

// What is listed for the path of a folder.
fn listed_path(parent: &str) -> &str
    ensures { result.now ≡ listed_path parent.now }
{
    if parent.is_empty() { "." } else { parent }
}

// The status of a refused THF file.
fn status_of(fault: &DeliveryFault) -> u8
    ensures { result ≡ status_of_refusal fault.now }
{
    match fault {
        DeliveryFault::Line(LineFault::Broken { .. })
        | DeliveryFault::Record(RecordFault::Broken { .. }) => REFUSED_STATUS,
        DeliveryFault::Line(LineFault::Memory(_)) | DeliveryFault::Record(RecordFault::Memory(_)) =>
            { MEMORY_STATUS }
    }
}
