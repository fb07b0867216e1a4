//! The manifest of a delivery, which is put at a path or sent to the output.
ghost use Rattle.std.specs.Prelude.{◌≡◌, [], Any, IfErr, IfOk, IsTrue, OnOk, map, string_bytes};
ghost use Rattle.std.specs.Bool.{MatchBool};
ghost use Rattle.std.specs.List.{AllByRecursion};
ghost use Rattle.edi_answers.specs.Effects.{effects, inputs, written};
ghost use Rattle.edi_answers.specs.SheetRuns.{IsApart, Meets};
ghost use Rattle.edi_answers.specs.Statuses.{IsSheetStatus, Prints};
ghost use Rattle.edi_outcome.specs.Words.{FaultHasNames};
ghost use Rattle.edi_manifest.specs.ManifestText.{manifest_text};
ghost use Rattle.edi_deliveries.specs.Deliveries.{Opens, listings};
ghost use Rattle.edi_deliveries.specs.Manifests.{IfAllFound, IsFileIn, IsManifestPut, IsManifestReplaced, IsManifestStatus, IsManifestThere, IsNoFileIn, IsPrinted, IsStored, IsUnput, paths_in};
ghost use Rattle.edi_deliveries.specs.Found.{AreLotsFound};
ghost use Rattle.edi_deliveries.specs.inner.Finding.{AddsFound};
ghost use Rattle.edi_deliveries.specs.inner.Opening.{opened_of};

use crate::found::FolderNames;
use crate::lot_files::path_in;
use crate::opening::{OpenDelivery, open_delivery};
use crate::parts::find_lines;
use crate::said::found_names;
use edi_answers::report;
use edi_answers::sheets::meets;
use edi_compare::RunFault;
use edi_files::{Folder, Listing, Progress, output};
use edi_line::ByteOut;
use edi_manifest::{ManifestLine, manifest};
use edi_words::{GivenKinds, is_standard};
use edi_write::{Written, put_all};
use std::alloc::{AllocError, Global};

// What is asked for: the manifest of a delivery that was opened by a path, with the names in the folder of its THF
// file, under these codes of the kinds; and FILE, where it goes.
#[derive(Drop)]
struct ManifestRequest<'a, 'n> {
    alloc: Global,
    kinds: &'a GivenKinds<'a>,
    opened: &'a OpenDelivery,
    names: &'a FolderNames<'n>,
    path: &'a str,
    file: &'a str,
}

/// Puts the manifest of the delivery that a path leads to at FILE, or sends it to `out` where that is `-`, and gives 0.
/// FILE is replaced whole or not at all, and only where each part of the delivery has a digest and FILE is none of its
/// files. Else `err` says what is wrong, of parts as for `answer_paths`, and the status is the greatest of these.
pub fn put_manifest<F: Folder + Listing, O: ByteOut, E: ByteOut + Progress>(
    alloc: Global,
    folder: &mut F,
    kinds: &GivenKinds<'_>,
    path: &str,
    file: &str,
    out: &mut O,
    err: &mut E,
) -> u8
    ensures status { IsSheetStatus result }
    ensures answer { IsManifestStatus
        (effects F.Folder F.Reader.ByteIn F.Sink.ByteOut F.NewFile.ByteOut folder.old folder.new)
        (listings F.Listing folder.old) kinds.now path.now file.now (written O.ByteOut out.old out.new)
        (written E.ByteOut err.old err.new) result }
    ensures made { result ≡ 0 → IsManifestThere
        (effects F.Folder F.Reader.ByteIn F.Sink.ByteOut F.NewFile.ByteOut folder.old folder.new)
        (listings F.Listing folder.old) kinds.now path.now file.now (written O.ByteOut out.old out.new) }
{
    match open_delivery(alloc, folder, path, err) {
        Ok(opened) => manifest_of(alloc, folder, kinds, &opened, path, file, out, err),
        Err(status) => status,
    }
}

// Puts the manifest of a delivery that was opened, or sends it.
fn manifest_of<F: Folder + Listing, O: ByteOut, E: ByteOut + Progress>(
    alloc: Global,
    folder: &mut F,
    kinds: &GivenKinds<'_>,
    opened: &OpenDelivery,
    path: &str,
    file: &str,
    out: &mut O,
    err: &mut E,
) -> u8
    requires { Opens (inputs F.Folder F.Reader.ByteIn folder.old) (listings F.Listing folder.old) path.now
        (opened_of opened.now) }
    ensures status { IsSheetStatus result }
    ensures answer { IsManifestStatus
        (effects F.Folder F.Reader.ByteIn F.Sink.ByteOut F.NewFile.ByteOut folder.old folder.new)
        (listings F.Listing folder.old) kinds.now path.now file.now (written O.ByteOut out.old out.new)
        (written E.ByteOut err.old err.new) result }
{
    let Ok(names) = FolderNames::new(alloc, &opened.names) else {
        return report::out_of_memory(err);
    };
    let request = ManifestRequest {
        alloc,
        kinds,
        opened,
        names: &names,
        path,
        file,
    };
    if is_standard(file) {
        request.send(folder, out, err)
    } else {
        request.put(folder, err)
    }
}

// Writes the manifest of lines to the output, and gives the status.
fn print<O: ByteOut, E: ByteOut>(
    alloc: Global,
    lines: &[ManifestLine],
    out: &mut O,
    err: &mut E,
) -> u8
    ensures status { IsSheetStatus result }
    ensures answer { IsPrinted (written O.ByteOut out.old out.new) lines.now (written E.ByteOut err.old err.new)
        result }
    ensures stays { IsTrue (E.has_failed err.old) → IsTrue (E.has_failed err.new) }
{
    let Ok(text) = manifest(alloc, lines) else {
        return report::out_of_memory(err);
    };
    match put_all(out, &text) {
        Ok(()) => 0,
        Err(_) => report::say_unwritten(err),
    }
}

// Whether one of these paths is FILE, or leads to its file.
fn meets_any<F: Folder>(folder: &F, paths: &[String], file: &str) -> bool
    ensures { MatchBool result (Any (Meets (F.is_one folder.now) file.now) (map string_bytes paths.now))
        (AllByRecursion (IsApart (F.is_one folder.now) file.now) (map string_bytes paths.now)) }
{
    for path in paths {
        if meets(folder, path, file) {
            return true;
        }
    }
    false
}

// Puts the manifest of lines at FILE.
fn put_lines<F: Folder>(
    alloc: Global,
    folder: &mut F,
    lines: &[ManifestLine],
    file: &str,
) -> Result<(), RunFault>
    ensures ok { OnOk result
        ((effects F.Folder F.Reader.ByteIn F.Sink.ByteOut F.NewFile.ByteOut folder.old folder.new).Puts file.now
        (manifest_text lines.now)) }
    ensures err { IfErr result
        (IsUnput (effects F.Folder F.Reader.ByteIn F.Sink.ByteOut F.NewFile.ByteOut folder.old folder.new) file.now
        (manifest_text lines.now)) }
    ensures names { IfErr result (λ e. FaultHasNames e 2) }
    ensures replaced { (effects F.Folder F.Reader.ByteIn F.Sink.ByteOut F.NewFile.ByteOut folder.old
        folder.new).Replaces file.now (λ bytes. bytes ≡ manifest_text lines.now) }
{
    let text = manifest(alloc, lines)?;
    output::put(folder, file, &text)
}

impl<'a, 'n> ManifestRequest<'a, 'n> {
    // Adds the lines of the delivery to others, and gives the status, as `find_lines` does.
    fn find<F: Folder, E: ByteOut + Progress>(
        &self,
        folder: &F,
        lines: &mut Vec<ManifestLine>,
        err: &mut E,
    ) -> u8
        requires { self.now.names.now ≡ (opened_of self.now.opened.now).names }
        ensures status { IsSheetStatus result }
        ensures found { AddsFound (AreLotsFound (inputs F.Folder F.Reader.ByteIn folder.now) (F.why folder.now)
            self.now.kinds.now (opened_of self.now.opened.now))
            lines.old.items lines.new.items (written E.ByteOut err.old err.new) result }
        ensures stays { IsTrue (E.has_failed err.old) → IsTrue (E.has_failed err.new) }
    {
        let ManifestRequest {
            alloc,
            kinds,
            opened,
            names,
            ..
        } = self;
        find_lines(*alloc, folder, kinds, opened, names, lines, err)
    }

    // Sends the manifest to the output.
    fn send<F: Folder, O: ByteOut, E: ByteOut + Progress>(
        &self,
        folder: &F,
        out: &mut O,
        err: &mut E,
    ) -> u8
        requires { self.now.names.now ≡ (opened_of self.now.opened.now).names }
        ensures status { IsSheetStatus result }
        ensures answer { IfAllFound (inputs F.Folder F.Reader.ByteIn folder.now) (F.why folder.now) self.now.kinds.now
            (opened_of self.now.opened.now) (IsPrinted (written O.ByteOut out.old out.new))
            (Prints (written O.ByteOut out.old out.new) []) (written E.ByteOut err.old err.new) result }
    {
        let mut lines = Vec::new(self.alloc);
        let status = self.find(folder, &mut lines, err);
        if status == 0 {
            print(self.alloc, &lines, out, err)
        } else {
            status
        }
    }

    // Puts the manifest at FILE, which is none of the files of the delivery.
    fn put<F: Folder + Listing, E: ByteOut + Progress>(&self, folder: &mut F, err: &mut E) -> u8
        requires names { self.now.names.now ≡ (opened_of self.now.opened.now).names }
        requires opens { Opens (inputs F.Folder F.Reader.ByteIn folder.old) (listings F.Listing folder.old)
            self.now.path.now (opened_of self.now.opened.now) }
        ensures status { IsSheetStatus result }
        ensures answer { IsManifestPut
            (effects F.Folder F.Reader.ByteIn F.Sink.ByteOut F.NewFile.ByteOut folder.old folder.new)
            (listings F.Listing folder.old) self.now.kinds.now self.now.path.now self.now.file.now
            (opened_of self.now.opened.now) (written E.ByteOut err.old err.new) result }
        ensures replaced { IsManifestReplaced
            (effects F.Folder F.Reader.ByteIn F.Sink.ByteOut F.NewFile.ByteOut folder.old folder.new)
            (listings F.Listing folder.old) self.now.kinds.now self.now.path.now self.now.file.now }
    {
        match self.is_file_in(folder) {
            Ok(true) => {
                let fault = RunFault::Write(Written { count: 0 });
                report::say_fault(self.alloc, folder, err, &fault, &[self.path, self.file])
            }
            Ok(false) => self.put_found(folder, err),
            Err(_) => report::out_of_memory(err),
        }
    }

    // Whether FILE is one of the files of the delivery, or leads to one.
    fn is_file_in<F: Folder>(&self, folder: &F) -> Result<bool, AllocError>
        requires { self.now.names.now ≡ (opened_of self.now.opened.now).names }
        ensures { IfOk result (λ is. MatchBool is
            (IsFileIn (F.is_one folder.now) (opened_of self.now.opened.now) self.now.file.now)
            (IsNoFileIn (F.is_one folder.now) (opened_of self.now.opened.now) self.now.file.now)) }
    {
        let paths = self.paths_in()?;
        Ok(meets_any(folder, &paths, self.file))
    }

    // The paths of the files of the delivery.
    fn paths_in(&self) -> Result<Vec<String>, AllocError>
        requires { self.now.names.now ≡ (opened_of self.now.opened.now).names }
        ensures { IfOk result (λ paths. map string_bytes paths.items ≡ paths_in (opened_of self.now.opened.now)) }
    {
        let found = found_names(self.alloc, self.names, self.opened.delivery.lots())?;
        let mut paths = Vec::new(self.alloc);
        paths.push(String::from_str(self.alloc, &self.opened.thf)?)?;
        for name in &found {
            paths.push(path_in(self.alloc, self.opened.before.as_str(), name)?)?;
        }
        Ok(paths)
    }

    // Puts the manifest at FILE, if each part of the delivery is found.
    fn put_found<F: Folder + Listing, E: ByteOut + Progress>(
        &self,
        folder: &mut F,
        err: &mut E,
    ) -> u8
        requires names { self.now.names.now ≡ (opened_of self.now.opened.now).names }
        requires opens { Opens (inputs F.Folder F.Reader.ByteIn folder.old) (listings F.Listing folder.old)
            self.now.path.now (opened_of self.now.opened.now) }
        ensures status { IsSheetStatus result }
        ensures answer { IfAllFound (inputs F.Folder F.Reader.ByteIn folder.old) (F.why folder.new) self.now.kinds.now
            (opened_of self.now.opened.now)
            (IsStored (effects F.Folder F.Reader.ByteIn F.Sink.ByteOut F.NewFile.ByteOut folder.old folder.new)
            self.now.path.now self.now.file.now) (folder.new ≡ folder.old) (written E.ByteOut err.old err.new) result }
        ensures replaced { IsManifestReplaced
            (effects F.Folder F.Reader.ByteIn F.Sink.ByteOut F.NewFile.ByteOut folder.old folder.new)
            (listings F.Listing folder.old) self.now.kinds.now self.now.path.now self.now.file.now }
    {
        let mut lines = Vec::new(self.alloc);
        let status = self.find(folder, &mut lines, err);
        if status == 0 {
            self.store(folder, &lines, err)
        } else {
            status
        }
    }

    // Puts the manifest of lines at FILE, or says why it can't be put, and gives the status.
    fn store<F: Folder, E: ByteOut>(
        &self,
        folder: &mut F,
        lines: &[ManifestLine],
        err: &mut E,
    ) -> u8
        ensures status { IsSheetStatus result }
        ensures answer { IsStored
            (effects F.Folder F.Reader.ByteIn F.Sink.ByteOut F.NewFile.ByteOut folder.old folder.new)
            self.now.path.now self.now.file.now lines.now (written E.ByteOut err.old err.new) result }
        ensures replaced { (effects F.Folder F.Reader.ByteIn F.Sink.ByteOut F.NewFile.ByteOut folder.old
            folder.new).Replaces self.now.file.now (λ bytes. bytes ≡ manifest_text lines.now) }
        ensures stays { IsTrue (E.has_failed err.old) → IsTrue (E.has_failed err.new) }
    {
        match put_lines(self.alloc, folder, lines, self.file) {
            Ok(()) => 0,
            Err(fault) => report::say_fault(
                self.alloc,
                folder,
                err,
                &fault,
                &[self.path, self.file],
            ),
        }
    }
}
