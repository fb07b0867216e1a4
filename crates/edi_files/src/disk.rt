//! The files of the system, and its standard input.
//!
//! What they hold can't be known, so nothing of it is claimed, nor of why the system refuses a step.
ghost use Rattle.std.specs.Prelude.{◌≡◌, [], None, ⊤};

use crate::folder::{Destination, FileDraft, Folder, OutFault};
use crate::listing::Listing;
use crate::reason::Reason;
use edi_line::{ByteIn, ByteOut, FromRead};
use std::alloc::{AllocError, Global};
use std::cell::Cell;
use std::fs::{DirEntry, File, Metadata, OpenFile, OpenOptions, TryLockError};
use std::io::{Input, Read, Write};
use std::os::unix::fs::MetadataExt;
use std::path::{Path, PathBuf};
use std::rt::Files;
use std::{fs, io};

// How many names a draft tries: one for each run that goes on.
const MOST_DRAFTS: u32 = 1_000_000;

// What standard output and standard error lead to, where the system says.
const OUTPUT: &str = "/proc/self/fd/1";

const ERRORS: &str = "/proc/self/fd/2";

/// The files of the system.
#[derive(Drop)]
pub struct Disk<'a, R, F> {
    rt: &'a R,
    // Why the last step failed, if it did and the system gave a reason.
    why: Cell<Option<Reason>>,
    // They take the places of standard streams that are closed, so that no file does. A folder can be neither read
    // nor written to, so such a stream fails.
    _streams: (Option<F>, Option<F>, Option<F>),
}

impl<'a, R: Files> Disk<'a, R, R::File> {
    /// The files of the system, before any is opened.
    pub fn new(rt: &'a R) -> Disk<'a, R, R::File>
        ensures { result.rt.now ≡ rt.now }
    {
        let first = fs::open(rt, "/").ok();
        let second = fs::open(rt, "/").ok();
        let third = fs::open(rt, "/").ok();
        Disk {
            rt,
            why: Cell::new(None),
            _streams: (first, second, third),
        }
    }
}

/// What is read: a file, or standard input.
#[derive(Drop)]
pub enum FileOrInput<F, I> {
    File(F),
    Input(I),
}

impl<F: Read, I: Read> Read for FileOrInput<F, I> {
    ghost remaining = { λ _. None };

    fn read(&mut self, buf: &mut [u8]) -> io::Result<usize> {
        match self {
            FileOrInput::File(file) => file.read(buf),
            FileOrInput::Input(input) => input.read(buf),
        }
    }
}

/// A file or standard input, with what is known of how much is left.
#[derive(Drop)]
pub struct DiskReader<F, I> {
    inner: FromRead<FileOrInput<F, I>>,
    // How long a file is, before it is read.
    length: Option<u64>,
}

impl<F: Read, I: Read> ByteIn for DiskReader<F, I> {
    ghost contents = { λ _. None };

    ghost has_failed = { λ s. ⟦<FromRead<FileOrInput<F, I>> as ByteIn>⟧.has_failed s.inner };

    ghost reads = { λ _. 0 };

    ghost device = { λ _. 0 };

    fn read(&mut self, buffer: &mut [u8]) -> Option<usize> {
        self.length = None;
        self.inner.read(buffer)
    }

    fn left(&self) -> Option<u64> {
        self.length
    }
}

/// What is written to: a new file, a device or a pipe.
#[derive(Drop)]
pub struct OutFile<F> {
    file: F,
    failed: bool,
    // Why it failed, if the system gave a reason.
    why: Option<Reason>,
}

impl<F> OutFile<F> {
    // What nothing was written to.
    fn new(file: F) -> OutFile<F> {
        OutFile {
            file,
            failed: false,
            why: None,
        }
    }
}

/// Where a new file is, and which one it is to replace.
#[derive(Drop)]
pub struct NewName {
    name: PathBuf,
    // The file that is replaced, where there is one: a link stays, and what it leads to is replaced.
    replaced: Option<PathBuf>,
}

impl<F: Write> ByteOut for OutFile<F> {
    ghost contents = { λ _. None };

    ghost has_failed = { λ s. s.failed };

    ghost writes = { λ _. 0 };

    fn write(&mut self, bytes: &[u8]) -> Option<usize> {
        if self.failed {
            return None;
        }
        match self.file.write(bytes) {
            Ok(count) => {
                self.failed = count == 0 && !bytes.is_empty();
                Some(count)
            }
            Err(error) => {
                self.failed = true;
                self.why = reason_of(&error);
                None
            }
        }
    }
}

impl<R: Files<File = File> + Input + AllocGlobal> Folder for Disk<'_, R, File> {
    type Reader = DiskReader<File, R::Reader>;

    type Sink = OutFile<File>;

    type NewFile = OutFile<File>;

    type NewName = NewName;

    ghost holds = { λ _ _ _. ⊤ };

    ghost closed = { λ _ _. ⊤ };

    ghost standard = { λ _ _. ⊤ };

    ghost opens = { λ _ _ _. ⊤ };

    ghost is_input = { λ _ _. ⊤ };

    ghost is_one = { λ _ _ _ _. ⊤ };

    ghost leads = { λ _ _ _. ⊤ };

    ghost unwritable = { λ _ _. ⊤ };

    ghost why = { λ _ _ _. ⊤ };

    ghost sinks = { λ _ _ _. ⊤ };

    ghost ends = { λ _ _ _. ⊤ };

    ghost tells = { λ _. ⊥ };

    ghost moment = { λ _. 0 };

    ghost left_since = { λ _ _ _ _. ⊥ };

    ghost is_stray = { λ _ _. ⊤ };

    ghost place = { λ _. [] };

    fn open(&self, path: &str) -> Option<DiskReader<File, R::Reader>> {
        match fs::open(self.rt, path) {
            Ok(file) => {
                self.why.set(None);
                let length = length_of(&file);
                let inner = FromRead::new(FileOrInput::File(file));
                Some(DiskReader { inner, length })
            }
            Err(error) => {
                self.why.set(reason_of(&error));
                None
            }
        }
    }

    fn input(&self) -> DiskReader<File, R::Reader> {
        DiskReader {
            inner: FromRead::new(FileOrInput::Input(self.rt.reader())),
            length: None,
        }
    }

    // It is asked of an input and of what is to be written, which is then refused.
    fn is_one_file(&self, path: &str, other: &str) -> bool {
        let is_one = path == other || are_one(self.rt, path, other);
        if is_one {
            self.why.set(Some(Reason::IsInput));
        }
        is_one
    }

    fn target(&self, path: &str) -> Option<Destination> {
        match fs::metadata(self.rt, path) {
            Ok(found) if found.is_file() && is_standard(self.rt, &found) => {
                self.why.set(Some(Reason::IsStandard));
                None
            }
            Ok(found) if found.is_file() => Some(Destination::File),
            Ok(found) if found.is_dir() => None,
            Ok(_) => Some(Destination::Stream),
            Err(error) if error.kind() == io::ErrorKind::NotFound => Some(Destination::File),
            Err(error) => {
                self.why.set(reason_of(&error));
                None
            }
        }
    }

    fn sink(&self, path: &str) -> Option<OutFile<File>> {
        match OpenOptions::new().write(true).open(self.rt, path) {
            Ok(file) => Some(OutFile::new(file)),
            Err(error) => {
                self.why.set(reason_of(&error));
                None
            }
        }
    }

    fn draft(&mut self, path: &str) -> Result<FileDraft<OutFile<File>, NewName>, OutFault> {
        let replaced = replaced_file(self.rt, &self.why, path)?;
        let (file, name) = match &replaced {
            Some(old) => new_file(self.rt, &self.why, old.as_path())?,
            None => new_file(self.rt, &self.why, Path::new(path))?,
        };
        Ok(FileDraft {
            file: OutFile::new(file),
            name: NewName { name, replaced },
        })
    }

    fn publish(&mut self, file: OutFile<File>, name: NewName, path: &str) -> bool {
        let NewName { name, replaced } = name;
        let moved = match (file.file.sync_all(), &replaced) {
            (Ok(()), Some(old)) => fs::rename(self.rt, &name, old),
            (Ok(()), None) => fs::rename(self.rt, &name, path),
            (Err(error), _) => Err(error),
        };
        match moved {
            Ok(()) => true,
            Err(error) => {
                self.why.set(reason_of(&error));
                let _ = fs::remove_file(self.rt, &name);
                false
            }
        }
    }

    fn discard(&mut self, file: OutFile<File>, name: NewName) {
        self.why.set(file.why);
        let _ = fs::remove_file(self.rt, &name.name);
    }

    fn end(&self, _path: &str, _sink: OutFile<File>) {}

    fn give_up(&self, sink: OutFile<File>) {
        self.why.set(sink.why);
    }

    // A folder can be opened, so that no step fails until it is read.
    fn reason(&self, path: &str) -> Option<Reason> {
        match (self.why.get(), fs::metadata(self.rt, path)) {
            (Some(reason), _) => Some(reason),
            (None, Ok(found)) if found.is_dir() => Some(Reason::IsFolder),
            (None, _) => None,
        }
    }
}

impl<R: Files<File = File> + AllocGlobal + Clone + Drop> Listing for Disk<'_, R, File> {
    ghost lists = { λ _ _ _. ⊤ };

    ghost unlisted = { λ _ _. ⊤ };

    fn names(&self, alloc: Global, path: &str) -> Result<Option<Vec<String>>, AllocError> {
        match list_names(self.rt, alloc, path) {
            Ok(mut names) => {
                self.why.set(None);
                names.sort_unstable();
                Ok(Some(names))
            }
            Err(error) if error.kind() == io::ErrorKind::OutOfMemory => Err(AllocError),
            Err(error) => {
                self.why.set(reason_of(&error));
                Ok(None)
            }
        }
    }
}

// The names of what lies in the folder of a path, but for those of links and those that are not UTF-8.
fn list_names<R: Files + AllocGlobal + Clone + Drop>(
    rt: &R,
    alloc: Global,
    path: &str,
) -> io::Result<Vec<String>> {
    let mut names = Vec::new(alloc);
    for entry in fs::read_dir(rt, path)? {
        match entry {
            Ok(entry) => add_name(alloc, &mut names, &entry)?,
            Err(error) if error.kind() == io::ErrorKind::InvalidFilename => {}
            Err(error) => return Err(error),
        }
    }
    Ok(names)
}

// Adds the name of what lies in a folder, unless it is a link, which may lead out of it.
fn add_name<R: Files>(
    alloc: Global,
    names: &mut Vec<String>,
    entry: &DirEntry<R, Global>,
) -> io::Result<()> {
    if !entry.file_type()?.is_symlink() {
        names.push(String::from_str(alloc, entry.file_name())?)?;
    }
    Ok(())
}

// How long a file is, if it is one and no device.
fn length_of(file: &File) -> Option<u64> {
    match file.metadata() {
        Ok(found) if found.is_file() => Some(found.len()),
        Ok(_) | Err(_) => None,
    }
}

// Whether two paths lead to one file.
fn are_one<R: Files>(rt: &R, path: &str, other: &str) -> bool {
    match fs::metadata(rt, path) {
        Ok(found) => is_file_of(rt, &found, other),
        Err(_) => false,
    }
}

// Whether a file is the one to which standard output or standard error goes, which would be lost if it were replaced.
fn is_standard<R: Files>(rt: &R, found: &Metadata) -> bool {
    is_file_of(rt, found, OUTPUT) || is_file_of(rt, found, ERRORS)
}

fn is_file_of<R: Files>(rt: &R, found: &Metadata, path: &str) -> bool {
    match fs::metadata(rt, path) {
        Ok(other) => found.dev() == other.dev() && found.ino() == other.ino(),
        Err(_) => false,
    }
}

// The reason that an error is, if it is one of those that are said.
fn reason_of(error: &io::Error) -> Option<Reason> {
    match error.kind() {
        io::ErrorKind::NotFound => Some(Reason::NoFile),
        io::ErrorKind::NotADirectory => Some(Reason::NoFolder),
        io::ErrorKind::IsADirectory => Some(Reason::IsFolder),
        io::ErrorKind::PermissionDenied => Some(Reason::NotPermitted),
        io::ErrorKind::ReadOnlyFilesystem => Some(Reason::ReadOnly),
        io::ErrorKind::StorageFull => Some(Reason::NoSpace),
        io::ErrorKind::QuotaExceeded => Some(Reason::NoQuota),
        io::ErrorKind::FileTooLarge => Some(Reason::TooLarge),
        _ => None,
    }
}

// Why the system refused.
fn fault_of(why: &Cell<Option<Reason>>, error: io::Error) -> OutFault {
    why.set(reason_of(&error));
    if error.kind() == io::ErrorKind::OutOfMemory {
        OutFault::Memory(AllocError)
    } else {
        OutFault::Unwritable
    }
}

// The file that a path leads to through links, if there is one. It must be one that may be written to, as it would be
// if it were not replaced.
fn replaced_file<R: Files + AllocGlobal>(
    rt: &R,
    why: &Cell<Option<Reason>>,
    path: &str,
) -> Result<Option<PathBuf>, OutFault> {
    match fs::symlink_metadata(rt, path) {
        Ok(_) => {}
        Err(error) if error.kind() == io::ErrorKind::NotFound => return Ok(None),
        Err(error) => return Err(fault_of(why, error)),
    }
    match OpenOptions::new().write(true).open(rt, path) {
        Ok(_) => {}
        Err(error) => return Err(fault_of(why, error)),
    }
    match fs::canonicalize(rt, path) {
        Ok(real) => Ok(Some(real)),
        Err(error) => Err(fault_of(why, error)),
    }
}

// A new file in the folder of another, with the first name that is free, and with the permissions of the other.
fn new_file<R: Files<File = File> + AllocGlobal>(
    rt: &R,
    why: &Cell<Option<Reason>>,
    other: Path<'_>,
) -> Result<(File, PathBuf), OutFault> {
    remove_strays(rt, other)?;
    for number in 0..MOST_DRAFTS {
        let name = draft_name(rt, other, number)?;
        match OpenOptions::new()
            .write(true)
            .create_new(true)
            .open(rt, &name)
        {
            Ok(file) if is_held(rt, &file, &name) => {
                return with_permissions(rt, why, file, name, other);
            }
            Ok(_) => {}
            Err(error) if error.kind() == io::ErrorKind::AlreadyExists => {}
            Err(error) => return Err(no_draft(why, error)),
        }
    }
    why.set(None);
    Err(OutFault::Unwritable)
}

// Removes the drafts that stopped runs left in the folder of a file, up to the first name that is free. A run locks its
// draft for as long as it writes it, so one that isn't locked is nobody's.
fn remove_strays<R: Files<File = File> + AllocGlobal>(
    rt: &R,
    other: Path<'_>,
) -> Result<(), OutFault> {
    for number in 0..MOST_DRAFTS {
        let name = draft_name(rt, other, number)?;
        match fs::symlink_metadata(rt, &name) {
            Ok(found) if found.is_file() => remove_stray(rt, &name),
            Ok(_) => {}
            Err(_) => return Ok(()),
        }
    }
    Ok(())
}

// Removes a draft that no run has locked. One that can't be opened or locked stays.
fn remove_stray<R: Files<File = File>>(rt: &R, name: &PathBuf) {
    let Ok(file) = fs::open(rt, name) else {
        return;
    };
    if file.try_lock().is_ok() && is_still(rt, &file, name) {
        let _ = fs::remove_file(rt, name);
    }
}

// Locks a new draft, and says whether it is this run's: another run may have taken it for one that nobody locked. Where
// the system has no locks none is needed, since no run removes a draft there.
fn is_held<R: Files<File = File>>(rt: &R, file: &File, name: &PathBuf) -> bool {
    match file.try_lock() {
        Ok(()) => is_still(rt, file, name),
        Err(TryLockError::WouldBlock) => false,
        Err(TryLockError::Error(_)) => true,
    }
}

// Whether a file is still the one of this name.
fn is_still<R: Files<File = File>>(rt: &R, file: &File, name: &PathBuf) -> bool {
    match (file.metadata(), fs::symlink_metadata(rt, name)) {
        (Ok(opened), Ok(found)) => opened.dev() == found.dev() && opened.ino() == found.ino(),
        _ => false,
    }
}

// Why a draft can't be made: where the system finds none, its folder is missing.
fn no_draft(why: &Cell<Option<Reason>>, error: io::Error) -> OutFault {
    let is_absent = error.kind() == io::ErrorKind::NotFound;
    let fault = fault_of(why, error);
    if is_absent {
        why.set(Some(Reason::NoFolder));
    }
    fault
}

// The name of a draft, beside the file that it is to replace.
fn draft_name<R: AllocGlobal>(rt: &R, other: Path<'_>, number: u32) -> Result<PathBuf, OutFault> {
    match format!(in rt.alloc(); ".edicad-{number}.tmp") {
        Ok(name) => match other.with_file_name(rt.alloc(), &name) {
            Ok(path) => Ok(path),
            Err(error) => Err(OutFault::Memory(error)),
        },
        Err(error) => Err(OutFault::Memory(error)),
    }
}

// A new file with the permissions of the file that it is to replace, if there is one.
fn with_permissions<R: Files>(
    rt: &R,
    why: &Cell<Option<Reason>>,
    file: File,
    name: PathBuf,
    other: Path<'_>,
) -> Result<(File, PathBuf), OutFault> {
    let set = match fs::metadata(rt, other) {
        Ok(found) => file.set_permissions(found.permissions()),
        Err(_) => Ok(()),
    };
    match set {
        Ok(()) => Ok((file, name)),
        Err(error) => {
            let _ = fs::remove_file(rt, &name);
            why.set(reason_of(&error));
            Err(OutFault::Unwritable)
        }
    }
}
