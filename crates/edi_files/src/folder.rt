//! Where files are opened to be read, and replaced.
ghost use Rattle.std.specs.Prelude.{◌≡◌, ◌≢◌, ◌⊎◌, ℕ, Bool, List, [], Option, Some, IfErr, IfOk, IfSome, MatchOption};
ghost use Rattle.std.specs.Bool.{OnFalse, OnTrue};
ghost use Rattle.std.specs.Io.KnownBytes.{IsAtEnd};
ghost use Rattle.edi_files.specs.Folders.{Goes, IsSpare, Leavings, MatchOut};
ghost use Rattle.edi_files.specs.declared.folder.Destination.{Destination};
ghost use Rattle.edi_files.specs.declared.reason.Reason.{Reason};

use crate::reason::Reason;
use edi_line::{ByteIn, ByteOut};
use std::alloc::AllocError;

/// What a path leads to.
#[derive(Clone, Copy)]
pub enum Destination {
    /// A file, or nothing yet.
    File,
    /// What bytes go to as they come: a device or a pipe.
    Stream,
}

/// Why a path can't be written to.
#[derive(Clone, Copy)]
pub enum OutFault {
    Memory(AllocError),
    Unwritable,
}

/// A new file that is to take the place of another.
#[derive(Drop)]
pub struct FileDraft<W, N> {
    /// What it holds.
    pub file: W,
    /// Where it is.
    pub name: N,
}

/// Where files are opened by their paths and replaced, and where standard input is.
///
/// A file is replaced by a draft, a new file with a name of its own that then takes the place of the old one. So each
/// step leaves the old file or the whole new one.
pub trait Folder {
    type Reader: ByteIn + Drop;

    type Sink: ByteOut + Drop;

    type NewFile: ByteOut + Drop;

    type NewName: Drop;

    /// The file of a path can be opened, and this may be known to be its contents.
    ghost holds: { Self → List ℕ → Option (List ℕ) → Type 0 };

    /// The file of a path can't be opened to be read.
    ghost closed: { Self → List ℕ → Type 0 };

    /// This may be known to be the contents of standard input.
    ghost standard: { Self → Option (List ℕ) → Type 0 };

    /// The device of this number was opened to read the file of a path.
    ghost opens: { Self → List ℕ → ℕ → Type 0 };

    /// The device of this number is standard input.
    ghost is_input: { Self → ℕ → Type 0 };

    /// Whether two paths lead to one file.
    ghost is_one: { Self → List ℕ → List ℕ → Bool → Type 0 };

    /// What a path leads to.
    ghost leads: { Self → List ℕ → Destination → Type 0 };

    /// A path can't be written to.
    ghost unwritable: { Self → List ℕ → Type 0 };

    /// What the folder may give as the reason why a path could not be read or written.
    ghost why: { Self → List ℕ → Option Reason → Type 0 };

    /// What was opened to write to the stream of a path, before the first byte.
    ghost sinks: { Self → List ℕ → Self.Sink → Type 0 };

    /// A stream of a path was ended as it was then: no more goes to it.
    ghost ends: { Self → List ℕ → Self.Sink → Type 0 };

    /// The folder claims what interruptions leave.
    ghost tells: { Self → Type 0 };

    /// The moment, as a number that doesn't fall.
    ghost moment: { Self → ℕ };

    /// What an interruption at some moment from that one on might have left at a path.
    ghost left_since: { Self → Leavings };

    /// At the path lies the draft of a run that was stopped.
    ghost is_stray: { Self → List ℕ → Type 0 };

    /// The path of a draft itself.
    ghost place: { Self.NewName → List ℕ };

    /// The file of a path, from its first byte on, if it can be opened.
    fn open(&self, path: &str) -> Option<Self::Reader>
        ensures file { MatchOption result (closed self.now path.now)
            (λ file. holds self.now path.now (Self.Reader.contents file)) }
        ensures device { IfSome result (λ file. opens self.now path.now (Self.Reader.device file)) };

    /// Standard input.
    fn input(&self) -> Self::Reader
        ensures contents { standard self.now (Self.Reader.contents result) }
        ensures device { is_input self.now (Self.Reader.device result) };

    /// Whether two paths lead to one file, as links do.
    fn is_one_file(&self, path: &str, other: &str) -> bool
        ensures { is_one self.now path.now other.now result };

    /// What a path leads to, if it can be written to.
    fn target(&self, path: &str) -> Option<Destination>
        ensures { MatchOption result (unwritable self.now path.now) (leads self.now path.now) };

    /// The stream of a path, to write to it.
    fn sink(&self, path: &str) -> Option<Self::Sink>
        requires { leads self.now path.now Destination.Stream }
        ensures { MatchOption result (unwritable self.now path.now) (sinks self.now path.now) };

    /// A draft of the file of a path, which is still empty. Drafts that stopped runs left may be removed.
    fn draft(&mut self, path: &str) -> Result<FileDraft<Self::NewFile, Self::NewName>, OutFault>
        requires { leads self.old path.now Destination.File }
        ensures empty { IfOk result (λ draft. IsAtEnd (Self.NewFile.contents draft.file)) }
        ensures contents { tells self.old → IfOk result (λ draft. Self.NewFile.contents draft.file ≡ Some []) }
        ensures apart { tells self.old → IfOk result (λ draft. (place draft.name ≢ path.now)
            × IsSpare (is_stray self.old) (moment self.old) (left_since self.old) (place draft.name)) }
        ensures err { IfErr result (λ e. MatchOut e (self.new ≡ self.old) (unwritable self.new path.now)) }
        ensures step { Goes (moment self.old) (moment self.new) (left_since self.old) (left_since self.new)
            (λ p c. (p ≢ path.now) × IsSpare (is_stray self.old) (moment self.old) (left_since self.old) p) };

    /// Puts a new file in the place of the file of a path: its bytes are stored, and then it takes the path.
    fn publish(&mut self, file: Self::NewFile, name: Self::NewName, path: &str) -> bool
        ensures done { OnTrue result (holds self.new path.now (Self.NewFile.contents file)) }
        ensures undone { OnFalse result (unwritable self.new path.now) }
        ensures step { Goes (moment self.old) (moment self.new) (left_since self.old) (left_since self.new)
            (λ p c. ((p ≡ path.now) × IfSome (Self.NewFile.contents file) (λ bytes. c ≡ Some bytes))
            ⊎ (p ≡ place name)) };

    /// Removes a new file, which failed.
    fn discard(&mut self, file: Self::NewFile, name: Self::NewName)
        ensures { Goes (moment self.old) (moment self.new) (left_since self.old) (left_since self.new)
            (λ p c. p ≡ place name) };

    /// Ends the stream of a path, which got all that it was to get.
    fn end(&self, path: &str, sink: Self::Sink)
        ensures { ends self.now path.now sink };

    /// Takes back the stream of a path, which failed.
    fn give_up(&self, sink: Self::Sink);

    /// Why a path could not be read or written by the last step on it, where that is known.
    fn reason(&self, path: &str) -> Option<Reason>
        ensures { why self.now path.now result };
}
