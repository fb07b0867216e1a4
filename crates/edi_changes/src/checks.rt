//! What `hash --check` answers.

ghost use Rattle.std.specs.Prelude.{◌≡◌, IfErr, IfOk, IsTrue, MatchResult};
ghost use Rattle.std.proofs.Common.{Ok};
ghost use Rattle.std.specs.Str.{bytes_eq};
ghost use Rattle.sha2.specs.Sha256.{sha256};
ghost use Rattle.edi_schema_text.specs.SchemaText.{text_of_schema};
ghost use Rattle.edi_answers.specs.Effects.{effects, inputs, written};
ghost use Rattle.edi_answers.specs.Hashes.{IsAnswerOf};
ghost use Rattle.edi_answers.specs.Statuses.{IsPairStatus};
ghost use Rattle.edi_answers.specs.WholeInputs.{OfWholeInput};
ghost use Rattle.edi_changes.specs.Checks.{AreHeldUnder, AreLinesHeld, FailsInVerdict, GivesVerdict, IsFilePath, IsHeldStatus, IsLineHeld, IsListOf, IsNoFilePath, IsSheetHeld};
ghost use Rattle.edi_changes.specs.Lacking.{MatchLack};
ghost use Rattle.edi_changes.specs.ListText.{IsNoList};
ghost use Rattle.edi_changes.specs.inner.Checking.{IsSaidAs, MatchNoDigest, TellsNoDigest, status_of_said};

use crate::lacking::{Lack, read_at, tell_lack};
use crate::list::ListLine;
use crate::reading::read_list;
use crate::verdict::{LineOutcome, at_least, say_verdict};
use edi_answers::hashes::{digest_of, load_schema, path_of_schema, tell_fault};
use edi_answers::{notes, report};
use edi_compare::RunFault;
use edi_files::Folder;
use edi_line::ByteOut;
use edi_schema::Schema;
use edi_schema_text::schema_digest;
use edi_words::{GivenKinds, ManyFiles, is_standard};
use std::alloc::Global;
use std::str::from_utf8;

const UNREAD_STATUS: u8 = 4;

// What the lines of a list are held against: a schema, and the sheets of a folder under it.
#[derive(Drop)]
struct LineChecker<'a, F> {
    alloc: Global,
    folder: &'a F,
    schema: &'a Schema,
}

/// Writes for each line of a list whether its digest is the one that is found: of a sheet that of its canonical file,
/// and of a schema that of the two files. Why a sheet has none is said to `err`. Gives 0 where each is, and else the
/// greatest of 1 and of what the sheets have; 2 where the input is no list or something is refused, 4 where one can't
/// be read or `out` fails, which ends the run, and 5 where memory runs out. The list is read first, and no sheet is
/// opened before the schema is loaded; the sheets are opened one after the other, and none of them from standard input
/// (docs/FORMAT.md, "Digests").
pub fn check_list<F: Folder, O: ByteOut, E: ByteOut>(
    alloc: Global,
    folder: &F,
    kinds: &GivenKinds<'_>,
    files: &ManyFiles<'_>,
    list: &str,
    out: &mut O,
    err: &mut E,
) -> u8
    ensures status { IsPairStatus result }
    ensures answer { IsHeldStatus
        (effects F.Folder F.Reader.ByteIn F.Sink.ByteOut F.NewFile.ByteOut folder.now folder.now)
        (written O.ByteOut out.old out.new) (written E.ByteOut err.old err.new) kinds.now files.now list.now result }
{
    match lines_at(alloc, folder, list) {
        Ok(lines) => hold_under(alloc, folder, kinds, files, &lines, out, err),
        Err(lack) => tell_lack(alloc, folder, &lack, list, b"no list of digests", err),
    }
}

// The lines of the list at a path.
fn lines_at<F: Folder>(alloc: Global, folder: &F, path: &str) -> Result<Vec<ListLine>, Lack>
    ensures ok { IfOk result (λ lines.
        OfWholeInput (inputs F.Folder F.Reader.ByteIn folder.now) path.now (λ b. IsListOf b lines.items)) }
    ensures err { IfErr result (MatchLack IsNoList (inputs F.Folder F.Reader.ByteIn folder.now) path.now) }
{
    read_at(alloc, folder, path, |text| read_list(alloc, text))
}

// Holds the lines of a list against what is found under the schema of two files.
fn hold_under<F: Folder, O: ByteOut, E: ByteOut>(
    alloc: Global,
    folder: &F,
    kinds: &GivenKinds<'_>,
    files: &ManyFiles<'_>,
    lines: &[ListLine],
    out: &mut O,
    err: &mut E,
) -> u8
    ensures status { IsPairStatus result }
    ensures answer { AreHeldUnder
        (effects F.Folder F.Reader.ByteIn F.Sink.ByteOut F.NewFile.ByteOut folder.now folder.now) kinds.now files.now
        lines.now (written O.ByteOut out.old out.new) (written E.ByteOut err.old err.new) result }
{
    match load_schema(alloc, folder, kinds, files) {
        Ok(loaded) => {
            notes::say(err, &loaded.note);
            let checker = LineChecker {
                alloc,
                folder,
                schema: &loaded.schema,
            };
            checker.hold_each(lines, out, err)
        }
        Err(fault) => tell_fault(alloc, folder, &fault, path_of_schema(files, &fault), err),
    }
}

// Whether a digest that was found is the one of a line.
fn is_digest_of(digest: &[u8], line: &ListLine) -> bool
    ensures { result ≡ bytes_eq digest.now line.now.digest }
{
    digest == line.digest.as_slice()
}

// Why the sheet of a line has no digest.
#[derive(Drop)]
enum NoDigest<'a> {
    /// Its name is the path of no file, as this line says.
    NoFile(&'static [u8]),
    /// The file of this path has none.
    Fault(&'a str, RunFault),
}

// The path that a name in a list is, or the line on why it is none.
fn file_path(name: &[u8]) -> Result<&str, &'static [u8]>
    ensures { MatchResult result (λ path. (path.now ≡ name.now) × IsFilePath name.now)
        (λ line. IsNoFilePath name.now line.now) }
{
    match from_utf8(name) {
        Ok(path) if is_standard(path) => Err(
            b"edicad: the list names standard input, which is not read\n",
        ),
        Ok(path) => Ok(path),
        Err(_) => Err(b"edicad: the list names a file by a path that is not UTF-8\n"),
    }
}

impl<'a, F: Folder> LineChecker<'a, F> {
    // Holds each line against what is found, and gives the greatest status; up to one in which the output fails.
    fn hold_each<O: ByteOut, E: ByteOut>(&self, lines: &[ListLine], out: &mut O, err: &mut E) -> u8
        ensures status { IsPairStatus result }
        ensures answer { AreLinesHeld
            (effects F.Folder F.Reader.ByteIn F.Sink.ByteOut F.NewFile.ByteOut self.now.folder.now self.now.folder.now)
            self.now.schema.now lines.now (written O.ByteOut out.old out.new) (written E.ByteOut err.old err.new)
            result }
        ensures out_stays { IsTrue (O.has_failed out.old) → IsTrue (O.has_failed out.new) }
        ensures err_stays { IsTrue (E.has_failed err.old) → IsTrue (E.has_failed err.new) }
    {
        let mut worst = 0;
        for line in lines {
            match self.hold_line(line, out, err) {
                LineOutcome::Whole(status) => worst = worst.max(status),
                LineOutcome::CutOff(status) => return worst.max(status),
            }
        }
        worst
    }

    // Holds a line against what is found.
    fn hold_line<O: ByteOut, E: ByteOut>(
        &self,
        line: &ListLine,
        out: &mut O,
        err: &mut E,
    ) -> LineOutcome
        ensures status { IsPairStatus (status_of_said result) }
        ensures said { let held = IsLineHeld (effects F.Folder F.Reader.ByteIn F.Sink.ByteOut F.NewFile.ByteOut
            self.now.folder.now self.now.folder.now) self.now.schema.now in
            IsSaidAs (held GivesVerdict line.now) (held FailsInVerdict line.now)
            (written O.ByteOut out.old out.new) (written E.ByteOut err.old err.new) result }
        ensures out_stays { IsTrue (O.has_failed out.old) → IsTrue (O.has_failed out.new) }
        ensures err_stays { IsTrue (E.has_failed err.old) → IsTrue (E.has_failed err.new) }
    {
        if line.is_schema {
            self.hold_schema(line, out, err)
        } else {
            self.hold_sheet(line, out, err)
        }
    }

    // Holds the line of a schema against the digest of the schema.
    fn hold_schema<O: ByteOut, E: ByteOut>(
        &self,
        line: &ListLine,
        out: &mut O,
        err: &mut E,
    ) -> LineOutcome
        ensures status { IsPairStatus (status_of_said result) }
        ensures said { let is_same = bytes_eq (sha256 (text_of_schema self.now.schema.now)) line.now.digest in
            IsSaidAs (GivesVerdict line.now is_same) (FailsInVerdict line.now is_same)
            (written O.ByteOut out.old out.new) (written E.ByteOut err.old err.new) result }
        ensures out_stays { IsTrue (O.has_failed out.old) → IsTrue (O.has_failed out.new) }
        ensures err_stays { IsTrue (E.has_failed err.old) → IsTrue (E.has_failed err.new) }
    {
        match schema_digest(self.alloc, self.schema) {
            Ok(digest) => say_verdict(self.alloc, line, is_digest_of(&digest, line), out, err),
            Err(_) => LineOutcome::Whole(report::out_of_memory(err)),
        }
    }

    // The digest of the canonical file of the sheet that a name in a list is the path of.
    fn found_digest<'n>(&self, name: &'n [u8]) -> Result<[u8; 32], NoDigest<'n>>
        ensures ok { IfOk result (λ digest. IsFilePath name.now
            × IsAnswerOf (inputs F.Folder F.Reader.ByteIn self.now.folder.now) self.now.schema.now name.now
            (Ok digest)) }
        ensures err { IfErr result (MatchNoDigest (inputs F.Folder F.Reader.ByteIn self.now.folder.now)
            self.now.schema.now name.now) }
    {
        match file_path(name) {
            Ok(path) => match digest_of(self.alloc, self.folder, self.schema, path) {
                Ok(digest) => Ok(digest),
                Err(fault) => Err(NoDigest::Fault(path, fault)),
            },
            Err(line) => Err(NoDigest::NoFile(line)),
        }
    }

    // Says why a sheet has no digest, and gives the status.
    fn tell_no_digest<E: ByteOut>(&self, why: &NoDigest<'_>, err: &mut E) -> u8
        ensures status { IsPairStatus result }
        ensures told { TellsNoDigest (F.why self.now.folder.now) (written E.ByteOut err.old err.new) why.now result }
        ensures stays { IsTrue (E.has_failed err.old) → IsTrue (E.has_failed err.new) }
    {
        match why {
            NoDigest::NoFile(line) => {
                report::warn(err, line);
                UNREAD_STATUS
            }
            NoDigest::Fault(path, fault) => tell_fault(self.alloc, self.folder, fault, path, err),
        }
    }

    // Holds the line of a sheet against the digest of its canonical file.
    fn hold_sheet<O: ByteOut, E: ByteOut>(
        &self,
        line: &ListLine,
        out: &mut O,
        err: &mut E,
    ) -> LineOutcome
        ensures status { IsPairStatus (status_of_said result) }
        ensures said { let held = IsSheetHeld (effects F.Folder F.Reader.ByteIn F.Sink.ByteOut F.NewFile.ByteOut
            self.now.folder.now self.now.folder.now) self.now.schema.now in
            IsSaidAs (held GivesVerdict line.now) (held FailsInVerdict line.now)
            (written O.ByteOut out.old out.new) (written E.ByteOut err.old err.new) result }
        ensures out_stays { IsTrue (O.has_failed out.old) → IsTrue (O.has_failed out.new) }
        ensures err_stays { IsTrue (E.has_failed err.old) → IsTrue (E.has_failed err.new) }
    {
        match self.found_digest(line.name.as_slice()) {
            Ok(digest) => say_verdict(self.alloc, line, is_digest_of(&digest, line), out, err),
            Err(why) => {
                let status = self.tell_no_digest(&why, err);
                at_least(status, say_verdict(self.alloc, line, false, out, err))
            }
        }
    }
}
