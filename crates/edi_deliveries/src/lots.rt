//! What is replied to the lots of a delivery.
ghost use Rattle.std.specs.Prelude.{◌≡◌, ◌⊎◌, IfOk, IsTrue, false, map, string_bytes, take};
ghost use Rattle.edi_answers.specs.declared.form.AnswerForm.TheVariants.{Words};
ghost use Rattle.edi_answers.specs.Effects.{effects, written};
ghost use Rattle.edi_answers.specs.Hashes.{IsHashStatus};
ghost use Rattle.edi_answers.specs.Notes.{WritesNoteIfAny};
ghost use Rattle.edi_answers.specs.Statuses.{IsSheetStatus, LacksMemory, OnlyLacksMemory};
ghost use Rattle.edi_words.specs.declared.words.ManyFiles.{ManyFiles};
ghost use Rattle.edi_deliveries.specs.Deliveries.{AreLotsAnswered, EachInTurn, IsLotAnswered, IsLotHashed, missing_lines, siblings_of, status_of_missing};
ghost use Rattle.edi_deliveries.specs.inner.Paths.{HavePaths};

use crate::found::FolderNames;
use crate::lot_files::{LotPaths, lot_paths};
use crate::said::{missing_lines, say_lines, unnamed_lines};
use edi_answers::form::AnswerForm;
use edi_answers::hashes::hash;
use edi_answers::report;
use edi_delivery::Lot;
use edi_files::{Folder, Progress};
use edi_line::ByteOut;
use edi_words::{GivenKinds, ManyFiles};
use std::alloc::{AllocError, Global};

const MISSING_STATUS: u8 = 4;

/// In how many VEC files of a lot a record is looked for at which a link of another points.
const MOST_SIBLINGS: usize = 64;

/// What the lots of a delivery are answered by: the folder, the codes of the kinds, the names in the folder of its THF
/// file, and what stands before these in paths.
#[derive(Drop)]
pub(crate) struct LotAnswerer<'a, 'n, F> {
    pub(crate) alloc: Global,
    pub(crate) folder: &'a F,
    pub(crate) kinds: &'a GivenKinds<'a>,
    pub(crate) before: &'a str,
    pub(crate) names: &'a FolderNames<'n>,
}

// The texts behind these.
fn texts_of<'a>(alloc: Global, paths: &'a [String]) -> Result<Vec<&'a str>, AllocError>
    ensures { IfOk result (λ texts. map (λ text. text.now) texts.items ≡ map string_bytes paths.now) }
{
    let mut texts = Vec::new(alloc);
    for path in paths {
        texts.push(path.as_str())?;
    }
    Ok(texts)
}

// The first of these texts, so many at the most.
fn first_of<'a, 'b>(texts: &'b [&'a str], most: usize) -> &'b [&'a str]
    ensures { result.now ≡ take most texts.now }
{
    &texts[..texts.len().min(most)]
}

/// Says which files of a lot are missing, and gives the status of that.
pub(crate) fn say_missing<E: ByteOut>(
    alloc: Global,
    before: &str,
    names: &FolderNames<'_>,
    lot: &Lot,
    err: &mut E,
) -> u8
    ensures status { IsSheetStatus result }
    ensures said { ((result ≡ status_of_missing (missing_lines before.now (names.now) lot.now))
        × WritesNoteIfAny (written E.ByteOut err.old err.new) (missing_lines before.now (names.now) lot.now))
        ⊎ ((result ≡ 5) × LacksMemory (written E.ByteOut err.old err.new)) }
    ensures stays { IsTrue (E.has_failed err.old) → IsTrue (E.has_failed err.new) }
{
    let lines = missing_lines(alloc, before, names, lot);
    say_lines(err, &lines, status_of(&lines))
}

// The status of the lines on missing files.
fn status_of(lines: &Result<Vec<u8>, AllocError>) -> u8
    ensures value { IfOk lines.now (λ lines. result ≡ status_of_missing lines.items) }
    ensures status { IsSheetStatus result }
{
    match lines {
        Ok(lines) if lines.is_empty() => 0,
        _ => MISSING_STATUS,
    }
}

impl<'a, 'n, F: Folder> LotAnswerer<'a, 'n, F> {
    // Answers the sheets of these paths, as `hash` does, with the first of them as siblings.
    fn hash_paths<O: ByteOut, E: ByteOut>(&self, paths: &LotPaths, out: &mut O, err: &mut E) -> u8
        ensures status { IsSheetStatus result }
        ensures answer { ((files : ManyFiles) × HavePaths paths.now files
            × IsHashStatus
            (effects F.Folder F.Reader.ByteIn F.Sink.ByteOut F.NewFile.ByteOut self.now.folder.now self.now.folder.now)
            (written O.ByteOut out.old out.new) (written E.ByteOut err.old err.new) self.now.kinds.now files Words false
            (siblings_of files) result)
            ⊎ (OnlyLacksMemory (written O.ByteOut out.old out.new) (written E.ByteOut err.old err.new) × (result ≡ 5)) }
        ensures out_stays { IsTrue (O.has_failed out.old) → IsTrue (O.has_failed out.new) }
        ensures err_stays { IsTrue (E.has_failed err.old) → IsTrue (E.has_failed err.new) }
    {
        let Ok(sheets) = texts_of(self.alloc, &paths.vecs) else {
            return report::out_of_memory(err);
        };
        let files = ManyFiles {
            scd: paths.scd.as_str(),
            dic: paths.dic.as_str(),
            sheets,
        };
        let siblings = first_of(&files.sheets, MOST_SIBLINGS);
        hash(
            self.alloc,
            self.folder,
            self.kinds,
            &files,
            AnswerForm::Words,
            false,
            siblings,
            out,
            err,
        )
    }

    // Answers the VEC files of a lot that are there.
    fn hash_lot<O: ByteOut, E: ByteOut>(&self, lot: &Lot, out: &mut O, err: &mut E) -> u8
        ensures status { IsSheetStatus result }
        ensures answer { IsLotHashed
            (effects F.Folder F.Reader.ByteIn F.Sink.ByteOut F.NewFile.ByteOut self.now.folder.now self.now.folder.now)
            self.now.kinds.now self.now.before.now (self.now.names.now) lot.now (written O.ByteOut out.old out.new)
            (written E.ByteOut err.old err.new) result }
        ensures out_stays { IsTrue (O.has_failed out.old) → IsTrue (O.has_failed out.new) }
        ensures err_stays { IsTrue (E.has_failed err.old) → IsTrue (E.has_failed err.new) }
    {
        match lot_paths(self.alloc, self.before, self.names, lot) {
            Ok(Some(paths)) => self.hash_paths(&paths, out, err),
            Ok(None) => 0,
            Err(_) => report::out_of_memory(err),
        }
    }

    // Answers a lot: says which of its files are missing, and answers the rest.
    fn answer_lot<O: ByteOut, E: ByteOut>(&self, lot: &Lot, out: &mut O, err: &mut E) -> u8
        ensures status { IsSheetStatus result }
        ensures answer { IsLotAnswered
            (effects F.Folder F.Reader.ByteIn F.Sink.ByteOut F.NewFile.ByteOut self.now.folder.now self.now.folder.now)
            self.now.kinds.now self.now.before.now (self.now.names.now) lot.now (written O.ByteOut out.old out.new)
            (written E.ByteOut err.old err.new) result }
        ensures out_stays { IsTrue (O.has_failed out.old) → IsTrue (O.has_failed out.new) }
        ensures err_stays { IsTrue (E.has_failed err.old) → IsTrue (E.has_failed err.new) }
    {
        let missing = say_missing(self.alloc, self.before, self.names, lot, err);
        let hashed = self.hash_lot(lot, out, err);
        missing.max(hashed)
    }

    // Answers lots in their order, and gives the greatest status.
    fn answer_each<O: ByteOut, E: ByteOut + Progress>(
        &self,
        lots: &[Lot],
        out: &mut O,
        err: &mut E,
    ) -> u8
        ensures status { IsSheetStatus result }
        ensures answer { EachInTurn (IsLotAnswered
            (effects F.Folder F.Reader.ByteIn F.Sink.ByteOut F.NewFile.ByteOut self.now.folder.now self.now.folder.now)
            self.now.kinds.now self.now.before.now (self.now.names.now)) lots.now (written O.ByteOut out.old out.new)
            (written E.ByteOut err.old err.new) result }
        ensures out_stays { IsTrue (O.has_failed out.old) → IsTrue (O.has_failed out.new) }
        ensures err_stays { IsTrue (E.has_failed err.old) → IsTrue (E.has_failed err.new) }
    {
        let mut worst = 0;
        err.begin(lots.len());
        for lot in lots {
            let status = self.answer_lot(lot, out, err);
            worst = worst.max(status);
            err.count(status != 0);
        }
        err.end();
        worst
    }

    /// Answers the lots of a delivery in their order, and says which VEC files none of them names.
    pub(crate) fn answer_lots<O: ByteOut, E: ByteOut + Progress>(
        &self,
        lots: &[Lot],
        out: &mut O,
        err: &mut E,
    ) -> u8
        ensures status { IsSheetStatus result }
        ensures answer { AreLotsAnswered
            (effects F.Folder F.Reader.ByteIn F.Sink.ByteOut F.NewFile.ByteOut self.now.folder.now self.now.folder.now)
            self.now.kinds.now self.now.before.now (self.now.names.now) lots.now (written O.ByteOut out.old out.new)
            (written E.ByteOut err.old err.new) result }
        ensures out_stays { IsTrue (O.has_failed out.old) → IsTrue (O.has_failed out.new) }
        ensures err_stays { IsTrue (E.has_failed err.old) → IsTrue (E.has_failed err.new) }
    {
        let worst = self.answer_each(lots, out, err);
        let lines = unnamed_lines(self.alloc, self.before, self.names, lots);
        let unnamed = say_lines(err, &lines, 0);
        worst.max(unnamed)
    }
}
