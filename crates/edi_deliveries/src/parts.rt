//! The lines of a manifest that are found of the lots of a delivery.
ghost use Rattle.std.specs.Prelude.{◌≡◌, IfOk, IsTrue, string_bytes};
ghost use Rattle.edi_answers.specs.Effects.{inputs, written};
ghost use Rattle.edi_answers.specs.Statuses.{IsSheetStatus};
ghost use Rattle.edi_delivery.specs.NameParts.{file_name};
ghost use Rattle.edi_deliveries.specs.Found.{AreClassesFound, AreLotsFound, ArePartsFound, AreSheetsFound, EachFound, FindsLine, IsAnyGeoFound, IsBytesAnswer, IsGeoFound, IsLotFound, IsPartFound, IsSchemaFound, IsSheetFound, placed, schema_part};
ghost use Rattle.edi_deliveries.specs.inner.Finding.{AddsFound, IsPartThere, placed_of};
ghost use Rattle.edi_deliveries.specs.inner.Opening.{opened_of};

use crate::found::FolderNames;
use crate::lot_files::{found_path, lot_paths};
use crate::lots::say_missing;
use crate::opening::OpenDelivery;
use crate::said::{say_lines, unnamed_lines};
use edi_answers::hashes::{digest_of, load_schema, path_of_schema, tell_fault};
use edi_answers::whole::read_path;
use edi_answers::{notes, report};
use edi_compare::RunFault;
use edi_delivery::{Extension, FileName, Lot, NamePart};
use edi_files::{Folder, Progress};
use edi_line::ByteOut;
use edi_manifest::{Digested, ManifestLine};
use edi_schema::Schema;
use edi_schema_text::schema_digest;
use edi_words::{GivenKinds, ManyFiles};
use sha2::{Digest, Sha256};
use std::alloc::{AllocError, Global};

// A lot whose parts are to be found: with the folder, the codes of the kinds, the names in the folder of its THF file,
// and what stands before these in paths.
#[derive(Drop)]
struct LotFinder<'a, F> {
    alloc: Global,
    folder: &'a F,
    kinds: &'a GivenKinds<'a>,
    before: &'a str,
    names: &'a FolderNames<'a>,
    lot: &'a Lot,
}

// A file of a lot that is there: its name by the THF file, and its path.
#[derive(Drop)]
struct LotFile {
    name: FileName,
    path: String,
}

// Adds a line, or says that there is no memory for it, and gives the status.
fn add_line<E: ByteOut>(lines: &mut Vec<ManifestLine>, line: ManifestLine, err: &mut E) -> u8
    ensures status { IsSheetStatus result }
    ensures found { AddsFound (FindsLine line)
        lines.old.items lines.new.items (written E.ByteOut err.old err.new) result }
    ensures stays { IsTrue (E.has_failed err.old) → IsTrue (E.has_failed err.new) }
{
    match lines.push(line) {
        Ok(()) => 0,
        Err(_) => report::out_of_memory(err),
    }
}

// The digest of the bytes of a path.
fn digest_of_bytes<F: Folder>(alloc: Global, folder: &F, path: &str) -> Result<[u8; 32], RunFault>
    ensures { IsBytesAnswer (inputs F.Folder F.Reader.ByteIn folder.now) path.now result }
{
    let bytes = read_path(alloc, folder, path)?;
    Ok(Sha256::digest(&bytes))
}

// The line of a lot's schema.
fn schema_part(alloc: Global, schema: &Schema, lot: &Lot) -> Result<ManifestLine, AllocError>
    ensures { IfOk result (λ line. line ≡ schema_part lot.now schema.now) }
{
    Ok(ManifestLine {
        name: lot.file(alloc, Extension::Scd, &lot.scd)?,
        digested: Digested::Schema,
        digest: schema_digest(alloc, schema)?,
    })
}

impl<'a, F: Folder> LotFinder<'a, F> {
    // The file of a lot by its own name, if it is there.
    fn part_of(&self, extension: Extension, own: &NamePart) -> Result<Option<LotFile>, AllocError>
        ensures { IfOk result
            (IsPartThere (placed_of self.now) (file_name self.now.lot.now.name extension own.now)) }
    {
        let name = self.lot.file(self.alloc, extension, own)?;
        match found_path(self.alloc, self.before, self.names, &name)? {
            Some(path) => Ok(Some(LotFile { name, path })),
            None => Ok(None),
        }
    }

    // Adds the line of a part that has a digest, or says why it has none, and gives the status.
    fn add_part<E: ByteOut>(
        &self,
        part: LotFile,
        digested: Digested,
        answer: Result<[u8; 32], RunFault>,
        lines: &mut Vec<ManifestLine>,
        err: &mut E,
    ) -> u8
        ensures status { IsSheetStatus result }
        ensures found { AddsFound (IsPartFound (F.why self.now.folder.now) part.name digested (string_bytes part.path)
            answer) lines.old.items lines.new.items (written E.ByteOut err.old err.new) result }
        ensures stays { IsTrue (E.has_failed err.old) → IsTrue (E.has_failed err.new) }
    {
        let LotFile { name, path } = part;
        match answer {
            Ok(digest) => {
                let line = ManifestLine {
                    name,
                    digested,
                    digest,
                };
                add_line(lines, line, err)
            }
            Err(fault) => tell_fault(self.alloc, self.folder, &fault, &path, err),
        }
    }

    // Finds a sheet of a lot under a schema.
    fn find_sheet<E: ByteOut>(
        &self,
        schema: &Schema,
        own: &NamePart,
        lines: &mut Vec<ManifestLine>,
        err: &mut E,
    ) -> u8
        ensures status { IsSheetStatus result }
        ensures found { AddsFound (IsSheetFound (inputs F.Folder F.Reader.ByteIn self.now.folder.now)
            (F.why self.now.folder.now) schema.now (placed_of self.now) own.now)
            lines.old.items lines.new.items (written E.ByteOut err.old err.new) result }
        ensures stays { IsTrue (E.has_failed err.old) → IsTrue (E.has_failed err.new) }
    {
        match self.part_of(Extension::Vec, own) {
            Ok(Some(part)) => {
                let answer = digest_of(self.alloc, self.folder, schema, &part.path);
                self.add_part(part, Digested::Sheet, answer, lines, err)
            }
            Ok(None) => 0,
            Err(_) => report::out_of_memory(err),
        }
    }

    // Finds the coordinate system of a lot.
    fn find_geo<E: ByteOut>(&self, own: &NamePart, lines: &mut Vec<ManifestLine>, err: &mut E) -> u8
        ensures status { IsSheetStatus result }
        ensures found { AddsFound (IsGeoFound (inputs F.Folder F.Reader.ByteIn self.now.folder.now)
            (F.why self.now.folder.now) (placed_of self.now) own.now)
            lines.old.items lines.new.items (written E.ByteOut err.old err.new) result }
        ensures stays { IsTrue (E.has_failed err.old) → IsTrue (E.has_failed err.new) }
    {
        match self.part_of(Extension::Geo, own) {
            Ok(Some(part)) => {
                let answer = digest_of_bytes(self.alloc, self.folder, &part.path);
                self.add_part(part, Digested::Coordinates, answer, lines, err)
            }
            Ok(None) => 0,
            Err(_) => report::out_of_memory(err),
        }
    }

    // Adds the line of a lot's schema, or says that there is no memory for it, and gives the status.
    fn find_schema<E: ByteOut>(
        &self,
        schema: &Schema,
        lines: &mut Vec<ManifestLine>,
        err: &mut E,
    ) -> u8
        ensures status { IsSheetStatus result }
        ensures found { AddsFound (FindsLine (schema_part self.now.lot.now schema.now))
            lines.old.items lines.new.items (written E.ByteOut err.old err.new) result }
        ensures stays { IsTrue (E.has_failed err.old) → IsTrue (E.has_failed err.new) }
    {
        match schema_part(self.alloc, schema, self.lot) {
            Ok(line) => add_line(lines, line, err),
            Err(_) => report::out_of_memory(err),
        }
    }

    // Finds the sheets of a lot under its schema, in their order, and gives the greatest status.
    fn find_each_sheet<E: ByteOut>(
        &self,
        schema: &Schema,
        lines: &mut Vec<ManifestLine>,
        err: &mut E,
    ) -> u8
        ensures status { IsSheetStatus result }
        ensures found { AddsFound (EachFound (IsSheetFound (inputs F.Folder F.Reader.ByteIn self.now.folder.now)
            (F.why self.now.folder.now) schema.now (placed_of self.now)) self.now.lot.now.vecs)
            lines.old.items lines.new.items (written E.ByteOut err.old err.new) result }
        ensures stays { IsTrue (E.has_failed err.old) → IsTrue (E.has_failed err.new) }
    {
        let mut worst = 0;
        for own in self.lot.vecs.as_slice() {
            let status = self.find_sheet(schema, own, lines, err);
            worst = worst.max(status);
        }
        worst
    }

    // Finds the schema of a lot and the sheets under it.
    fn find_sheets<E: ByteOut>(
        &self,
        schema: &Schema,
        lines: &mut Vec<ManifestLine>,
        err: &mut E,
    ) -> u8
        ensures status { IsSheetStatus result }
        ensures found { AddsFound (AreSheetsFound (inputs F.Folder F.Reader.ByteIn self.now.folder.now)
            (F.why self.now.folder.now) schema.now (placed_of self.now))
            lines.old.items lines.new.items (written E.ByteOut err.old err.new) result }
        ensures stays { IsTrue (E.has_failed err.old) → IsTrue (E.has_failed err.new) }
    {
        let head = self.find_schema(schema, lines, err);
        let sheets = self.find_each_sheet(schema, lines, err);
        head.max(sheets)
    }

    // Loads the schema of a lot and finds it with the sheets under it, or says why there is none.
    fn find_under<E: ByteOut>(
        &self,
        files: &ManyFiles<'_>,
        lines: &mut Vec<ManifestLine>,
        err: &mut E,
    ) -> u8
        ensures status { IsSheetStatus result }
        ensures found { AddsFound (IsSchemaFound (inputs F.Folder F.Reader.ByteIn self.now.folder.now)
            (F.why self.now.folder.now) self.now.kinds.now files.now (placed_of self.now))
            lines.old.items lines.new.items (written E.ByteOut err.old err.new) result }
        ensures stays { IsTrue (E.has_failed err.old) → IsTrue (E.has_failed err.new) }
    {
        match load_schema(self.alloc, self.folder, self.kinds, files) {
            Ok(loaded) => {
                notes::say(err, &loaded.note);
                self.find_sheets(&loaded.schema, lines, err)
            }
            Err(fault) => tell_fault(
                self.alloc,
                self.folder,
                &fault,
                path_of_schema(files, &fault),
                err,
            ),
        }
    }

    // Finds the schema of a lot and its sheets, where its classes and its dictionary are there.
    fn find_classes<E: ByteOut>(&self, lines: &mut Vec<ManifestLine>, err: &mut E) -> u8
        ensures status { IsSheetStatus result }
        ensures found { AddsFound (AreClassesFound (inputs F.Folder F.Reader.ByteIn self.now.folder.now)
            (F.why self.now.folder.now) self.now.kinds.now (placed_of self.now))
            lines.old.items lines.new.items (written E.ByteOut err.old err.new) result }
        ensures stays { IsTrue (E.has_failed err.old) → IsTrue (E.has_failed err.new) }
    {
        match lot_paths(self.alloc, self.before, self.names, self.lot) {
            Ok(Some(paths)) => {
                let files = ManyFiles {
                    scd: paths.scd.as_str(),
                    dic: paths.dic.as_str(),
                    sheets: Vec::new(self.alloc),
                };
                self.find_under(&files, lines, err)
            }
            Ok(None) => 0,
            Err(_) => report::out_of_memory(err),
        }
    }

    // Finds the coordinate system of a lot, if it has one.
    fn find_any_geo<E: ByteOut>(&self, lines: &mut Vec<ManifestLine>, err: &mut E) -> u8
        ensures status { IsSheetStatus result }
        ensures found { AddsFound (IsAnyGeoFound (inputs F.Folder F.Reader.ByteIn self.now.folder.now)
            (F.why self.now.folder.now) (placed_of self.now))
            lines.old.items lines.new.items (written E.ByteOut err.old err.new) result }
        ensures stays { IsTrue (E.has_failed err.old) → IsTrue (E.has_failed err.new) }
    {
        match &self.lot.geo {
            Some(own) => self.find_geo(own, lines, err),
            None => 0,
        }
    }

    // Finds the schema, the sheets and the coordinate system of a lot.
    fn find_parts<E: ByteOut>(&self, lines: &mut Vec<ManifestLine>, err: &mut E) -> u8
        ensures status { IsSheetStatus result }
        ensures found { AddsFound (ArePartsFound (inputs F.Folder F.Reader.ByteIn self.now.folder.now)
            (F.why self.now.folder.now) self.now.kinds.now (placed_of self.now))
            lines.old.items lines.new.items (written E.ByteOut err.old err.new) result }
        ensures stays { IsTrue (E.has_failed err.old) → IsTrue (E.has_failed err.new) }
    {
        let classes = self.find_classes(lines, err);
        let geo = self.find_any_geo(lines, err);
        classes.max(geo)
    }

    // Finds the parts of a lot, and says which of its files are missing.
    fn find_lot<E: ByteOut>(&self, lines: &mut Vec<ManifestLine>, err: &mut E) -> u8
        ensures status { IsSheetStatus result }
        ensures found { AddsFound (IsLotFound (inputs F.Folder F.Reader.ByteIn self.now.folder.now)
            (F.why self.now.folder.now) self.now.kinds.now (placed_of self.now))
            lines.old.items lines.new.items (written E.ByteOut err.old err.new) result }
        ensures stays { IsTrue (E.has_failed err.old) → IsTrue (E.has_failed err.new) }
    {
        let missing = say_missing(self.alloc, self.before, self.names, self.lot, err);
        let parts = self.find_parts(lines, err);
        missing.max(parts)
    }
}

// Finds the parts of lots, in their order, and gives the greatest status.
fn find_each_lot<'x, F: Folder, E: ByteOut + Progress>(
    alloc: Global,
    folder: &'x F,
    kinds: &'x GivenKinds<'x>,
    before: &'x str,
    names: &'x FolderNames<'x>,
    lots: &'x [Lot],
    lines: &mut Vec<ManifestLine>,
    err: &mut E,
) -> u8
    ensures status { IsSheetStatus result }
    ensures found { AddsFound (EachFound (λ lot. IsLotFound (inputs F.Folder F.Reader.ByteIn folder.now)
        (F.why folder.now) kinds.now (placed before.now names.now lot)) lots.now)
        lines.old.items lines.new.items (written E.ByteOut err.old err.new) result }
    ensures stays { IsTrue (E.has_failed err.old) → IsTrue (E.has_failed err.new) }
{
    let mut worst = 0;
    err.begin(lots.len());
    for lot in lots {
        let finder = LotFinder {
            alloc,
            folder,
            kinds,
            before,
            names,
            lot,
        };
        let status = finder.find_lot(lines, err);
        worst = worst.max(status);
        err.count(status != 0);
    }
    err.end();
    worst
}

/// Finds the lines of a delivery, which are added to others, and gives the status: 0 where each part has one, and else
/// the greatest of what the errors say of the rest.
pub(crate) fn find_lines<F: Folder, E: ByteOut + Progress>(
    alloc: Global,
    folder: &F,
    kinds: &GivenKinds<'_>,
    opened: &OpenDelivery,
    names: &FolderNames<'_>,
    lines: &mut Vec<ManifestLine>,
    err: &mut E,
) -> u8
    requires { names.now ≡ (opened_of opened.now).names }
    ensures status { IsSheetStatus result }
    ensures found { AddsFound (AreLotsFound (inputs F.Folder F.Reader.ByteIn folder.now) (F.why folder.now)
        kinds.now (opened_of opened.now))
        lines.old.items lines.new.items (written E.ByteOut err.old err.new) result }
    ensures stays { IsTrue (E.has_failed err.old) → IsTrue (E.has_failed err.new) }
{
    let before = opened.before.as_str();
    let lots = opened.delivery.lots();
    let worst = find_each_lot(alloc, folder, kinds, before, names, lots, lines, err);
    let unnamed = say_lines(err, &unnamed_lines(alloc, before, names, lots), 0);
    worst.max(unnamed)
}
