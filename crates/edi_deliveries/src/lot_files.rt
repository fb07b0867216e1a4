//! The paths of a lot's files, by the names in their folder.
ghost use Rattle.std.specs.Prelude.{◌≡◌, ◌++◌, IfOk, MatchOption, map, option_map, string_bytes};
ghost use Rattle.edi_deliveries.specs.Deliveries.{LacksSchema, found_path};
ghost use Rattle.edi_deliveries.specs.inner.Paths.{AreLotPaths, vec_paths};

use crate::found::FolderNames;
use edi_delivery::{Extension, FileName, Lot};
use std::alloc::{AllocError, Global};

/// The paths of a lot's files that are there.
pub(crate) struct LotPaths {
    pub(crate) scd: String,
    pub(crate) dic: String,
    pub(crate) vecs: Vec<String>,
}

impl Drop for LotPaths {
    fn drop(self) {
        let LotPaths {
            scd: _,
            dic: _,
            vecs: _,
        } = self;
    }
}

/// What stands before a name, and the name.
pub(crate) fn path_in(alloc: Global, before: &str, name: &str) -> Result<String, AllocError>
    ensures { IfOk result (λ path. string_bytes path ≡ before.now ++ name.now) }
{
    let mut path = String::from_str(alloc, before)?;
    path.push_str(name)?;
    Ok(path)
}

/// The path of a file that is there.
pub(crate) fn found_path(
    alloc: Global,
    before: &str,
    names: &FolderNames<'_>,
    file: &FileName,
) -> Result<Option<String>, AllocError>
    ensures { IfOk result (λ path. option_map string_bytes path ≡ found_path before.now (names.now) file.now) }
{
    match names.find(alloc, file)? {
        Some(name) => Ok(Some(path_in(alloc, before, name)?)),
        None => Ok(None),
    }
}

// The paths of those VEC files of a lot that are there.
fn vec_paths(
    alloc: Global,
    before: &str,
    names: &FolderNames<'_>,
    lot: &Lot,
) -> Result<Vec<String>, AllocError>
    ensures { IfOk result (λ paths. map string_bytes paths.items ≡ vec_paths before.now (names.now) lot.now) }
{
    let mut paths = Vec::new(alloc);
    for own in lot.vecs.as_slice() {
        let file = lot.file(alloc, Extension::Vec, own)?;
        if let Some(path) = found_path(alloc, before, names, &file)? {
            paths.push(path)?;
        }
    }
    Ok(paths)
}

/// The paths of a lot's files that are there, unless its classes or its dictionary are missing.
pub(crate) fn lot_paths(
    alloc: Global,
    before: &str,
    names: &FolderNames<'_>,
    lot: &Lot,
) -> Result<Option<LotPaths>, AllocError>
    ensures { IfOk result (λ paths. MatchOption paths (LacksSchema (names.now) lot.now)
        (AreLotPaths before.now (names.now) lot.now)) }
{
    let scd_file = lot.file(alloc, Extension::Scd, &lot.scd)?;
    let Some(scd) = found_path(alloc, before, names, &scd_file)? else {
        return Ok(None);
    };
    let dic_file = lot.file(alloc, Extension::Dic, &lot.dic)?;
    let Some(dic) = found_path(alloc, before, names, &dic_file)? else {
        return Ok(None);
    };
    let vecs = vec_paths(alloc, before, names, lot)?;
    Ok(Some(LotPaths { scd, dic, vecs }))
}
