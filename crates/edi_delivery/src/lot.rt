//! Lots, and the names of their files.

ghost use Rattle.std.specs.Prelude.{◌≡◌, ◌++◌, IfOk, OnOk, map, option_to_list};
ghost use Rattle.edi_delivery.specs.NameParts.{file_name};
ghost use Rattle.edi_delivery.specs.declared.file_name.Extension.TheVariants.{Vec};

use crate::file_name::{Extension, FileName};
use crate::name_part::NamePart;
use edi_line::Sequence;
use std::alloc::{AllocError, Global};

/// A lot of a delivery: its name, and the own names of its files.
pub struct Lot {
    pub name: NamePart,
    /// Of the classes.
    pub scd: NamePart,
    /// Of the dictionary.
    pub dic: NamePart,
    /// Of the general data, if there are any.
    pub general: Option<NamePart>,
    /// Of the coordinate system, if there is one.
    pub geo: Option<NamePart>,
    /// Of the quality, if there is any.
    pub quality: Option<NamePart>,
    /// Of the sheets, in the order of the THF file.
    pub vecs: Sequence<NamePart>,
}

impl Drop for Lot {
    fn drop(self) {
        let Lot {
            name: _,
            scd: _,
            dic: _,
            general: _,
            geo: _,
            quality: _,
            vecs: _,
        } = self;
    }
}

impl Lot {
    ghost use Rattle.edi_delivery.specs.Lots.{files_of};

    /// The name of one of its files.
    pub fn file(
        &self,
        alloc: Global,
        extension: Extension,
        own: &NamePart,
    ) -> Result<FileName, AllocError>
        ensures { IfOk result (λ file. file ≡ file_name self.now.name extension own.now) }
    {
        FileName::of(alloc, &self.name, extension, own)
    }

    /// The names of all its files: SCD, DIC, GEN, GEO and QAL, and then the VEC files in the order of the THF file.
    pub fn files(&self, alloc: Global) -> Result<Vec<FileName>, AllocError>
        ensures { IfOk result (λ files. files.items ≡ files_of self.now) }
    {
        let mut files = Vec::new(alloc);
        files.push(self.file(alloc, Extension::Scd, &self.scd)?)?;
        files.push(self.file(alloc, Extension::Dic, &self.dic)?)?;
        self.add_if_any(alloc, Extension::Gen, &self.general, &mut files)?;
        self.add_if_any(alloc, Extension::Geo, &self.geo, &mut files)?;
        self.add_if_any(alloc, Extension::Qal, &self.quality, &mut files)?;
        self.add_vecs(alloc, &mut files)?;
        Ok(files)
    }

    /// Adds the name of a file that the lot may have.
    fn add_if_any(
        &self,
        alloc: Global,
        extension: Extension,
        own: &Option<NamePart>,
        files: &mut Vec<FileName>,
    ) -> Result<(), AllocError>
        ensures { OnOk result (files.new.items
            ≡ files.old.items ++ map (file_name self.now.name extension) (option_to_list own.now)) }
    {
        if let Some(own) = own {
            files.push(self.file(alloc, extension, own)?)?;
        }
        Ok(())
    }

    /// Adds the names of its VEC files.
    fn add_vecs(&self, alloc: Global, files: &mut Vec<FileName>) -> Result<(), AllocError>
        ensures { OnOk result (files.new.items ≡ files.old.items ++ map (file_name self.now.name Vec) self.now.vecs) }
    {
        for own in self.vecs.as_slice() {
            files.push(self.file(alloc, Extension::Vec, own)?)?;
        }
        Ok(())
    }
}
