//! The zone that points a record to its class, printed once for records of one class that follow one another.

ghost use Rattle.std.specs.Prelude.{◌≡◌, ◌<◌, ◌++◌, length, codes, OnOk};
ghost use Rattle.edi_line.specs.Printing.{printed_zone, zone_headed};
ghost use Rattle.edi_record.specs.CanonicalZones.{class_text};
ghost use Rattle.edi_schema.specs.Classes.{Classes};
ghost use Rattle.edi_write.specs.Layout.{class_name_of};
ghost use Rattle.edi_write.specs.inner.ClassLines.{IsLineOfItsClass};

use crate::heads::CLASS;
use crate::page::Page;
use crate::parts::write_class;
use edi_schema::{ClassRef, Schema};
use std::alloc::{AllocError, Global};

/// A page with nothing but the zone of a class, and that class; or no class yet.
#[derive(Drop)]
pub(crate) struct ClassLine {
    class: Option<ClassRef>,
    page: Page,
}

impl ClassLine {
    /// That of no class.
    pub(crate) fn new(alloc: Global) -> ClassLine
        ensures { (s : Classes) → IsLineOfItsClass s result }
    {
        ClassLine {
            class: None,
            page: Page::new(alloc),
        }
    }

    /// Makes it that of a class, if it isn't.
    fn turn_to(&mut self, schema: &Schema, class: ClassRef) -> Result<(), AllocError>
        requires line { IsLineOfItsClass schema.now self.old }
        requires class { class < length schema.now }
        ensures line { OnOk result (IsLineOfItsClass schema.now self.new) }
        ensures printed { OnOk result (self.new.page.file.items
            ≡ printed_zone (zone_headed (codes "SCPCP") (class_text (class_name_of schema.now class)))) }
    {
        if self.class == Some(class) {
            return Ok(());
        }
        self.page.file.clear();
        write_class(&mut self.page, CLASS, schema.name(class))?;
        self.class = Some(class);
        Ok(())
    }

    /// Writes the zone of a class at the end of a page.
    pub(crate) fn write(
        &mut self,
        page: &mut Page,
        schema: &Schema,
        class: ClassRef,
    ) -> Result<(), AllocError>
        requires line { IsLineOfItsClass schema.now self.old }
        requires class { class < length schema.now }
        ensures line { OnOk result (IsLineOfItsClass schema.now self.new) }
        ensures written { OnOk result (page.new.file.items ≡ page.old.file.items
            ++ printed_zone (zone_headed (codes "SCPCP") (class_text (class_name_of schema.now class)))) }
    {
        self.turn_to(schema, class)?;
        page.file.extend_from_slice(&self.page.file)
    }
}
