//! The attributes of a record.

ghost use Rattle.std.specs.Prelude.{◌≡◌, List, [], codes, map, true, false, Some, is_some, IfErr, OnOk};
ghost use Rattle.edi_line.specs.ZoneData.{ZoneData};
ghost use Rattle.edi_record.specs.inner.Records.{attributes};
ghost use Rattle.edi_record.specs.inner.RecordRules.{has_bad_attribute};
ghost use Rattle.edi_record.specs.inner.RecordRefusal.{IsBreachOf};
ghost use Rattle.edi_record.specs.inner.Stored.{Takes, StoresAttributes, LeavesOpen, kept_attributes};
ghost use Rattle.edi_record.specs.declared.record.Attribute.{Attribute as AttributeMade};

use crate::fault::GroupFault;
use crate::long_texts::LongTexts;
use crate::pointer::Pointer;
use crate::record::Attribute;
use edi_line::Text;
use std::alloc::{AllocError, Global};

/// Whether the last of the attributes that have come is open, so that its value may still come, and whether a zone of
/// theirs is wrong. The attributes are in a list beside: the value of an open one is empty.
#[derive(Clone, Copy)]
pub(crate) struct Attributes {
    is_open: bool,
    is_broken: bool,
}

impl Attributes {
    /// No attributes have come.
    pub(crate) fn new() -> Attributes
        ensures keeps { (group : List ZoneData) → StoresAttributes (kept_attributes result []) group group }
        ensures closed { (list : List AttributeMade) → is_some (kept_attributes result list).opened ≡ false }
    {
        Attributes {
            is_open: false,
            is_broken: false,
        }
    }

    /// Whether an attribute of the list is open.
    pub(crate) fn is_open(&self, list: &Vec<Attribute>) -> bool
        ensures { result ≡ is_some (kept_attributes self.now list.now.items).opened }
    {
        self.is_open && !list.is_empty()
    }

    /// Takes the class of the next attribute.
    pub(crate) fn take_class(
        &mut self,
        texts: &mut LongTexts,
        list: &mut Vec<Attribute>,
        text: &[u8],
    ) -> Result<(), AllocError>
        ensures keeps { OnOk result (Takes StoresAttributes (codes "ATP") text.now
            (kept_attributes self.old list.old.items) (kept_attributes self.new list.new.items)) }
        ensures opens { OnOk result (LeavesOpen true (kept_attributes self.old list.old.items)
            (kept_attributes self.new list.new.items)) }
    {
        let Some(class) = Pointer::read(text) else {
            self.is_broken = true;
            return Ok(());
        };
        list.push(Attribute {
            atp: class.name(texts)?,
            tex: None,
            atv: Text::short(texts.alloc, &[]),
        })?;
        self.is_open = true;
        Ok(())
    }

    /// Takes a character set.
    pub(crate) fn take_set(
        &mut self,
        alloc: Global,
        list: &mut Vec<Attribute>,
        text: &[u8],
    ) -> Result<(), AllocError>
        requires { is_some (kept_attributes self.old list.old.items).opened ≡ true }
        ensures keeps { OnOk result (Takes StoresAttributes (codes "TEX") text.now
            (kept_attributes self.old list.old.items) (kept_attributes self.new list.new.items)) }
        ensures opens { OnOk result (LeavesOpen true (kept_attributes self.old list.old.items)
            (kept_attributes self.new list.new.items)) }
    {
        let place = list.len() - 1;
        let last = &mut list[place];
        if last.tex.is_some() {
            self.is_broken = true;
            return Ok(());
        }
        last.tex = Some(Text::from_slice(alloc, text)?);
        Ok(())
    }

    /// Takes a value.
    pub(crate) fn take_value(
        &mut self,
        alloc: Global,
        list: &mut Vec<Attribute>,
        text: &[u8],
    ) -> Result<(), AllocError>
        ensures keeps { OnOk result (Takes StoresAttributes (codes "ATV") text.now
            (kept_attributes self.old list.old.items) (kept_attributes self.new list.new.items)) }
        ensures closes { OnOk result (LeavesOpen false (kept_attributes self.old list.old.items)
            (kept_attributes self.new list.new.items)) }
    {
        if !self.is_open(list) {
            self.is_broken = true;
            return Ok(());
        }
        self.is_open = false;
        let last = list.len() - 1;
        list[last].atv = Text::from_slice(alloc, text)?;
        Ok(())
    }

    /// All attributes have come, and are in the list; or rule 204 is broken, where the class of one is no pointer, a
    /// value comes where no attribute is open, or an open attribute has two character sets.
    pub(crate) fn finish(self) -> Result<(), GroupFault>
        ensures states { OnOk result ((list : List AttributeMade) (group : List ZoneData)
            → StoresAttributes (kept_attributes self list) [] group → attributes group ≡ map Some list) }
        ensures unbroken { OnOk result (self.is_broken ≡ false) }
        ensures sound { OnOk result ((list : List AttributeMade) (group : List ZoneData)
            → StoresAttributes (kept_attributes self list) [] group → has_bad_attribute group ≡ false) }
        ensures breach { IfErr result (λ fault. (list : List AttributeMade) (group : List ZoneData)
            → StoresAttributes (kept_attributes self list) [] group → IsBreachOf 204 (has_bad_attribute group) fault) }
    {
        if self.is_broken {
            return Err(GroupFault::Broken(204));
        }
        Ok(())
    }
}
