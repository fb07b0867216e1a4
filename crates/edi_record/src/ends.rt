//! The ends of a link.

ghost use Rattle.std.specs.Prelude.{◌≡◌, List, [], codes, map, length, true, false, if◌then◌else◌, Some, IfErr, OnOk};
ghost use Rattle.edi_line.specs.ZoneData.{ZoneData};
ghost use Rattle.edi_record.specs.Shapes.{may_have_ends};
ghost use Rattle.edi_record.specs.Records.{is_link};
ghost use Rattle.edi_record.specs.inner.Records.{ends};
ghost use Rattle.edi_record.specs.inner.RecordRules.{kind_in, has_bad_end};
ghost use Rattle.edi_record.specs.inner.RecordRefusal.{IsBreachOf};
ghost use Rattle.edi_record.specs.inner.Stored.{Takes, StoresEnds, kept_ends};

use crate::end::End;
use crate::fault::GroupFault;
use crate::identifier::Identifier;
use crate::long_texts::LongTexts;
use crate::read_pointer::ReadPointer;
use crate::record::Kind;
use edi_line::Text;
use std::alloc::{AllocError, Global};

/// Whether a zone that has come, and should be the pointer or the SNS of an end, is none. The ends are in a list
/// beside, and the SNS of the last of them may still come.
#[derive(Clone, Copy)]
pub(crate) struct Ends {
    is_broken: bool,
}

impl Ends {
    /// No ends have come.
    pub(crate) fn new() -> Ends
        ensures { (group : List ZoneData) → StoresEnds (kept_ends result []) group group }
    {
        Ends { is_broken: false }
    }

    /// Takes the pointer of the next end.
    pub(crate) fn take_pointer(
        &mut self,
        texts: &mut LongTexts,
        list: &mut Vec<End>,
        text: &[u8],
    ) -> Result<(), AllocError>
        ensures { OnOk result (Takes StoresEnds (codes "FTP") text.now (kept_ends self.old list.old.items)
            (kept_ends self.new list.new.items)) }
    {
        let Some(pointer) = ReadPointer::read(text) else {
            self.is_broken = true;
            return Ok(());
        };
        list.reserve(1)?;
        let rid = Identifier::of(texts, pointer.parts.rid)?;
        let start = texts.start(&pointer)?;
        list.push_reserved(End {
            start,
            rid,
            sns: None,
        });
        Ok(())
    }

    /// Takes an SNS.
    pub(crate) fn take_sense(
        &mut self,
        alloc: Global,
        list: &mut Vec<End>,
        text: &[u8],
    ) -> Result<(), AllocError>
        ensures { OnOk result (Takes StoresEnds (codes "SNS") text.now (kept_ends self.old list.old.items)
            (kept_ends self.new list.new.items)) }
    {
        let Some(last) = list.last_mut() else {
            self.is_broken = true;
            return Ok(());
        };
        if last.sns().is_some() {
            self.is_broken = true;
            return Ok(());
        }
        last.put_sns(Text::from_slice(alloc, text)?);
        Ok(())
    }

    /// The ends of a link, and none of other records; or rule 207 is broken, where one of them is no pointer, there are
    /// fewer than two, or an SNS comes before any end or twice for one. It is inlined, since records of other types have
    /// nothing to do here.
    #[inline(always)]
    pub(crate) fn finish(self, kind: Kind, list: &mut Vec<End>) -> Result<(), GroupFault>
        ensures states { OnOk result ((group : List ZoneData)
            → (is_link kind ≡ true → StoresEnds (kept_ends self list.old.items) [] group)
            → (if is_link kind then ends group else []) ≡ map Some list.new.items) }
        ensures shape { OnOk result (may_have_ends kind (length list.new.items) ≡ true) }
        ensures sound { OnOk result ((group : List ZoneData) → kind_in group ≡ Some kind
            → (is_link kind ≡ true → StoresEnds (kept_ends self list.old.items) [] group)
            → has_bad_end group ≡ false) }
        ensures breach { IfErr result (λ fault. (group : List ZoneData) → kind_in group ≡ Some kind
            → (is_link kind ≡ true → StoresEnds (kept_ends self list.old.items) [] group)
            → IsBreachOf 207 (has_bad_end group) fault) }
    {
        if !kind.is_link() {
            list.clear();
            return Ok(());
        }
        if self.is_broken || list.len() < 2 {
            return Err(GroupFault::Broken(207));
        }
        Ok(())
    }
}
