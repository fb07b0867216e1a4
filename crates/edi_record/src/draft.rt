//! What is stored of a record whose zones are still coming.

ghost use Rattle.std.specs.Prelude.{◌≡◌, ℕ, ◌+◌, ◌<◌, ◌≤◌, ◌^◌, ◌&&◌, ◌||◌, not, true, false, List, [], ◌∷◌, map, length, codes, Some, None, is_some, option_map, MatchOption, IfOk, IfErr, OnOk};
ghost use Rattle.edi_line.specs.ZoneData.{ZoneData, entry};
ghost use Rattle.edi_line.specs.inner.Refusal.{first_broken};
ghost use Rattle.edi_record.specs.inner.Texts.{pointer, class_of as class_in};
ghost use Rattle.edi_record.specs.Shapes.{is_in_shape};
ghost use Rattle.edi_record.specs.Records.{values, is_link};
ghost use Rattle.edi_record.specs.inner.Records.{ReadsAsRecord};
ghost use Rattle.edi_record.specs.RecordRules.{just_one, is_identifier as is_identifier_text};
ghost use Rattle.edi_record.specs.inner.RecordRules.{kind_in, is_arc_kind, counts_right, record_tests};
ghost use Rattle.edi_record.specs.inner.RecordRefusal.{IsGroupRefusal};
ghost use Rattle.edi_record.specs.inner.Stored.{AreTexts, AreCounts, AreClassTexts, StoresRecord, kept};
ghost use Rattle.edi_record.specs.inner.RecordParts.{AreEmpty, whole};
ghost use Rattle.edi_record.specs.declared.record_parts.RecordParts.{RecordParts as Parts};

use crate::attributes::Attributes;
use crate::counts::{is_wrong, read_count};
use crate::ends::Ends;
use crate::extras::Extras;
use crate::fault::GroupFault;
use crate::groups::is_identifier;
use crate::identifier::Identifier;
use crate::long_texts::LongTexts;
use crate::name::Name;
use crate::only::Only;
use crate::points::Points;
use crate::read_pointer::ReadPointer;
use crate::record::Kind;
use crate::record_parts::{RecordHead, RecordParts};
use crate::role::{ZoneRole, role_of};
use edi_line::Zone;
use std::alloc::{AllocError, Global};
use std::mem::replace;
use std::sync::Arc;

/// What is stored of the zones of a record that have come, each looked at once, beside its parts. It owns what it
/// stores, so a zone may be freed as soon as it is taken.
pub(crate) struct Draft {
    kind: Kind,
    identifier: Only<Identifier>,
    /// None where the text is no pointer.
    class: Only<Option<Arc<Name>>>,
    /// None where the text isn't digits, or is worth more than there can be zones.
    attribute_count: Only<Option<usize>>,
    /// The count of an arc's points or of a link's ends.
    body_count: Only<Option<usize>>,
    /// How many points or ends have come.
    counted: usize,
    attributes: Attributes,
    points: Points,
    ends: Ends,
    extras: Extras,
}

impl Drop for Draft {
    // A call for each record would take more than to let it go.
    #[inline(always)]
    fn drop(self) {
        let Draft {
            kind: _,
            identifier: _,
            class: _,
            attribute_count: _,
            body_count: _,
            counted: _,
            attributes: _,
            points: _,
            ends: _,
            extras: _,
        } = self;
    }
}

impl Draft {
    /// Nothing of a record of this type has come but its type.
    pub(crate) fn new(kind: Kind) -> Draft
        ensures keeps { (parts : Parts) (group : List ZoneData) → AreEmpty parts
            → StoresRecord (kept result parts) group group }
        ensures kind { result.kind ≡ kind }
    {
        Draft {
            kind,
            identifier: Only::Absent,
            class: Only::Absent,
            attribute_count: Only::Absent,
            body_count: Only::Absent,
            counted: 0,
            attributes: Attributes::new(),
            points: Points::new(),
            ends: Ends::new(),
            extras: Extras::new(),
        }
    }

    /// Takes the next zone of the record.
    pub(crate) fn take(
        &mut self,
        alloc: Global,
        parts: &mut RecordParts,
        zone: &Zone<'_>,
    ) -> Result<(), AllocError>
        ensures kind { OnOk result (self.new.kind ≡ self.old.kind) }
        ensures keeps { OnOk result ((left group : List ZoneData)
            → StoresRecord (kept self.old parts.old) (entry zone.now ∷ left) group
            → StoresRecord (kept self.new parts.new) left group) }
    {
        let text = zone.value.as_slice();
        match role_of(self.kind, zone.code) {
            ZoneRole::Identifier => take_identifier(&mut self.identifier, &mut parts.texts, text)?,
            ZoneRole::Class => take_class(&mut self.class, &mut parts.texts, text)?,
            ZoneRole::AttributeCount => take_count(&mut self.attribute_count, text),
            ZoneRole::AttributeClass => {
                self.attributes
                    .take_class(&mut parts.texts, &mut parts.attributes, text)?;
            }
            ZoneRole::AttributeSet if self.attributes.is_open(&parts.attributes) => {
                self.attributes
                    .take_set(alloc, &mut parts.attributes, text)?;
            }
            ZoneRole::AttributeSet => self.extras.take(alloc, &mut parts.extras, zone)?,
            ZoneRole::AttributeValue => {
                self.attributes
                    .take_value(alloc, &mut parts.attributes, text)?;
            }
            ZoneRole::BodyCount => take_count(&mut self.body_count, text),
            ZoneRole::Position => {
                self.counted = next_count(self.counted)?;
                self.points.take(&mut parts.points, text)?;
            }
            ZoneRole::EndPointer => {
                self.counted = next_count(self.counted)?;
                self.ends
                    .take_pointer(&mut parts.texts, &mut parts.ends, text)?;
            }
            ZoneRole::EndSense => self.ends.take_sense(alloc, &mut parts.ends, text)?,
            ZoneRole::Skipped => {}
            ZoneRole::Unknown => self.extras.take(alloc, &mut parts.extras, zone)?,
        }
        Ok(())
    }

    /// The record but for its parts, of which all zones have come, or the least of the rules 202 to 208 that it breaks.
    /// The draft stays where it is, and its parts are in lists already: to move all of them at each step took some 300
    /// instructions a record.
    pub(crate) fn finish(&mut self, parts: &mut RecordParts) -> Result<RecordHead, GroupFault>
        ensures states { IfOk result (λ h. (group : List ZoneData) → length (values (codes "RTY") group) ≡ 1
            → kind_in group ≡ Some self.old.kind → StoresRecord (kept self.old parts.old) [] group
            → ReadsAsRecord group (whole h parts.new)) }
        ensures shape { IfOk result (λ h. is_in_shape (whole h parts.new) ≡ true) }
        ensures sound { OnOk result ((group : List ZoneData) → kind_in group ≡ Some self.old.kind
            → StoresRecord (kept self.old parts.old) [] group → first_broken (record_tests group) ≡ None) }
        ensures least { IfErr result (λ fault. (group : List ZoneData) → kind_in group ≡ Some self.old.kind
            → StoresRecord (kept self.old parts.old) [] group → IsGroupRefusal group fault) }
    {
        let Some(rid) = identifier_of(&mut self.identifier) else {
            return Err(GroupFault::Broken(202));
        };
        let Some(scp) = class_of(&mut self.class) else {
            return Err(GroupFault::Broken(203));
        };
        self.attributes.finish()?;
        if is_wrong(&self.attribute_count, parts.attributes.len())
            || is_body_wrong(self.kind, &self.body_count, self.counted)
        {
            return Err(GroupFault::Broken(205));
        }
        self.points.finish(self.kind, &mut parts.points)?;
        self.ends.finish(self.kind, &mut parts.ends)?;
        self.extras.finish()?;
        Ok(RecordHead {
            kind: self.kind,
            rid,
            scp,
        })
    }
}

/// The next count. No memory has room for as many points or ends as can't be counted.
fn next_count(counted: usize) -> Result<usize, AllocError>
    ensures { IfOk result (λ next. next ≡ counted + 1) }
{
    match counted.checked_add(1) {
        Some(next) => Ok(next),
        None => Err(AllocError),
    }
}

/// Takes an identifier.
fn take_identifier(
    stored: &mut Only<Identifier>,
    texts: &mut LongTexts,
    text: &[u8],
) -> Result<(), AllocError>
    ensures { OnOk result ((left all : List (List ℕ)) → AreTexts stored.old (text.now ∷ left) all
        → AreTexts stored.new left all) }
{
    stored.take(Identifier::of(texts, text)?);
    Ok(())
}

/// Takes a count.
fn take_count(stored: &mut Only<Option<usize>>, text: &[u8])
    ensures { (left all : List (List ℕ)) → AreCounts stored.old (text.now ∷ left) all → AreCounts stored.new left all }
{
    stored.take(read_count(text));
}

/// The name of the class that a text points to, or none where it is no pointer.
fn class_named(texts: &mut LongTexts, text: &[u8]) -> Result<Option<Arc<Name>>, AllocError>
    ensures { IfOk result (λ class. class_in text.now ≡ option_map (λ name. name.value) class) }
{
    let Some(pointer) = ReadPointer::read(text) else {
        return Ok(None);
    };
    Ok(Some(texts.class(&pointer)?))
}

/// Takes the pointer to a class.
fn take_class(
    stored: &mut Only<Option<Arc<Name>>>,
    texts: &mut LongTexts,
    text: &[u8],
) -> Result<(), AllocError>
    ensures { OnOk result ((left all : List (List ℕ)) → AreClassTexts stored.old (text.now ∷ left) all
        → AreClassTexts stored.new left all) }
{
    stored.take(class_named(texts, text)?);
    Ok(())
}

/// The identifier of a record, or none where rule 202 is broken.
fn identifier_of(stored: &mut Only<Identifier>) -> Option<Identifier>
    ensures { MatchOption result ((all : List (List ℕ)) → AreTexts stored.old [] all
        → just_one is_identifier_text all ≡ false)
        (λ text. (all : List (List ℕ)) → AreTexts stored.old [] all
        → (just_one is_identifier_text all ≡ true) × (all ≡ text ∷ [])) }
{
    let text = replace(stored, Only::Absent).into_one()?;
    if !is_identifier(text.as_slice()) {
        return None;
    }
    Some(text)
}

/// The name of a record's class, or none where rule 203 is broken.
fn class_of(stored: &mut Only<Option<Arc<Name>>>) -> Option<Arc<Name>>
    ensures { MatchOption result ((all : List (List ℕ)) → AreClassTexts stored.old [] all
        → just_one (λ text. is_some (pointer text)) all ≡ false)
        (λ class. (all : List (List ℕ)) → AreClassTexts stored.old [] all
        → (just_one (λ text. is_some (pointer text)) all ≡ true) × (map class_in all ≡ Some class.value ∷ [])) }
{
    replace(stored, Only::Absent).into_one()?
}

/// Whether the count of an arc's points or of a link's ends is wrong.
fn is_body_wrong(kind: Kind, count: &Only<Option<usize>>, counted: usize) -> bool
    ensures { (points ends : List (List ℕ)) → (is_arc_kind kind ≡ true → AreCounts count.now [] points)
        → (is_link kind ≡ true → AreCounts count.now [] ends)
        → result
        ≡ ((is_arc_kind kind && not (counts_right points counted)) || (is_link kind && not (counts_right ends counted))) }
{
    kind.has_count() && is_wrong(count, counted)
}
