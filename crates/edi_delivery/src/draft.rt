//! What the zones of a lot's record say: rules 702 to 708.

ghost use Rattle.std.specs.Prelude.{◌≡◌, true, false, [], ◌∷◌, Some, None, IfOk, OnOk, IfErr, codes};
ghost use Rattle.std.specs.Prelude.{map, option_map, option_to_list};
ghost use Rattle.std.specs.List.{list_any};
ghost use Rattle.edi_line.specs.ZoneData.{entries};
ghost use Rattle.edi_line.specs.inner.Refusal.{first_broken};
ghost use Rattle.edi_record.specs.Records.{values};
ghost use Rattle.edi_delivery.specs.Lots.{StatesLot};
ghost use Rattle.edi_delivery.specs.inner.LotTests.{lacks_one, is_unsafe, has_several, miscounts_vecs};
ghost use Rattle.edi_delivery.specs.inner.LotTests.{draft_tests, lot_tests};
ghost use Rattle.edi_delivery.specs.inner.Steps.{IfRule};
ghost use Rattle.edi_delivery.specs.inner.Drafts.{IsDraftOf, IsLotOf, own_names};

use crate::count::count_right;
use crate::fault::LotFault;
use crate::lot::Lot;
use crate::name_part::NamePart;
use edi_line::{Sequence, Zone};
use std::alloc::{AllocError, Global};

const LOT_NAME: [u8; 3] = *b"LON";

const CLASSES: [u8; 3] = *b"SCN";

const DICTIONARY: [u8; 3] = *b"DIN";

const GENERAL: [u8; 3] = *b"GNN";

const COORDINATES: [u8; 3] = *b"GON";

const QUALITY: [u8; 3] = *b"QAN";

const SHEET: [u8; 3] = *b"GDN";

const SHEET_COUNT: [u8; 3] = *b"GDC";

/// The values of the zones with a code, in their order.
fn texts<'b>(
    alloc: Global,
    group: &'b [Zone<'_>],
    code: [u8; 3],
) -> Result<Vec<&'b [u8]>, AllocError>
    ensures { IfOk result (λ texts. map (λ t. t.now) texts.items ≡ values code (entries group.now)) }
{
    let mut texts = Vec::new(alloc);
    for zone in group {
        if zone.code == code {
            texts.push(zone.value.as_slice())?;
        }
    }
    Ok(texts)
}

/// The value of the zone with a code, of which there is to be just one.
fn only_text<'b>(
    alloc: Global,
    group: &'b [Zone<'_>],
    code: [u8; 3],
    rule: u16,
) -> Result<&'b [u8], LotFault>
    ensures only { IfOk result (λ text. values code (entries group.now) ≡ text.now ∷ []) }
    ensures other { IfErr result (IfRule (λ r. (r ≡ rule) × (lacks_one (values code (entries group.now)) ≡ true))) }
{
    match texts(alloc, group, code)?.as_slice() {
        [text] => Ok(*text),
        _ => Err(LotFault::Broken(rule)),
    }
}

/// The value of the zone with a code, of which there is to be one at most.
fn text_if_any<'b>(
    alloc: Global,
    group: &'b [Zone<'_>],
    code: [u8; 3],
) -> Result<Option<&'b [u8]>, LotFault>
    ensures any { IfOk result (λ text.
        values code (entries group.now) ≡ option_to_list (option_map (λ t. t.now) text)) }
    ensures several { IfErr result (IfRule (λ r. (r ≡ 707) × (has_several (values code (entries group.now)) ≡ true))) }
{
    match texts(alloc, group, code)?.as_slice() {
        [] => Ok(None),
        [text] => Ok(Some(*text)),
        _ => Err(LotFault::Broken(707)),
    }
}

/// The own names of the VEC files: one at least, and as many as the count says if there is one.
fn counted_sheets<'b>(alloc: Global, group: &'b [Zone<'_>]) -> Result<Vec<&'b [u8]>, LotFault>
    ensures vecs { IfOk result (λ vecs. map (λ t. t.now) vecs.items ≡ values (codes "GDN") (entries group.now)) }
    ensures right { OnOk result (miscounts_vecs (entries group.now) ≡ false) }
    ensures wrong { IfErr result (IfRule (λ r. (r ≡ 706) × (miscounts_vecs (entries group.now) ≡ true))) }
{
    let vecs = texts(alloc, group, SHEET)?;
    let counts = texts(alloc, group, SHEET_COUNT)?;
    if vecs.is_empty() || !count_right(&counts, vecs.len()) {
        return Err(LotFault::Broken(706));
    }
    Ok(vecs)
}

/// The own names of a lot's files, which may not be names yet.
pub(crate) struct LotDraft<'b> {
    pub(crate) scd: &'b [u8],
    pub(crate) dic: &'b [u8],
    pub(crate) general: Option<&'b [u8]>,
    pub(crate) geo: Option<&'b [u8]>,
    pub(crate) quality: Option<&'b [u8]>,
    pub(crate) vecs: Vec<&'b [u8]>,
}

impl Drop for LotDraft<'_> {
    fn drop(self) {
        let LotDraft {
            scd: _,
            dic: _,
            general: _,
            geo: _,
            quality: _,
            vecs: _,
        } = self;
    }
}

/// What a lot's record says of its files, or the least of the rules 704 to 707 that it breaks.
fn draft_of<'b>(alloc: Global, group: &'b [Zone<'_>]) -> Result<LotDraft<'b>, LotFault>
    ensures draft { IfOk result (IsDraftOf (entries group.now)) }
    ensures sound { OnOk result (first_broken (draft_tests (entries group.now)) ≡ None) }
    ensures least { IfErr result (IfRule (λ rule. first_broken (draft_tests (entries group.now)) ≡ Some rule)) }
{
    let scd = only_text(alloc, group, CLASSES, 704)?;
    let dic = only_text(alloc, group, DICTIONARY, 705)?;
    let vecs = counted_sheets(alloc, group)?;
    let general = text_if_any(alloc, group, GENERAL)?;
    let geo = text_if_any(alloc, group, COORDINATES)?;
    let quality = text_if_any(alloc, group, QUALITY)?;
    Ok(LotDraft {
        scd,
        dic,
        general,
        geo,
        quality,
        vecs,
    })
}

/// A text as a name, or the rule.
fn name_of(alloc: Global, text: &[u8], rule: u16) -> Result<NamePart, LotFault>
    ensures name { IfOk result (λ name. name ≡ text.now) }
    ensures safe { OnOk result (is_unsafe text.now ≡ false) }
    ensures not_safe { IfErr result (IfRule (λ r. (r ≡ rule) × (is_unsafe text.now ≡ true))) }
{
    match NamePart::new(alloc, text)? {
        Some(name) => Ok(name),
        None => Err(LotFault::Broken(rule)),
    }
}

/// A text as a name, if there is one, or rule 708.
fn name_if_any(alloc: Global, text: Option<&[u8]>) -> Result<Option<NamePart>, LotFault>
    ensures name { IfOk result (λ name. name ≡ option_map (λ t. t.now) text.entry) }
    ensures safe { OnOk result (list_any is_unsafe (option_to_list (option_map (λ t. t.now) text.entry)) ≡ false) }
    ensures not_safe { IfErr result (IfRule (λ r. (r ≡ 708)
        × (list_any is_unsafe (option_to_list (option_map (λ t. t.now) text.entry)) ≡ true))) }
{
    match text {
        Some(text) => Ok(Some(name_of(alloc, text, 708)?)),
        None => Ok(None),
    }
}

/// Texts as names, or rule 708.
fn names_of(alloc: Global, texts: &[&[u8]]) -> Result<Vec<NamePart>, LotFault>
    ensures names { IfOk result (λ names. names.items ≡ map (λ t. t.now) texts.now) }
    ensures safe { OnOk result (list_any is_unsafe (map (λ t. t.now) texts.now) ≡ false) }
    ensures not_safe { IfErr result (IfRule (λ r. (r ≡ 708)
        × (list_any is_unsafe (map (λ t. t.now) texts.now) ≡ true))) }
{
    let mut names = Vec::new(alloc);
    for text in texts {
        names.push(name_of(alloc, *text, 708)?)?;
    }
    Ok(names)
}

impl LotDraft<'_> {
    /// The lot with this name, or rule 708 where the own name of a file isn't a name.
    fn lot(&self, alloc: Global, name: NamePart) -> Result<Lot, LotFault>
        ensures lot { IfOk result (IsLotOf self.now name) }
        ensures safe { OnOk result (list_any is_unsafe (own_names self.now) ≡ false) }
        ensures not_safe { IfErr result (IfRule (λ r. (r ≡ 708) × (list_any is_unsafe (own_names self.now) ≡ true))) }
    {
        Ok(Lot {
            name,
            scd: name_of(alloc, self.scd, 708)?,
            dic: name_of(alloc, self.dic, 708)?,
            general: name_if_any(alloc, self.general)?,
            geo: name_if_any(alloc, self.geo)?,
            quality: name_if_any(alloc, self.quality)?,
            vecs: Sequence::from_vec(names_of(alloc, &self.vecs)?),
        })
    }
}

/// The lot that a record states, or the least of the rules 702 to 708 that it breaks.
pub(crate) fn lot_of(alloc: Global, group: &[Zone<'_>]) -> Result<Lot, LotFault>
    ensures states { IfOk result (StatesLot (entries group.now)) }
    ensures sound { OnOk result (first_broken (lot_tests (entries group.now)) ≡ None) }
    ensures least { IfErr result (IfRule (λ rule. first_broken (lot_tests (entries group.now)) ≡ Some rule)) }
{
    let text = only_text(alloc, group, LOT_NAME, 702)?;
    let name = name_of(alloc, text, 703)?;
    let draft = draft_of(alloc, group)?;
    draft.lot(alloc, name)
}
