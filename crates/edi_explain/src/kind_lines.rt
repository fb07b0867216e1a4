//! What is said of the classes of the four kinds of links.

ghost use Rattle.std.specs.Prelude.{◌≡◌, ◌↔◌, ◌++◌, [], ℕ, List, Option, IfErr, IfOk, IsTrue, OnOk};
ghost use Rattle.edi_line.specs.ZoneData.{ZoneData, entries};
ghost use Rattle.edi_line.specs.LineRules.{BreaksLineRule, IsZonesOf};
ghost use Rattle.edi_line.specs.Refusal.{IsLineRefusal, IsUnbroken};
ghost use Rattle.edi_line.specs.Zones.{groups_of};
ghost use Rattle.edi_schema.specs.SchemaRules.{BreaksKinds};
ghost use Rattle.edi_explain.specs.KindClasses.{IsClassOf, codes_of};
ghost use Rattle.edi_explain.specs.KindLines.{AreLacking, DescribesKinds, ExplainsKinds, IsClassSite, NameLacking, lacking_words, with_lacking, class_line, class_place, kind_words as words_of_kind, wrong_words};
ghost use Rattle.edi_explain.specs.Sites.{IsSiteIfAny};
ghost use Rattle.edi_explain.specs.declared.site.RecordSite.{RecordSite as Sites};

use crate::explained::NamedFile;
use crate::kind_causes::{KindsCase, KindsCause, kinds_cause};
use crate::kind_classes::class_behind;
use crate::lines::{lines_of_refused, push_site_name};
use crate::refused::sites_of;
use crate::site::{RecordSite, site_at, zones_of};
use edi_line::{LineFault, Zone, zones};
use edi_schema::{ByRole, Role};
use std::alloc::{AllocError, Global};

/// The words for a kind.
fn kind_words(role: Role) -> &'static [u8]
    ensures { result.now ≡ words_of_kind role }
{
    match role {
        Role::Initial => b"initial node",
        Role::Final => b"final node",
        Role::Left => b"left face",
        Role::Right => b"right face",
        Role::Plain => b"none of the four kinds",
    }
}

/// What is said of a class by which a kind breaks rule 604.
fn words_of_cause(alloc: Global, case: KindsCase, role: Role) -> Result<Vec<u8>, AllocError>
    ensures { IfOk result (λ words. words.items ≡ wrong_words case role) }
{
    let mut words = Vec::new(alloc);
    match case {
        KindsCase::Two => {
            words.extend_from_slice(b"a second class for ")?;
            words.extend_from_slice(kind_words(role))?;
        }
        KindsCase::Alone => {
            words.extend_from_slice(b"a class for ")?;
            words.extend_from_slice(kind_words(role))?;
            words.extend_from_slice(b", and there is none for ")?;
            words.extend_from_slice(kind_words(role.opposite()))?;
        }
        KindsCase::Barred => {
            words.extend_from_slice(b"a class for ")?;
            words.extend_from_slice(kind_words(role))?;
            words.extend_from_slice(b" that no pointer can name, since its type holds ;")?;
        }
    }
    Ok(words)
}

/// The lines that explain the refusal of a file of classes by rule 604: where the class is that breaks it first and
/// what is wrong with it, and where the earlier class of its kind is.
pub(crate) fn explain_kinds(
    alloc: Global,
    scd: &NamedFile<'_>,
    codes: &ByRole<&[u8]>,
) -> Result<Vec<u8>, AllocError>
    requires lines { IsUnbroken (BreaksLineRule scd.now.bytes.now) }
    requires broken { (zones : List ZoneData) → IsZonesOf scd.now.bytes.now zones
        → BreaksKinds (groups_of zones) [] (codes_of codes.now) }
    ensures { IfOk result (λ lines. ExplainsKinds (codes_of codes.now) scd.now.bytes.now scd.now.name.now lines.items) }
{
    let zones = zones_of(alloc, scd.bytes)?;
    let Some(cause) = kinds_cause(codes, &zones) else {
        unreachable!()
    };
    let words = words_of_cause(alloc, cause.case, cause.role)?;
    let sites = sites_of(alloc, &zones, cause.number, cause.earlier)?;
    lines_of_refused(alloc, scd.name, &sites, &words, 604)
}

/// Where the first class of a kind stands, if the kind has one.
fn class_site(
    alloc: Global,
    codes: &ByRole<&[u8]>,
    zones: &[Zone<'_>],
    role: Role,
) -> Result<Option<RecordSite>, AllocError>
    ensures { IfOk result (IsClassSite (entries zones.now) (codes_of codes.now) role) }
{
    match class_behind(codes, zones, role, 0) {
        Some(number) => site_at(alloc, zones, number.checked_sub(1)),
        None => Ok(None),
    }
}

/// Appends where a class stands, its type and its identifier, or that there is none.
fn push_class(text: &mut Vec<u8>, name: &[u8], site: &Option<RecordSite>) -> Result<(), AllocError>
    ensures { OnOk result (text.new.items ≡ text.old.items ++ class_place name.now site.now) }
{
    match site {
        Some(site) => push_site_name(text, name, site),
        None => text.extend_from_slice(b"no class"),
    }
}

/// Appends the line on the class of a kind.
fn push_class_line(
    text: &mut Vec<u8>,
    name: &[u8],
    role: Role,
    site: &Option<RecordSite>,
) -> Result<(), AllocError>
    ensures { OnOk result (text.new.items ≡ text.old.items ++ class_line name.now role site.now) }
{
    text.extend_from_slice(kind_words(role))?;
    text.extend_from_slice(b": ")?;
    push_class(text, name, site)?;
    text.extend_from_slice(b"\n")
}

/// Appends the line on the class of a kind in the file of these zones.
fn push_kind(
    text: &mut Vec<u8>,
    alloc: Global,
    codes: &ByRole<&[u8]>,
    zones: &[Zone<'_>],
    name: &[u8],
    role: Role,
) -> Result<(), AllocError>
    ensures { OnOk result ((site : Option Sites) × IsClassSite (entries zones.now) (codes_of codes.now) role site
        × (text.new.items ≡ text.old.items ++ class_line name.now role site)) }
{
    let site = class_site(alloc, codes, zones, role)?;
    push_class_line(text, name, role, &site)
}

/// The lines on the four kinds: the class of each in the file of classes, which breaks no rule of lines, or that it has
/// none.
pub fn describe_kinds(
    alloc: Global,
    scd: &NamedFile<'_>,
    codes: &ByRole<&[u8]>,
) -> Result<Vec<u8>, AllocError>
    requires { IsUnbroken (BreaksLineRule scd.now.bytes.now) }
    ensures { IfOk result (λ lines.
        DescribesKinds (codes_of codes.now) scd.now.bytes.now scd.now.name.now lines.items) }
{
    let zones = zones_of(alloc, scd.bytes)?;
    let mut text = Vec::new(alloc);
    push_kind(&mut text, alloc, codes, &zones, scd.name, Role::Initial)?;
    push_kind(&mut text, alloc, codes, &zones, scd.name, Role::Final)?;
    push_kind(&mut text, alloc, codes, &zones, scd.name, Role::Left)?;
    push_kind(&mut text, alloc, codes, &zones, scd.name, Role::Right)?;
    Ok(text)
}

/// Whether a kind has no class.
fn has_none(codes: &ByRole<&[u8]>, zones: &[Zone<'_>], role: Role) -> bool
    ensures { IsTrue result ↔ ((n : ℕ) → ¬ (IsClassOf (groups_of (entries zones.now)) (codes_of codes.now) role n)) }
{
    class_behind(codes, zones, role, 0).is_none()
}

/// Which of the four kinds have no class.
fn lacking_in(codes: &ByRole<&[u8]>, zones: &[Zone<'_>]) -> ByRole<bool>
    ensures { AreLacking (groups_of (entries zones.now)) (codes_of codes.now) result }
{
    ByRole {
        initial: has_none(codes, zones, Role::Initial),
        final_node: has_none(codes, zones, Role::Final),
        left: has_none(codes, zones, Role::Left),
        right: has_none(codes, zones, Role::Right),
    }
}

/// Appends the words for a kind, behind a comma where there are words, if the kind has no class.
fn push_lacking(words: &mut Vec<u8>, lacks: bool, role: Role) -> Result<(), AllocError>
    ensures { OnOk result (words.new.items ≡ with_lacking words.old.items lacks role) }
{
    if !lacks {
        return Ok(());
    }
    if !words.is_empty() {
        words.extend_from_slice(b", ")?;
    }
    words.extend_from_slice(kind_words(role))
}

/// The words for these kinds, with commas between them.
fn words_of_lacking(alloc: Global, lacking: &ByRole<bool>) -> Result<Vec<u8>, AllocError>
    ensures { IfOk result (λ words. words.items ≡ lacking_words lacking.now) }
{
    let mut words = Vec::new(alloc);
    push_lacking(&mut words, lacking.initial, Role::Initial)?;
    push_lacking(&mut words, lacking.final_node, Role::Final)?;
    push_lacking(&mut words, lacking.left, Role::Left)?;
    push_lacking(&mut words, lacking.right, Role::Right)?;
    Ok(words)
}

/// The words for the kinds that have no class in the file of classes; none where each has one. Where the file breaks a
/// rule of lines (101 to 110), the fault names the least line with a broken rule.
pub fn lacking_kinds(alloc: Global, scd: &[u8], codes: &ByRole<&[u8]>) -> Result<Vec<u8>, LineFault>
    ensures named { IfOk result (λ words. NameLacking (codes_of codes.now) scd.now words.items) }
    ensures unbroken { OnOk result (IsUnbroken (BreaksLineRule scd.now)) }
    ensures refused { IfErr result (IsLineRefusal (BreaksLineRule scd.now)) }
{
    let zones = zones(alloc, scd)?;
    let lacking = lacking_in(codes, &zones);
    match words_of_lacking(alloc, &lacking) {
        Ok(words) => Ok(words),
        Err(error) => Err(LineFault::Memory(error)),
    }
}
