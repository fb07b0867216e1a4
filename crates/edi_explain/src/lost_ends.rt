//! The end with which a link breaks rule 305: it names no node, arc, face or object.

ghost use Rattle.std.specs.Prelude.{◌≡◌, ◌↔◌, ◌++◌, ◌∷◌, [], List, Contains, IfOk, IsTrue, MatchOption, OnOk, Some, codes, true};
ghost use Rattle.edi_hash.specs.Keys.{Holds};
ghost use Rattle.edi_line.specs.Groups.{IsOneRecord};
ghost use Rattle.edi_line.specs.ZoneData.{ZoneData, entries, entry, has_code};
ghost use Rattle.edi_line.specs.Zones.{groups_of};
ghost use Rattle.edi_record.specs.Texts.{PointerText};
ghost use Rattle.edi_explain.specs.AstrayZones.{IsFirstLostEnd, IsNamedBy, NamesNoElement};
ghost use Rattle.edi_explain.specs.inner.LostEnds.{AreNamesOfGroups, identifiers, pointed_name};

use crate::breaking::is_same;
use edi_hash::{KeyNames, NameHash};
use edi_line::codes::RID;
use edi_line::{Text, Zone};
use edi_record::{Name, Pointer, first_value, group_here};
use indexmap::IndexSet;
use std::alloc::{AllocError, Global};

const FTP: [u8; 3] = *b"FTP";

/// What takes records whose zones are in memory, one after the other.
trait WholeGroupOut {
    /// Whether it is as these records, all that it has taken, make it.
    ghost Holds: { Self → List (List ZoneData) → Type 0 };

    /// Takes the zones of the next record, of which the first is its RTY.
    fn take(&mut self, alloc: Global, group: &[Zone<'_>]) -> Result<(), AllocError>
        requires { IsOneRecord (entries group.now) }
        ensures { OnOk result ((groups : List (List ZoneData)) → Holds self.old groups
            → Holds self.new (groups ++ entries group.now ∷ [])) };
}

/// What makes a key of the identifiers of records. Their types are left out: one identifier makes five names at most,
/// too few to choose among.
#[derive(Drop)]
struct NamesKey {
    identifiers: KeyNames,
}

impl WholeGroupOut for NamesKey {
    ghost Holds = { λ key groups. Holds key.identifiers (identifiers groups) };

    fn take(&mut self, alloc: Global, group: &[Zone<'_>]) -> Result<(), AllocError> {
        let _ = alloc;
        if let Some(rid) = first_value(group, RID) {
            self.identifiers.add(rid);
        }
        Ok(())
    }
}

/// A name with texts of its own.
fn owned_name(alloc: Global, rty: &[u8], rid: &[u8]) -> Result<Name, AllocError>
    ensures { IfOk result (λ name. name ≡ record { rty = rty.now; rid = rid.now }) }
{
    Ok(Name {
        rty: Text::from_slice(alloc, rty)?,
        rid: Text::from_slice(alloc, rid)?,
    })
}

/// The name by which pointers name a record, if it has an identifier.
fn name_of(alloc: Global, group: &[Zone<'_>]) -> Result<Option<Name>, AllocError>
    ensures { IfOk result (λ name. (p : PointerText)
        → IsNamedBy p (entries group.now) ↔ (name ≡ Some (pointed_name p))) }
{
    let [head, ..] = group else {
        return Ok(None);
    };
    let Some(rid) = first_value(group, RID) else {
        return Ok(None);
    };
    Ok(Some(owned_name(alloc, head.value.as_slice(), rid)?))
}

/// The names of the records that came.
#[derive(Drop)]
struct GatheredNames {
    names: IndexSet<Name, NameHash>,
}

impl WholeGroupOut for GatheredNames {
    ghost Holds = { λ out groups. AreNamesOfGroups groups out.names.keys };

    fn take(&mut self, alloc: Global, group: &[Zone<'_>]) -> Result<(), AllocError> {
        if let Some(name) = name_of(alloc, group)? {
            self.names.insert(name)?;
        }
        Ok(())
    }
}

/// Hands the zones of each record on, in the order of the records.
fn hand_on<O: WholeGroupOut>(
    alloc: Global,
    zones: &[Zone<'_>],
    out: &mut O,
) -> Result<(), AllocError>
    ensures { OnOk result ((groups : List (List ZoneData)) → O.Holds out.old groups
        → O.Holds out.new (groups ++ groups_of (entries zones.now))) }
{
    let mut rest = zones;
    while let [_, behind @ ..] = rest {
        if let Some(group) = group_here(rest) {
            out.take(alloc, group)?;
        }
        rest = behind;
    }
    Ok(())
}

/// The key of a hash for the names of the records of these zones.
fn key_of_names(alloc: Global, zones: &[Zone<'_>]) -> Result<KeyNames, AllocError>
    ensures { IfOk result (λ key. Holds key (identifiers (groups_of (entries zones.now)))) }
{
    let mut key = NamesKey {
        identifiers: KeyNames::new(),
    };
    hand_on(alloc, zones, &mut key)?;
    Ok(key.identifiers)
}

/// The names of the records of these zones.
pub(crate) fn names_of_records(
    alloc: Global,
    zones: &[Zone<'_>],
) -> Result<IndexSet<Name, NameHash>, AllocError>
    ensures { IfOk result (λ names. AreNamesOfGroups (groups_of (entries zones.now)) names.keys) }
{
    let hash = key_of_names(alloc, zones)?.hash();
    let mut out = GatheredNames {
        names: IndexSet::with_hasher(alloc, hash),
    };
    hand_on(alloc, zones, &mut out)?;
    Ok(out.names)
}

/// Whether a name is among these.
fn is_among(
    alloc: Global,
    names: &IndexSet<Name, NameHash>,
    rty: &[u8],
    rid: &[u8],
) -> Result<bool, AllocError>
    ensures { IfOk result (λ t. IsTrue t ↔ Contains names.now.keys (record { rty = rty.now; rid = rid.now })) }
{
    let name = owned_name(alloc, rty, rid)?;
    Ok(names.contains(&name))
}

/// Whether a pointer names no node, arc, face or object of the records with these names.
fn names_no_element(
    alloc: Global,
    names: &IndexSet<Name, NameHash>,
    text: &[u8],
) -> Result<bool, AllocError>
    ensures { IfOk result (λ t. (groups : List (List ZoneData)) → AreNamesOfGroups groups names.now.keys
        → IsTrue t ↔ NamesNoElement groups text.now) }
{
    let Some(pointer) = Pointer::read(text) else {
        return Ok(false);
    };
    if is_same(pointer.rty, b"LNK") {
        return Ok(true);
    }
    let there = is_among(alloc, names, pointer.rty, pointer.rid)?;
    Ok(!there)
}

/// Whether a zone is an end that names no node, arc, face or object of the records with these names.
fn is_lost_end(
    alloc: Global,
    names: &IndexSet<Name, NameHash>,
    zone: &Zone<'_>,
) -> Result<bool, AllocError>
    ensures { IfOk result (λ t. (groups : List (List ZoneData)) → AreNamesOfGroups groups names.now.keys
        → IsTrue t ↔ ((has_code (codes "FTP") (entry zone.now) ≡ true)
        × NamesNoElement groups (entry zone.now).value)) }
{
    if zone.code == FTP {
        names_no_element(alloc, names, zone.value.as_slice())
    } else {
        Ok(false)
    }
}

/// The first end of a record that names no node, arc, face or object of the records with these names.
pub(crate) fn first_lost_end<'a, 'b>(
    alloc: Global,
    names: &IndexSet<Name, NameHash>,
    group: &'b [Zone<'a>],
) -> Result<Option<&'b Zone<'a>>, AllocError>
    ensures { IfOk result (λ found. (groups : List (List ZoneData)) → AreNamesOfGroups groups names.now.keys
        → MatchOption found ((z : ZoneData) → ¬ (IsFirstLostEnd groups (entries group.now) z))
        (λ z. IsFirstLostEnd groups (entries group.now) (entry z.now))) }
{
    for place in 0..group.len() {
        if is_lost_end(alloc, names, &group[place])? {
            return Ok(Some(&group[place]));
        }
    }
    Ok(None)
}
