//! Records of a file, looked for among their zones.

ghost use Rattle.std.specs.Prelude.{◌≡◌, ◌↔◌, IsTrue, MatchOption, Some};
ghost use Rattle.edi_line.specs.ZoneData.{entries};
ghost use Rattle.edi_line.specs.Zones.{groups_of};
ghost use Rattle.edi_record.specs.Records.{values, first};
ghost use Rattle.edi_record.specs.declared.name.Name.{Name};
ghost use Rattle.edi_schema.specs.SchemaOf.{IsNamed};
ghost use Rattle.edi_plan.specs.EarlierLinks.{IsLeastIfAny};
ghost use Rattle.edi_explain.specs.RowPartners.{SharesRowName};
ghost use Rattle.edi_explain.specs.inner.RowPartners.{IsEarlierRow, IsLinked, PassesRow, row_name};

use crate::site::group_of;
use edi_line::Zone;
use edi_line::codes::{RID, RTY};
use edi_record::{first_value, group_here};

const FTP: [u8; 3] = *b"FTP";

/// The first RTY and the first RID of a record.
struct RowName<'a> {
    rty: &'a [u8],
    rid: &'a [u8],
}

impl Drop for RowName<'_> {
    fn drop(self) {
        let RowName { rty: _, rid: _ } = self;
    }
}

/// What an earlier record is looked for by: a name, or that it is a link with an end.
#[derive(Drop)]
enum RowTest<'a> {
    Named(RowName<'a>),
    Linked,
}

/// The name of a record, if it has both parts of one.
fn name_of<'b>(group: &'b [Zone<'_>]) -> Option<RowName<'b>>
    ensures { MatchOption result ((name : Name) → ¬ (IsNamed (entries group.now) name))
        (λ found. IsNamed (entries group.now) (row_name found)) }
{
    Some(RowName {
        rty: first_value(group, RTY)?,
        rid: first_value(group, RID)?,
    })
}

/// Whether the first value of a code is there and is this text.
fn states(group: &[Zone<'_>], code: [u8; 3], text: &[u8]) -> bool
    ensures { IsTrue result ↔ (first (values code (entries group.now)) ≡ Some text.now) }
{
    match first_value(group, code) {
        Some(value) => value == text,
        None => false,
    }
}

/// Whether a record has this name.
fn is_named(group: &[Zone<'_>], name: &RowName<'_>) -> bool
    ensures { IsTrue result ↔ IsNamed (entries group.now) (row_name name.now) }
{
    states(group, RTY, name.rty) && states(group, RID, name.rid)
}

/// Whether a record is a link with an end.
fn is_linked(group: &[Zone<'_>]) -> bool
    ensures { IsTrue result ↔ IsLinked (entries group.now) }
{
    let Some(_) = first_value(group, FTP) else {
        return false;
    };
    states(group, RTY, b"LNK")
}

/// Whether a record is as is looked for.
fn passes(group: &[Zone<'_>], test: &RowTest<'_>) -> bool
    ensures { IsTrue result ↔ PassesRow test.now (entries group.now) }
{
    match test {
        RowTest::Named(name) => is_named(group, name),
        RowTest::Linked => is_linked(group),
    }
}

/// The first record that is as is looked for, if it comes before the one at a place.
fn first_row(zones: &[Zone<'_>], place: u64, test: &RowTest<'_>) -> Option<u64>
    ensures { IsLeastIfAny (IsEarlierRow (PassesRow test.now) (groups_of (entries zones.now)) place) result }
{
    let _ = group_of(zones, place)?;
    let mut at = 0;
    let mut rest = zones;
    while let [_, behind @ ..] = rest {
        if let Some(earlier) = group_here(rest) {
            if at == place {
                return None;
            }
            if passes(earlier, test) {
                return Some(at);
            }
            at += 1;
        }
        rest = behind;
    }
    None
}

/// The first record with the type and the identifier of the one at a place, if it comes before that
/// one: rules 301 and 602. Places are counted from 0, in file order.
pub fn row_namesake(zones: &[Zone<'_>], place: u64) -> Option<u64>
    ensures { IsLeastIfAny (SharesRowName (groups_of (entries zones.now)) place) result }
{
    let name = name_of(group_of(zones, place)?)?;
    first_row(zones, place, &RowTest::Named(name))
}

/// The first link with an end, if it comes before the record at a place: rule 304.
pub(crate) fn first_link(zones: &[Zone<'_>], place: u64) -> Option<u64>
    ensures { IsLeastIfAny (IsEarlierRow IsLinked (groups_of (entries zones.now)) place) result }
{
    first_row(zones, place, &RowTest::Linked)
}
