//! The zones of a record whose codes aren't known.

ghost use Rattle.std.specs.Prelude.{◌≡◌, ◌==◌, ◌&&◌, nat_lt, length, Bool, false, List, [], Some, IfOk, IfErr, OnOk};
ghost use Rattle.edi_line.specs.ZoneData.{ZoneData, entry};
ghost use Rattle.edi_record.specs.Records.{may_be_number as number_format};
ghost use Rattle.edi_record.specs.inner.Records.{value_of as value_in, extra as extra_in, extras};
ghost use Rattle.edi_record.specs.inner.RecordRules.{kind_in, has_unknown_pointer};
ghost use Rattle.edi_record.specs.inner.RecordRefusal.{IsBreachOf};
ghost use Rattle.edi_record.specs.inner.Stored.{StoresExtras, TakesExtra, kept_extras};
ghost use Rattle.edi_record.specs.declared.record.Extra.{Extra as ExtraZone};
ghost use Rattle.edi_record.specs.declared.record.Kind.{Kind};

use crate::fault::GroupFault;
use crate::record::{Extra, Value};
use edi_line::{Num, Text, Zone};
use std::alloc::{AllocError, Global};

/// Whether values of a format may be numbers.
fn may_be_number(format: u8) -> bool
    ensures { result ≡ number_format format }
{
    format == b'N' || format == b'R'
}

/// A number where the text may be one and is one, and bytes elsewhere.
fn value_of(alloc: Global, may: bool, text: &[u8]) -> Result<Value, AllocError>
    ensures { IfOk result (λ v. v ≡ value_in may text.now) }
{
    if may && let Some(number) = Num::read(text) {
        return Ok(Value::Number(number));
    }
    Ok(Value::Bytes(Text::from_slice(alloc, text)?))
}

fn extra(alloc: Global, zone: &Zone<'_>) -> Result<Extra, AllocError>
    ensures { IfOk result (λ e. e ≡ extra_in (entry zone.now)) }
{
    Ok(Extra {
        code: zone.code,
        nature: zone.nature,
        format: zone.format,
        value: value_of(alloc, may_be_number(zone.format), zone.value.as_slice())?,
    })
}

/// Whether a zone is a pointer that isn't empty.
pub(crate) fn is_pointer(zone: &Zone<'_>) -> bool
    ensures { result ≡ ((zone.now.format == 80) && nat_lt 0 (length (entry zone.now).value)) }
{
    zone.format == b'P' && !zone.value.as_slice().is_empty()
}

/// Whether an extra that has come is a pointer that isn't empty. The extras are in a list beside.
#[derive(Clone, Copy)]
pub(crate) struct Extras {
    is_broken: bool,
}

impl Extras {
    /// No extras have come.
    pub(crate) fn new() -> Extras
        ensures { (kind : Kind) (group : List ZoneData) → StoresExtras kind false (kept_extras result []) group group }
    {
        Extras { is_broken: false }
    }

    /// Takes a zone that is an extra.
    pub(crate) fn take(
        &mut self,
        alloc: Global,
        list: &mut Vec<Extra>,
        zone: &Zone<'_>,
    ) -> Result<(), AllocError>
        ensures { OnOk result (TakesExtra (entry zone.now) (kept_extras self.old list.old.items)
            (kept_extras self.new list.new.items)) }
    {
        if is_pointer(zone) {
            self.is_broken = true;
            return Ok(());
        }
        list.push(extra(alloc, zone)?)?;
        Ok(())
    }

    /// All extras have come, in the order of their zones; or rule 208 is broken, where one of them is a pointer that
    /// isn't empty.
    pub(crate) fn finish(self) -> Result<(), GroupFault>
        ensures states { OnOk result ((kind : Kind) (is_open : Bool) (list : List ExtraZone) (group : List ZoneData)
            → StoresExtras kind is_open (kept_extras self list) [] group → extras kind group ≡ list) }
        ensures sound { OnOk result ((kind : Kind) (is_open : Bool) (list : List ExtraZone) (group : List ZoneData)
            → kind_in group ≡ Some kind → StoresExtras kind is_open (kept_extras self list) [] group
            → has_unknown_pointer group ≡ false) }
        ensures breach { IfErr result (λ fault. (kind : Kind) (is_open : Bool) (list : List ExtraZone)
            (group : List ZoneData) → kind_in group ≡ Some kind → StoresExtras kind is_open (kept_extras self list) [] group
            → IsBreachOf 208 (has_unknown_pointer group) fault) }
    {
        if self.is_broken {
            return Err(GroupFault::Broken(208));
        }
        Ok(())
    }
}
