//! The zones that have begun.

ghost use Rattle.std.specs.Prelude.{◌≡◌, false, [], ◌∷◌, ◌++◌, None, Some, OnOk, IfOk, option_map, option_to_list};
ghost use Rattle.edi_line.specs.ZoneData.{entry};
ghost use Rattle.edi_line.specs.inner.Borrowed.{IsClosed, IsLengthened};
ghost use Rattle.edi_line.specs.inner.ZoneLists.{done_in, open_in, zoned_list};
ghost use Rattle.edi_line.specs.inner.Zones.{with_more};

use crate::zone::Zone;
use std::alloc::{AllocError, Global};

// How many zones are many. They stay in the processor's nearest memory.
const MANY: usize = 64;

/// The zones that have begun. Where the list is open, the next line may still lengthen the last of them; the others
/// are done.
#[derive(Drop)]
pub(crate) struct ZoneList<'a> {
    zones: Vec<Zone<'a>>,
    is_open: bool,
}

impl<'a> ZoneList<'a> {
    pub(crate) fn new(alloc: Global) -> ZoneList<'a>
        ensures done { done_in result ≡ [] }
        ensures open_zone { open_in result ≡ None }
    {
        ZoneList {
            zones: Vec::new(alloc),
            is_open: false,
        }
    }

    /// Puts a zone behind the others, and opens it.
    #[inline(always)]
    pub(crate) fn open(&mut self, zone: Zone<'a>) -> Result<(), AllocError>
        requires { open_in self.old ≡ None }
        ensures done { OnOk result (done_in self.new ≡ done_in self.old) }
        ensures open_zone { OnOk result (open_in self.new ≡ Some zone.entry) }
    {
        self.zones.push(zone)?;
        self.is_open = true;
        Ok(())
    }

    /// Lengthens the open zone, if there is one. Few lines do, so it stands apart from what is inlined for each line.
    #[inline(never)]
    pub(crate) fn lengthen(&mut self, alloc: Global, more: &[u8]) -> Result<(), AllocError>
        ensures leaves { OnOk result (IsLengthened self.old self.new) }
        ensures open_zone { OnOk result (option_map entry (open_in self.new)
            ≡ option_map (with_more more.now) (option_map entry (open_in self.old))) }
    {
        if !self.is_open {
            return Ok(());
        }
        match self.zones.last_mut() {
            Some(zone) => zone.lengthen(alloc, more),
            None => Ok(()),
        }
    }

    /// The open zone, if there is one, is done.
    pub(crate) fn close(&mut self)
        ensures { IsClosed self.old self.new }
    {
        self.is_open = false;
    }

    /// Whether so many zones have begun that those which are done should be used and dropped.
    pub(crate) fn has_many(&self) -> bool {
        self.zones.len() >= MANY
    }

    /// The zones that are done.
    pub(crate) fn done(&self) -> &[Zone<'a>]
        ensures { result.now ≡ done_in self.now }
    {
        match self.zones.as_slice() {
            [done @ .., _] if self.is_open => done,
            zones => zones,
        }
    }

    /// Lets the zones go that are done. The memory for so many stays.
    pub(crate) fn let_go(&mut self)
        ensures done { done_in self.new ≡ [] }
        ensures open_zone { open_in self.new ≡ open_in self.old }
    {
        if !self.is_open {
            self.zones.clear();
            return;
        }
        if let Some(zone) = self.zones.pop() {
            self.zones.clear();
            self.zones.push_reserved(zone);
        }
    }

    /// The same zones, each of which owns its value.
    pub(crate) fn into_owned(self, alloc: Global) -> Result<ZoneList<'static>, AllocError>
        ensures { IfOk result (λ owned. zoned_list owned ≡ zoned_list self.entry) }
    {
        let mut owned = Vec::with_capacity(alloc, self.zones.len())?;
        for zone in self.zones {
            owned.push(zone.into_owned(alloc)?)?;
        }
        Ok(ZoneList {
            zones: owned,
            is_open: self.is_open,
        })
    }

    /// All zones, the open one too.
    pub(crate) fn into_zones(self) -> Vec<Zone<'a>>
        ensures { result.items ≡ done_in self.entry ++ option_to_list (open_in self.entry) }
    {
        self.zones
    }
}
