//! The type of each record, and the places of the records of each type.

ghost use Rattle.std.specs.Prelude.{◌≡◌, ◌<◌, ◌≤◌, ◌∷◌, ◌++◌, [], length, slice_index_or, if◌then◌else◌, IfOk, OnOk};
ghost use Rattle.edi_line.specs.Bytes.{most_records};
ghost use Rattle.edi_record.specs.declared.record.Kind.{Kind as Kinds};
ghost use Rattle.edi_plan.specs.inner.Places.{places_listed, ArePlacesOf};
ghost use Rattle.edi_plan.specs.Plans.{same_kind};
ghost use Rattle.edi_plan.specs.inner.RecordLists.{plan_records_of};

use crate::planned::RecordList;
use edi_record::Kind;
use std::alloc::{AllocError, Global};

/// The type of each record, by place, and the places of the records of each type, in file order. The types lie apart
/// from the records, where they take one byte each, since they are often asked for out of order.
pub(crate) struct Places {
    kinds: Vec<Kind>,
    nodes: Vec<u32>,
    arcs: Vec<u32>,
    faces: Vec<u32>,
    objects: Vec<u32>,
    links: Vec<u32>,
}

impl Drop for Places {
    fn drop(self) {
        let Places {
            kinds: _,
            nodes: _,
            arcs: _,
            faces: _,
            objects: _,
            links: _,
        } = self;
    }
}

impl Places {
    fn none(alloc: Global) -> Places
        ensures places { (kind : Kinds) → places_listed result kind ≡ [] }
        ensures kinds { result.kinds.items ≡ [] }
    {
        Places {
            kinds: Vec::new(alloc),
            nodes: Vec::new(alloc),
            arcs: Vec::new(alloc),
            faces: Vec::new(alloc),
            objects: Vec::new(alloc),
            links: Vec::new(alloc),
        }
    }

    /// Adds the place of a record of a type.
    fn add(&mut self, kind: Kind, place: u32) -> Result<(), AllocError>
        ensures places { OnOk result ((other : Kinds) → places_listed self.new other
            ≡ (if same_kind other kind then places_listed self.old other ++ place ∷ [] else places_listed self.old other)) }
        ensures kinds { OnOk result (self.new.kinds.items ≡ self.old.kinds.items ++ kind ∷ []) }
    {
        self.kinds.push(kind)?;
        match kind {
            Kind::Pno => self.nodes.push(place)?,
            Kind::Par => self.arcs.push(place)?,
            Kind::Pfe => self.faces.push(place)?,
            Kind::Fea => self.objects.push(place)?,
            Kind::Lnk => self.links.push(place)?,
        }
        Ok(())
    }

    /// The types of these records, and their places, from 0.
    pub(crate) fn among(alloc: Global, list: &RecordList) -> Result<Places, AllocError>
        requires { length list.now ≤ most_records }
        ensures { IfOk result (ArePlacesOf (plan_records_of list.now)) }
    {
        let mut places = Places::none(alloc);
        for place in 0..list.len() {
            places.add(list.record(place).head.kind, place as u32)?;
        }
        Ok(places)
    }

    /// The type of the record at a place.
    pub(crate) fn kind(&self, place: u32) -> Kind
        requires { place < length self.now.kinds.items }
        ensures { (default : Kinds) → result ≡ slice_index_or self.now.kinds.items place default }
    {
        self.kinds[place as usize]
    }

    /// The places of the records of a type.
    pub(crate) fn of(&self, kind: Kind) -> &[u32]
        ensures { result.now ≡ places_listed self.now kind }
    {
        match kind {
            Kind::Pno => &self.nodes,
            Kind::Par => &self.arcs,
            Kind::Pfe => &self.faces,
            Kind::Fea => &self.objects,
            Kind::Lnk => &self.links,
        }
    }
}
