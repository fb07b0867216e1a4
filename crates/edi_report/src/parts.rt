ghost use Rattle.std.specs.Prelude.{◌≡◌};
ghost use Rattle.edi_report.specs.Reports.{parts_at};
ghost use Rattle.edi_report.specs.Lines.{some_differ};

/// The parts in which a record and the one that it became differ.
#[derive(Clone, Copy, PartialEq, Eq)]
pub struct DifferingParts {
    /// Their classes, after the reversals of arcs.
    pub class: bool,
    /// Their attributes.
    pub attributes: bool,
    /// Their extra zones.
    pub extras: bool,
    /// Their points, after the reversals of arcs.
    pub points: bool,
    /// Their ends, by what became of the records that they name.
    pub ends: bool,
}

/// The parts of a record that has none that differ.
pub const NO_PARTS: DifferingParts = DifferingParts {
    class: false,
    attributes: false,
    extras: false,
    points: false,
    ends: false,
};

impl DifferingParts {
    /// Whether some part differs.
    pub fn some_differ(&self) -> bool
        ensures { result ≡ some_differ self.now }
    {
        self.class || self.attributes || self.extras || self.points || self.ends
    }
}

/// The parts of the record at a place, of which none differs where none are given.
pub fn parts_at(parts: &[DifferingParts], place: usize) -> DifferingParts
    ensures { result ≡ parts_at parts.now place }
{
    match parts.get(place) {
        Some(parts) => *parts,
        None => NO_PARTS,
    }
}
