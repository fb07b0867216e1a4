//! How records are told apart in a picture.

ghost use Rattle.std.specs.Prelude.{◌≡◌};
ghost use Rattle.edi_picture.specs.Marks.{colour, filling, is_drawn_in as inks, mark_words, node_radius, same_mark, stroke_width};

/// What a picture says of a record.
#[derive(Clone, Copy, PartialEq, Eq)]
pub enum Mark {
    /// Nothing: the record of a sheet that stands alone, or one that both sheets have.
    Plain,
    /// The first sheet alone has it.
    OnlyFirst,
    /// The second sheet alone has it.
    OnlySecond,
    /// Both sheets have it, it differs, and this is how the first has it.
    Before,
    /// Both sheets have it, it differs, and this is how the second has it.
    After,
    /// It is not drawn.
    Hidden,
}

/// In what a record is drawn: the colour, and the kind of line or dot.
#[derive(Clone, Copy)]
pub(crate) enum Ink {
    /// Thin and grey: what is the same in both sheets, or stands alone.
    Grey,
    /// Vermilion, dashed, and nodes as rings: what only the first sheet has, or had so.
    Old,
    /// Blue: what only the second sheet has, or has so.
    New,
}

impl Ink {
    /// The colour, as SVG spells it.
    pub(crate) fn colour(self) -> &'static [u8]
        ensures { result.now ≡ colour self }
    {
        match self {
            Ink::Grey => b"#777777",
            Ink::Old => b"#D55E00",
            Ink::New => b"#0072B2",
        }
    }

    /// How nodes are filled.
    pub(crate) fn filling(self) -> &'static [u8]
        ensures { result.now ≡ filling self }
    {
        match self {
            Ink::Grey => b"#777777",
            Ink::Old => b"white",
            Ink::New => b"#0072B2",
        }
    }

    /// How many pixels lines are wide.
    pub(crate) fn stroke_width(self) -> u64
        ensures { result ≡ stroke_width self }
    {
        match self {
            Ink::Grey => 1,
            Ink::Old | Ink::New => 2,
        }
    }

    /// How many pixels it is from the middle of a node to its rim.
    pub(crate) fn node_radius(self) -> u64
        ensures { result ≡ node_radius self }
    {
        match self {
            Ink::Grey => 2,
            Ink::Old => 5,
            Ink::New => 3,
        }
    }
}

impl Mark {
    /// Whether records of this mark are drawn in an ink.
    pub(crate) fn is_drawn_in(self, ink: Ink) -> bool
        ensures { result ≡ inks ink self }
    {
        match (ink, self) {
            (Ink::Grey, Mark::Plain) => true,
            (Ink::Old, Mark::OnlyFirst | Mark::Before) => true,
            (Ink::New, Mark::OnlySecond | Mark::After) => true,
            _ => false,
        }
    }

    /// Whether it is this one.
    pub(crate) fn is(self, mark: Mark) -> bool
        ensures { result ≡ same_mark mark self }
    {
        mark == self
    }

    /// What it says, behind a title.
    pub(crate) fn words(self) -> &'static [u8]
        ensures { result.now ≡ mark_words self }
    {
        match self {
            Mark::Plain | Mark::Hidden => b"",
            Mark::OnlyFirst => b", only in A",
            Mark::OnlySecond => b", only in B",
            Mark::Before => b", as it was in A",
            Mark::After => b", as it is in B",
        }
    }
}
