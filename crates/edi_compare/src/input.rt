//! Which input of a run is meant.
ghost use Rattle.std.specs.Prelude.{◌≡◌};
ghost use Rattle.edi_compare.specs.Inputs.{input_number};

/// An input of a run. Faults name it by its number, counted from 1 in the order of the arguments.
#[derive(Clone, Copy)]
pub enum Input {
    /// The only input: a bundle, or one file.
    Only,
    /// The file of classes.
    Scd,
    /// The file of definitions.
    Dic,
    /// The sheet, or the first of two.
    First,
    /// The second of two sheets.
    Second,
    /// The file of a pairing.
    Pairing,
}

impl Input {
    /// Its number in a `RunFault`.
    pub fn number(self) -> u8
        ensures { result ≡ input_number self }
    {
        match self {
            Input::Only | Input::Scd => 1,
            Input::Dic => 2,
            Input::First => 3,
            Input::Second => 4,
            Input::Pairing => 5,
        }
    }
}
