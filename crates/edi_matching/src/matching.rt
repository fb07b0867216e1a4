ghost use Rattle.std.specs.Prelude.{◌≡◌};

use edi_line::Sequence;

/// Which record of a second sheet each record of a first goes to, if any, and whether it is an arc to reverse.
pub struct Matching {
    /// The place in the second sheet of each record of the first, where it has one; places are counted from 0, in file
    /// order.
    pub to: Sequence<Option<u32>>,
    /// Of each record of the first, whether it is an arc to reverse.
    pub turned: Sequence<bool>,
}

impl Drop for Matching {
    fn drop(self) {
        let Matching { to: _, turned: _ } = self;
    }
}

impl Matching {
    /// Which arcs are reversed, where the records go elsewhere.
    pub(crate) fn into_turned(self) -> Sequence<bool>
        ensures { result ≡ self.turned }
    {
        let Matching { to: _, turned } = self;
        turned
    }
}
