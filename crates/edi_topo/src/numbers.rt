ghost use Rattle.std.specs.Prelude.{◌≡◌, ◌<◌, length, slice_index};

use edi_line::Sequence;
use std::marker::Model;

/// The numbers of members, from 1.
#[derive(Drop)]
pub struct Ranks {
    numbers: Sequence<u32>,
}

impl Model for Ranks {
    ghost use Rattle.std.specs.Prelude.{ℕ, List};

    ghost Value = { List ℕ };

    ghost view = { λ r. r.numbers };
}

impl Ranks {
    pub(crate) fn from_numbers(numbers: Sequence<u32>) -> Ranks
        ensures { result ≡ numbers }
    {
        Ranks { numbers }
    }

    /// The number of a member, from 1; members are counted from 0.
    pub fn number(&self, member: u32) -> u32
        requires { member < length self.now }
        ensures { result ≡ slice_index self.now member }
    {
        self.numbers.as_slice()[member as usize]
    }
}
