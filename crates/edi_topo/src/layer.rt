ghost use Rattle.std.specs.Prelude.{◌≡◌, ◌<◌, ℕ, IfOk};

use std::alloc::{AllocError, Global};

/// Members with a key each.
pub trait Layer {
    type Key: Ord + Drop;

    /// How many members there are.
    ghost size: { Self → ℕ };

    /// The key of each member.
    ghost key_of: { Self → ℕ → Self.Key };

    fn len(&self) -> u32
        ensures { result ≡ size self.now };

    fn key(&self, alloc: Global, member: u32) -> Result<Self::Key, AllocError>
        requires { member < size self.now }
        ensures { IfOk result (λ k. k ≡ key_of self.now member) };
}
