//! Where folders are listed.
ghost use Rattle.std.specs.Prelude.{ℕ, IfOk, List, MatchOption, map, string_bytes};

use std::alloc::{AllocError, Global};

/// Where the names of what lies in folders are found.
pub trait Listing {
    /// These may be the names of what lies in the folder of a path, in the order in which they are given.
    ghost lists: { Self → List ℕ → List (List ℕ) → Type 0 };

    /// The path leads to no folder that can be listed.
    ghost unlisted: { Self → List ℕ → Type 0 };

    /// The names of what lies in the folder of a path, if it can be listed: in the order of their bytes, without `.`
    /// and `..`, without those that are not UTF-8, and without those of links, which may lead out of the folder.
    fn names(&self, alloc: Global, path: &str) -> Result<Option<Vec<String>>, AllocError>
        ensures { IfOk result (λ names.
            MatchOption names (unlisted self.now path.now)
            (λ names. lists self.now path.now (map string_bytes names.items))) };
}
