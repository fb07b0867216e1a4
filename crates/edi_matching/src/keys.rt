//! Members of a layer, looked up by their keys.

ghost use Rattle.std.specs.Prelude.{IsSorted};
ghost use Rattle.std.specs.Ordering.{nat_cmp, ordering_then};
ghost use Rattle.edi_matching.specs.inner.Partners.{IsMemberIfAny};

use std::cmp::Ordering;

/// A member with this key, if there is one.
pub(crate) fn member_with<K: Ord>(pairs: &[(K, u32)], key: &K) -> Option<u32>
    requires { IsSorted (λ x y. ordering_then (K.cmp x.0 y.0) (nat_cmp x.1 y.1)) pairs.now }
    ensures { IsMemberIfAny K.cmp pairs.now key.now result }
{
    match pairs.binary_search_by(|pair| pair.0.cmp(key)) {
        Ok(at) => Some(pairs[at].1),
        Err(_) => None,
    }
}
