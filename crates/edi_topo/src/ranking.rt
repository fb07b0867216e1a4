//! Numbers of members, by their keys.

ghost use Rattle.std.specs.Prelude.{◌≡◌, ◌≢◌, ◌⊎◌, ◌<◌, ◌≤◌, ◌+◌, ◌-◌, ◌^◌, ℕ, length, slice_index, All, AllPairs, IfOk, IfErr, IsPermutation, MatchBool, MatchOption, IsSorted, OnOk};
ghost use Rattle.std.specs.List.{slice_index_or};
ghost use Rattle.std.specs.Ordering.{nat_cmp, ordering_then};
ghost use Rattle.edi_topo.specs.inner.Keyed.{IsLeastRepeatIfAny};
ghost use Rattle.edi_topo.specs.Ranking.{keyed, IsFirstTie, IsRanking, IsTie};

use crate::fault::{TieFault, Tied};
use crate::layer::Layer;
use crate::numbers::Ranks;
use edi_line::Sequence;
use std::alloc::{AllocError, Global};
use std::cmp::Ordering;

/// Each member with its key, in their order.
fn keyed_members<L: Layer>(alloc: Global, layer: &L) -> Result<Vec<(L::Key, u32)>, AllocError>
    ensures { IfOk result (λ pairs. pairs.items ≡ keyed (L.key_of layer.now) (L.size layer.now)) }
{
    let mut pairs = Vec::with_capacity(alloc, layer.len() as usize)?;
    for member in 0..layer.len() {
        let key = layer.key(alloc, member)?;
        pairs.push((key, member))?;
    }
    Ok(pairs)
}

/// Each member with its key, in the order of the keys, and of members where keys tie. It fails only where memory is
/// lacking.
pub fn members_by_key<L: Layer>(alloc: Global, layer: &L) -> Result<Vec<(L::Key, u32)>, AllocError>
    ensures few { OnOk result (L.size layer.now < 2 ^ 32) }
    ensures permutation { IfOk result (λ pairs.
        IsPermutation (keyed (L.key_of layer.now) (L.size layer.now)) pairs.items) }
    ensures sorted { IfOk result (λ pairs.
        IsSorted (λ x y. ordering_then (L.Key.cmp x.0 y.0) (nat_cmp x.1 y.1)) pairs.items) }
{
    let _count = layer.len();
    let mut pairs = keyed_members(alloc, layer)?;
    pairs.sort_unstable();
    Ok(pairs)
}

/// The numbers of the members, which are one more than their places in this order.
fn number_members<K>(alloc: Global, pairs: &[(K, u32)]) -> Result<Vec<u32>, AllocError>
    requires few { length pairs.now < 2 ^ 32 }
    requires within { All (λ pair. pair.1 < length pairs.now) pairs.now }
    requires apart { AllPairs (λ x y. x.1 ≢ y.1) pairs.now }
    ensures length { IfOk result (λ numbers. length numbers.items ≡ length pairs.now) }
    ensures places { IfOk result (λ numbers. (i : ℕ) (d : K × ℕ) → i < length pairs.now
        → slice_index numbers.items (slice_index_or pairs.now i d).1 ≡ i + 1) }
{
    let mut numbers = vec![in alloc; 0; pairs.len()]?;
    let mut number: u32 = 0;
    for pair in pairs {
        number += 1;
        numbers[pair.1 as usize] = number;
    }
    Ok(numbers)
}

/// Of two members, each with an earlier one, the lesser; the first may be missing.
fn lesser(least: Option<Tied>, tied: Tied) -> Tied
    ensures { MatchOption least (result ≡ tied) (λ other. ((result ≡ other) × (other.member ≤ tied.member))
        ⊎ ((result ≡ tied) × (tied.member ≤ other.member))) }
{
    match least {
        Some(other) if other.member < tied.member => other,
        _ => tied,
    }
}

/// Whether the pair at a place has the key of the one before.
pub(crate) fn is_repeat<K: Ord>(pairs: &[(K, u32)], i: usize) -> bool
    requires low { 1 ≤ i }
    requires within { i < length pairs.now }
    ensures { MatchBool result ((d : K × ℕ)
        → K.cmp (slice_index_or pairs.now (i - 1) d).0 (slice_index_or pairs.now i d).0 ≡ Ordering.Equal)
        ((d : K × ℕ) → K.cmp (slice_index_or pairs.now (i - 1) d).0 (slice_index_or pairs.now i d).0 ≢ Ordering.Equal) }
{
    pairs[i - 1].0.cmp(&pairs[i].0).is_eq()
}

/// The member at a place.
pub(crate) fn member_at<K>(pairs: &[(K, u32)], i: usize) -> u32
    requires { i < length pairs.now }
    ensures { (d : K × ℕ) → (slice_index_or pairs.now i d).1 ≡ result }
{
    pairs[i].1
}

/// The member at a place, and the one before.
fn tied_at<K>(pairs: &[(K, u32)], i: usize) -> Tied
    requires low { 1 ≤ i }
    requires within { i < length pairs.now }
    ensures member { (d : K × ℕ) → (slice_index_or pairs.now i d).1 ≡ result.member }
    ensures earlier { (d : K × ℕ) → (slice_index_or pairs.now (i - 1) d).1 ≡ result.earlier }
{
    Tied {
        member: member_at(pairs, i),
        earlier: member_at(pairs, i - 1),
    }
}

/// The least member that follows one with its key, and that one.
fn first_tie<K: Ord>(pairs: &[(K, u32)]) -> Option<Tied>
    ensures { IsLeastRepeatIfAny K.cmp pairs.now (length pairs.now) result }
{
    let mut least = None;
    for i in 1..pairs.len() {
        if is_repeat(pairs, i) {
            least = Some(lesser(least, tied_at(pairs, i)));
        }
    }
    least
}

/// The number of each member: one more than the count of lesser keys. Where a member has the key of an
/// earlier one there are no numbers, and the least such member is named, with the first that has its key. It fails only
/// where memory is lacking.
pub fn ranks_or_tie<L: Layer>(alloc: Global, layer: &L) -> Result<Result<Ranks, Tied>, AllocError>
    ensures numbers { IfOk result (λ found.
        IfOk found (IsRanking L.Key.cmp (L.key_of layer.now) (L.size layer.now))) }
    ensures tie { IfOk result (λ found.
        IfErr found (IsFirstTie L.Key.cmp (L.key_of layer.now) (L.size layer.now))) }
{
    let pairs = members_by_key(alloc, layer)?;
    let sorted: &[(L::Key, u32)] = &pairs;
    match first_tie(sorted) {
        Some(tied) => Ok(Err(tied)),
        None => {
            let numbers = number_members(alloc, sorted)?;
            Ok(Ok(Ranks::from_numbers(Sequence::from_vec(numbers))))
        }
    }
}

/// What `ranks_or_tie` gives, but for the first member with the key: where a member has the key of an earlier one the
/// least such member alone is named.
pub fn ranks<L: Layer>(alloc: Global, layer: &L) -> Result<Ranks, TieFault>
    ensures numbers { IfOk result (IsRanking L.Key.cmp (L.key_of layer.now) (L.size layer.now)) }
    ensures tie { IfErr result (IsTie L.Key.cmp (L.key_of layer.now) (L.size layer.now)) }
{
    match ranks_or_tie(alloc, layer) {
        Ok(Ok(ranks)) => Ok(ranks),
        Ok(Err(tied)) => Err(TieFault::Tie(tied.member)),
        Err(error) => Err(TieFault::Memory(error)),
    }
}
