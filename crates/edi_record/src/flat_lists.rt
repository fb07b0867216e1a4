//! Parts of flat lists, in which the parts of records lie one behind the other.

ghost use Rattle.std.specs.Prelude.{◌≡◌, ◌+◌, ◌≤◌, ◌<◌, ◌∷◌, ◌++◌, [], length, slice_range, IfOk, OnOk};
ghost use Rattle.std.specs.Vec.{vec_len, vec_capacity};

use std::alloc::{AllocError, Global};
use std::mem;

/// How many elements a list may have room for and still be kept for later ones.
const MOST_KEPT: usize = 65_536;

/// A length in four bytes, or lack of memory where it has more.
fn place_of(len: usize) -> Result<u32, AllocError>
    ensures { IfOk result (λ place. place ≡ len) }
{
    if len > u32::MAX as usize {
        return Err(AllocError);
    }
    Ok(len as u32)
}

/// Makes room for so many more elements, unless there are none yet: then the list that comes takes this one's place.
/// Where the elements will end is the answer.
pub(crate) fn make_room<T>(list: &mut Vec<T>, more: usize) -> Result<u32, AllocError>
    ensures items { list.new.items ≡ list.old.items }
    ensures room { OnOk result (0 < vec_len list.new → vec_len list.new + more ≤ vec_capacity list.new) }
    ensures stop { IfOk result (λ stop. stop ≡ length list.old.items + more) }
{
    if list.is_empty() {
        return place_of(more);
    }
    list.reserve(more)?;
    place_of(list.len() + more)
}

/// Makes room for so many more elements; and before the first, for as many as are to come. Where the elements will end
/// is the answer.
pub(crate) fn room_for<T>(list: &mut Vec<T>, more: usize, all: usize) -> Result<u32, AllocError>
    ensures items { list.new.items ≡ list.old.items }
    ensures room { OnOk result (vec_len list.new + more ≤ vec_capacity list.new) }
    ensures stop { IfOk result (λ stop. stop ≡ length list.old.items + more) }
{
    if list.is_empty() {
        list.reserve(all)?;
    }
    list.reserve(more)?;
    place_of(list.len() + more)
}

/// Moves elements behind those of a list that has room for them.
pub(crate) fn move_behind<T: Drop>(list: &mut Vec<T>, items: &mut Vec<T>)
    requires { vec_len list.old + vec_len items.old ≤ vec_capacity list.old }
    ensures moved { list.new.items ≡ list.old.items ++ items.old.items }
    ensures emptied { items.new.items ≡ [] }
{
    let _never_fails = list.append(items);
}

/// Puts an element behind those of a list that has room for it.
pub(crate) fn push_behind<T: Drop>(list: &mut Vec<T>, item: T)
    requires { vec_len list.old < vec_capacity list.old }
    ensures { list.new.items ≡ list.old.items ++ «item» ∷ [] }
{
    let _never_fails = list.push(item);
}

/// Moves elements behind those of a list that has room for them, or, where it has none, exchanges the two lists.
pub(crate) fn append<T: Drop>(list: &mut Vec<T>, items: &mut Vec<T>)
    requires { 0 < vec_len list.old → vec_len list.old + vec_len items.old ≤ vec_capacity list.old }
    ensures moved { list.new.items ≡ list.old.items ++ items.old.items }
    ensures emptied { items.new.items ≡ [] }
{
    if items.is_empty() {
        return;
    }
    if list.is_empty() {
        mem::swap(list, items);
        return;
    }
    move_behind(list, items);
}

/// Empties a list. It is kept for later elements unless it has room for very many. Most lists are empty already: their
/// elements have been moved behind others.
pub(crate) fn empty<T: Drop>(alloc: Global, list: &mut Vec<T>)
    ensures { list.new.items ≡ [] }
{
    if list.capacity() > MOST_KEPT {
        *list = Vec::new(alloc);
    } else if !list.is_empty() {
        list.clear();
    }
}

/// An empty list with room for the elements of another, but without where these are very many.
pub(crate) fn exact_room<T>(alloc: Global, list: &Vec<T>) -> Result<Vec<T>, AllocError>
    ensures { IfOk result (λ exact. exact.items ≡ []) }
{
    if list.len() > MOST_KEPT {
        return Ok(Vec::new(alloc));
    }
    Vec::with_capacity(alloc, list.len())
}

/// Hands the elements of a list over, with no room for more: in the list itself, if it has no room for more or the
/// empty one has too little, and then the list goes on in that one's room; or else in the empty one. The heads and the
/// ends of a block of links fill their lists, and to copy them took a fortieth of the instructions of a check.
pub(crate) fn hand_over<T: Drop>(mut exact: Vec<T>, list: &mut Vec<T>) -> Vec<T>
    requires { exact.items ≡ [] }
    ensures items { result.items ≡ list.old.items }
    ensures emptied { list.new.items ≡ [] }
{
    if exact.capacity() < list.len() || list.len() == list.capacity() {
        let mut full = mem::replace(list, exact);
        full.shrink_to_fit();
        return full;
    }
    move_behind(&mut exact, list);
    exact
}

/// A part of a list, borrowed.
pub(crate) fn part<T>(list: &Vec<T>, from: u32, to: u32) -> &[T]
    requires rises { from ≤ to }
    requires within { to ≤ length list.now.items }
    ensures { result.now ≡ slice_range list.now.items from to }
{
    &list[from as usize..to as usize]
}
