//! Lists that are borrowed from what owns them.

ghost use Rattle.std.specs.Prelude.{◌≡◌, map};
ghost use Rattle.std.specs.Cmp.Lexicographic.{pointwise, slice_cmp, slice_partial_cmp, lists_equiv, lists_agrees, lists_total, lists_ties, lists_po, lists_per};

use std::cmp::Ordering;
use std::marker::Model;

/// A borrowed list, compared and ordered as its elements in their order. Contracts see the list alone.
#[derive(Drop)]
pub struct BorrowedList<'a, T> {
    items: &'a [T],
}

impl<'a, T> Model for BorrowedList<'a, T> {
    ghost use Rattle.std.specs.Prelude.{List};

    ghost Value = { List T };

    ghost view = { λ l. l.items.now };
}

impl<'a, T> BorrowedList<'a, T> {
    /// These elements, borrowed.
    pub fn of(items: &'a [T]) -> BorrowedList<'a, T>
        ensures { result ≡ items.now }
    {
        BorrowedList { items }
    }

    /// The elements.
    pub fn as_slice(&self) -> &'a [T]
        ensures { result.now ≡ self.now }
    {
        self.items
    }
}

impl<'a, T: PartialEq> PartialEq for BorrowedList<'a, T> {
    ghost eq = { pointwise T.eq };

    ghost laws = { lists_per T.PartialEq.laws };

    fn eq(&self, other: &Self) -> bool {
        self.as_slice() == other.as_slice()
    }
}

impl<'a, T: Eq> Eq for BorrowedList<'a, T> {
    ghost laws = { lists_equiv T.Eq.laws };
}

impl<'a, T: PartialOrd> PartialOrd for BorrowedList<'a, T> {
    ghost partial_cmp = { slice_partial_cmp T.partial_cmp };

    ghost laws = { lists_po T.PartialOrd.laws };

    fn partial_cmp(&self, other: &Self) -> Option<Ordering> {
        self.as_slice().partial_cmp(other.as_slice())
    }
}

impl<'a, T: Ord> Ord for BorrowedList<'a, T> {
    ghost cmp = { slice_cmp T.cmp };

    ghost total = { lists_total T.total };

    ghost matches_partial_cmp = { λ x y. lists_agrees T.matches_partial_cmp x y };

    ghost matches_eq = { λ x y. lists_ties T.cmp T.matches_eq x y };

    fn cmp(&self, other: &Self) -> Ordering {
        self.as_slice().cmp(other.as_slice())
    }
}

/// A list of borrowed elements, compared and ordered as these in their order. Contracts see the list of the
/// elements. The first, which mostly decides, lies in the value itself too, so that the vector need not be fetched.
#[derive(Drop)]
pub struct ListOfBorrowed<'a, T> {
    first: Option<&'a T>,
    vec: Vec<&'a T>,
}

impl<'a, T> Model for ListOfBorrowed<'a, T> {
    ghost use Rattle.std.specs.Prelude.{◌≡◌, List, map, option_map};
    ghost use Rattle.edi_line.specs.ZoneData.{first as first_in};

    ghost Value = { List T };

    ghost view = { λ l. map (λ item. item.now) l.vec.items };

    ghost invariant = { λ l. option_map (λ item. item.now) l.first ≡ first_in (map (λ item. item.now) l.vec.items) };
}

impl<'a, T> ListOfBorrowed<'a, T> {
    /// What the references of the vector point to.
    pub fn from_vec(vec: Vec<&'a T>) -> ListOfBorrowed<'a, T>
        ensures { result ≡ map (λ item. item.now) vec.entry.items }
    {
        ListOfBorrowed {
            first: vec.first().copied(),
            vec,
        }
    }
}

impl<'a, T: PartialEq> PartialEq for ListOfBorrowed<'a, T> {
    ghost eq = { pointwise T.eq };

    ghost laws = { lists_per T.PartialEq.laws };

    fn eq(&self, other: &Self) -> bool {
        self.vec.as_slice() == other.vec.as_slice()
    }
}

impl<'a, T: Eq> Eq for ListOfBorrowed<'a, T> {
    ghost laws = { lists_equiv T.Eq.laws };
}

impl<'a, T: PartialOrd> PartialOrd for ListOfBorrowed<'a, T> {
    ghost partial_cmp = { slice_partial_cmp T.partial_cmp };

    ghost laws = { lists_po T.PartialOrd.laws };

    fn partial_cmp(&self, other: &Self) -> Option<Ordering> {
        self.vec.as_slice().partial_cmp(other.vec.as_slice())
    }
}

impl<'a, T: Ord> Ord for ListOfBorrowed<'a, T> {
    ghost cmp = { slice_cmp T.cmp };

    ghost total = { lists_total T.total };

    ghost matches_partial_cmp = { λ x y. lists_agrees T.matches_partial_cmp x y };

    ghost matches_eq = { λ x y. lists_ties T.cmp T.matches_eq x y };

    fn cmp(&self, other: &Self) -> Ordering {
        if let (Some(one), Some(another)) = (self.first, other.first) {
            let order = one.cmp(another);
            if order.is_ne() {
                return order;
            }
        }
        self.vec.as_slice().cmp(other.vec.as_slice())
    }
}
