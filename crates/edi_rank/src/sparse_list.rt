//! A list that takes little memory where it is empty.

ghost use Rattle.std.specs.Prelude.{◌≡◌, ◌++◌, ◌∷◌, [], IfOk, OnOk};

use std::alloc::{AllocError, Global};
use std::marker::Model;

/// A list that is mostly empty, as that of the pieces of a record, most of which are no objects. It takes 8 bytes, where
/// a `Vec` takes 24, and memory of its own only where it has elements. Contracts see the list alone.
pub(crate) struct SparseList<T> {
    elements: Option<Box<Vec<T>>>,
}

impl<T: Drop> Drop for SparseList<T> {
    fn drop(self) {
        let SparseList { elements: _ } = self;
    }
}

impl<T> Model for SparseList<T> {
    ghost use Rattle.std.specs.Prelude.{List, option_map};
    ghost use Rattle.edi_rank.specs.inner.SparseLists.{elements_in};

    ghost Value = { List T };

    ghost view = { λ s. elements_in (option_map (λ e. e.value.items) s.elements) };
}

impl<T: Drop> SparseList<T> {
    /// No elements.
    pub(crate) fn new() -> SparseList<T>
        ensures { result ≡ [] }
    {
        SparseList { elements: None }
    }

    /// The elements of the vector.
    pub(crate) fn from_vec(alloc: Global, elements: Vec<T>) -> Result<SparseList<T>, AllocError>
        ensures { IfOk result (λ list. list ≡ elements.items) }
    {
        let elements = Some(Box::new(alloc, elements)?);
        Ok(SparseList { elements })
    }

    /// The elements, borrowed.
    pub(crate) fn as_slice(&self) -> &[T]
        ensures { result.now ≡ self.now }
    {
        match &self.elements {
            Some(elements) => elements.as_slice(),
            None => &[],
        }
    }

    /// Adds an element behind the others.
    pub(crate) fn push(&mut self, alloc: Global, element: T) -> Result<(), AllocError>
        ensures { OnOk result (self.new ≡ self.old ++ element ∷ []) }
    {
        match &mut self.elements {
            Some(elements) => elements.push(element)?,
            None => {
                let mut elements = Vec::with_capacity(alloc, 1)?;
                elements.push(element)?;
                self.elements = Some(Box::new(alloc, elements)?);
            }
        }
        Ok(())
    }
}
