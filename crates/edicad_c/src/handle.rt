//! What a caller in C holds of the library.

ghost use Rattle.std.specs.Prelude.{◌≡◌, MatchOption, Option, option_map, None, Some};
ghost use Rattle.std.specs.Fn.{FnOnceReturnsAt};
ghost use Rattle.edicad_c.specs.Handles.{Owns, held_coded};
ghost use Rattle.edicad_c.specs.Held.{MatchSchema};
ghost use Rattle.edicad_c.specs.declared.content.Content.{Content};

use crate::content::Content;
use crate::loose::Loose;
use edi_schema::Schema;
use std::alloc::Global;
use std::marker::Model;
use std::mem::replace;
use std::ptr::null_mut;

/// A pointer that owns a schema, bytes or pairs, or null, which owns nothing. C has it as a struct of one pointer,
/// which it sets to null before the first call, and neither copies nor writes afterwards.
#[repr(C)]
pub struct Handle {
    at: *mut u8,
    alloc: Global,
    pub ghost held: { Option Content } by { held_coded },
}

impl Model for Handle {
    ghost also_owns = { λ handle. Owns handle.alloc handle.at handle.held };
}

// It may go from one thread to another, with what it owns.
unsafe impl Send for Handle {}

impl Handle {
    // A handle that holds nothing.
    fn new(alloc: Global) -> Handle
        ensures { result.held ≡ None }
    {
        Handle {
            at: null_mut(),
            alloc,
        }
    }

    // A handle that holds what the box holds.
    fn of_loose(loose: Loose<Content, Global>) -> Handle
        ensures { result.held ≡ Some loose.value }
    {
        let Loose { at, alloc } = loose;
        Handle {
            at: at as *mut u8,
            alloc,
        }
    }

    // What a handle holds.
    fn into_loose(self) -> Option<Loose<Content, Global>>
        ensures { option_map (λ loose. loose.value) result ≡ self.held }
    {
        let Handle { at, alloc } = self;
        if at.is_null() {
            None
        } else {
            Some(Loose {
                at: at as *mut Content,
                alloc,
            })
        }
    }

    /// Takes out what the handle holds, and leaves it empty.
    pub fn take(&mut self, alloc: Global) -> Option<Box<Content>>
        ensures taken { option_map (λ content. content.value) result ≡ self.old.held }
        ensures empty { self.new.held ≡ None }
    {
        let held = replace(self, Handle::new(alloc));
        match held.into_loose() {
            Some(loose) => Some(loose.into_box()),
            None => None,
        }
    }

    /// Frees what the handle holds, and leaves it empty.
    pub fn clear(&mut self, alloc: Global)
        ensures { self.new.held ≡ None }
    {
        drop(self.take(alloc));
    }

    /// Puts something into the handle. What it held before is freed.
    pub fn put(&mut self, content: Box<Content>)
        ensures { self.new.held ≡ Some content.value }
    {
        *self = Handle::of_loose(Loose::of(content));
    }

    /// What is made of what the handle holds, which stays in it; or nothing, where it is empty.
    pub fn use_content<T, F: FnOnce(&Content) -> T>(&mut self, alloc: Global, make: F) -> Option<T>
        requires { F.IsAlwaysCallable make }
        ensures kept { self.new.held ≡ self.old.held }
        ensures made { MatchOption self.old.held (result ≡ None)
            (λ content. MatchOption result ⊥ (FnOnceReturnsAt F.FnOnce make content)) }
    {
        let content = self.take(alloc)?;
        let made = make(&content);
        self.put(content);
        Some(made)
    }

    /// What is made of the schema that the handle holds, which stays in it; or nothing, where it holds none.
    pub fn use_schema<T, F: FnOnce(&Schema) -> T>(&mut self, alloc: Global, make: F) -> Option<T>
        requires { F.IsAlwaysCallable make }
        ensures kept { self.new.held ≡ self.old.held }
        ensures made { MatchSchema self.old.held
            (λ s. MatchOption result ⊥ (FnOnceReturnsAt F.FnOnce make s)) (result ≡ None) }
    {
        self.use_content(
            alloc,
            |content|
                requires { F.IsAlwaysCallable make }
            { content.schema().map(make) },
        )
        .flatten()
    }
}

impl Drop for Handle {
    fn drop(self) {
        match self.into_loose() {
            Some(loose) => drop(loose.into_box()),
            None => {}
        }
    }
}
