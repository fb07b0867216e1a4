//! Finding the classes of names that come one after the other.

ghost use Rattle.std.specs.Prelude.{◌≡◌, ◌<◌, length, IfSome};

use crate::class::ClassRef;
use crate::schema::Schema;
use edi_record::Name;
use std::marker::Model;

// How many places there are for what came behind a class, and for what came of identifiers that are alike.
const PLACES: usize = 64;

// An odd number of 64 bits without a pattern, by which the bytes that choose a place are spread.
const SPREAD: u64 = 0x9E37_79B9_7F4A_7C15;

// How far the spread bytes are shifted, so that the number of a place is left.
const SHIFT: u32 = 58;

/// Finds the classes of names under a schema. The classes of a sheet's records mostly come in the same turn, so what
/// came last behind the class before is looked at first; then what came last of the identifiers whose last bytes choose
/// the same place. In random order nearly each name was looked up by a hash before: a twelfth of the instructions of a
/// check. This decides where a class is looked for first, and never what is found. Contracts see the schema alone.
#[derive(Drop)]
pub struct ClassFinder<'a> {
    schema: &'a Schema,
    behind: [u32; PLACES],
    alike: [u32; PLACES],
    // Where it is noted what came behind the class before.
    place: usize,
}

impl<'a> Model for ClassFinder<'a> {
    ghost use Rattle.std.specs.Prelude.{◌<◌};
    ghost use Rattle.edi_schema.specs.Classes.{Classes};

    ghost Value = { Classes };

    ghost view = { λ f. f.schema.now };

    ghost invariant = { λ f. f.place < 64 };
}

impl<'a> ClassFinder<'a> {
    ghost use Rattle.edi_schema.specs.Classes.{place_of};

    /// No name has come.
    pub fn new(schema: &'a Schema) -> ClassFinder<'a>
        ensures { result ≡ schema.now }
    {
        ClassFinder {
            schema,
            behind: [0; PLACES],
            alike: [0; PLACES],
            place: 0,
        }
    }

    /// The class with a name, as `Schema::class` gives it.
    pub fn class(&mut self, name: &Name) -> Option<ClassRef>
        ensures class { result ≡ place_of self.old name.now }
        ensures within { IfSome result (λ class. class < length self.old) }
        ensures same { self.new ≡ self.old }
    {
        let near = self.behind[self.place];
        let class = if self.schema.has_name(near, name) {
            ClassRef::at(near)
        } else {
            self.class_alike(name)?
        };
        self.behind[self.place] = class.place();
        self.place = class.place() as usize % PLACES;
        Some(class)
    }

    /// The class with a name, which is looked for first where that of the last name was whose identifier is alike.
    #[inline(never)]
    fn class_alike(&mut self, name: &Name) -> Option<ClassRef>
        ensures class { result ≡ place_of self.old name.now }
        ensures within { IfSome result (λ class. class < length self.old) }
        ensures same { self.new ≡ self.old }
    {
        let at = place_alike(name.rid.as_slice());
        let class = self.schema.class_near(self.alike[at], name)?;
        self.alike[at] = class.place();
        Some(class)
    }
}

/// The bytes of a short text as one number.
fn number_of(bytes: &[u8]) -> u64 {
    let mut number: u64 = 0;
    for byte in bytes {
        number = number.wrapping_mul(256).wrapping_add(u64::from(*byte));
    }
    number
}

/// The last eight bytes of an identifier as one number; where it has fewer, its first four and its last four, which are
/// read at once as those are.
fn last_bytes(rid: &[u8]) -> u64 {
    match rid {
        [.., a, b, c, d, e, f, g, h] => u64::from_le_bytes([*a, *b, *c, *d, *e, *f, *g, *h]),
        [a, b, c, d, ..] => {
            let (_, last) = rid.split_at(rid.len() - 4);
            u64::from_le_bytes([*a, *b, *c, *d, last[0], last[1], last[2], last[3]])
        }
        few => number_of(few),
    }
}

/// A place for an identifier by its last bytes.
fn place_alike(rid: &[u8]) -> usize
    ensures { result < 64 }
{
    (last_bytes(rid).wrapping_mul(SPREAD) >> SHIFT) as usize
}
