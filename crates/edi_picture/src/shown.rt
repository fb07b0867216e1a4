//! Sheets that are drawn.

ghost use Rattle.std.specs.Prelude.{◌≡◌, map};

use crate::mark::Mark;
use edi_plan::Plan;
use std::marker::Model;

/// How the records of a plan are drawn, by their places.
#[derive(Drop)]
pub struct Looks {
    pub marks: Vec<Mark>,
    /// Which faces are tinted.
    pub tints: Vec<bool>,
    /// What is written on faces, in the character set of the sheet.
    pub labels: Vec<Vec<u8>>,
}

/// A plan that is drawn, with the name of its file, the identifiers of its records and how they are drawn.
pub struct Shown<'a> {
    plan: &'a Plan,
    name: &'a [u8],
    identifiers: Vec<&'a [u8]>,
    looks: Looks,
}

impl Drop for Shown<'_> {
    fn drop(self) {
        let Shown {
            plan: _,
            name: _,
            identifiers: _,
            looks: _,
        } = self;
    }
}

impl<'a> Model for Shown<'a> {
    ghost use Rattle.std.specs.Prelude.{map};
    ghost use Rattle.edi_picture.specs.Sheets.{DrawnSheet};

    ghost Value = { DrawnSheet };

    ghost view = { λ s. record {
      plan = s.plan.now;
      name = s.name.now;
      identifiers = map (λ i. i.now) s.identifiers.items;
      marks = s.looks.marks.items;
      tints = s.looks.tints.items;
      labels = map (λ l. l.items) s.looks.labels.items;
    } };
}

impl<'a> Shown<'a> {
    ghost use Rattle.std.specs.Prelude.{count_by};
    ghost use Rattle.edi_picture.specs.Marks.{same_mark};
    ghost use Rattle.edi_picture.specs.Sheets.{identifier_at, label_at, mark_at, tint_at};

    /// A plan, the name of its file, the identifiers of its records as their file has them, and how they are drawn,
    /// each in file order. A record that has no identifier here is drawn with an empty one; one that has no mark here
    /// is not drawn; a face that has no tint or label here has none.
    pub fn new(
        plan: &'a Plan,
        name: &'a [u8],
        identifiers: Vec<&'a [u8]>,
        looks: Looks,
    ) -> Shown<'a>
        ensures { result ≡ record {
          plan = plan.now;
          name = name.now;
          identifiers = map (λ i. i.now) identifiers.entry.items;
          marks = looks.marks.items;
          tints = looks.tints.items;
          labels = map (λ l. l.items) looks.labels.items;
        } }
    {
        Shown {
            plan,
            name,
            identifiers,
            looks,
        }
    }

    /// The plan.
    pub(crate) fn plan(&self) -> &Plan
        ensures { result.now ≡ self.now.plan }
    {
        self.plan
    }

    /// The name of the file.
    pub(crate) fn name(&self) -> &[u8]
        ensures { result.now ≡ self.now.name }
    {
        self.name
    }

    /// The identifier of a record.
    pub(crate) fn identifier(&self, place: u32) -> &[u8]
        ensures { result.now ≡ identifier_at self.now place }
    {
        match self.identifiers.get(place as usize) {
            Some(identifier) => identifier,
            None => b"",
        }
    }

    /// The mark of a record.
    pub(crate) fn mark(&self, place: u32) -> Mark
        ensures { result ≡ mark_at self.now place }
    {
        match self.looks.marks.get(place as usize) {
            Some(mark) => *mark,
            None => Mark::Hidden,
        }
    }

    /// Whether a face is tinted.
    pub(crate) fn is_tinted(&self, place: u32) -> bool
        ensures { result ≡ tint_at self.now place }
    {
        match self.looks.tints.get(place as usize) {
            Some(tint) => *tint,
            None => false,
        }
    }

    /// What is written on a face.
    pub(crate) fn label(&self, place: u32) -> &[u8]
        ensures { result.now ≡ label_at self.now place }
    {
        match self.looks.labels.get(place as usize) {
            Some(label) => label.as_slice(),
            None => b"",
        }
    }

    /// How many records have a mark.
    pub(crate) fn count(&self, mark: Mark) -> usize
        ensures { result ≡ count_by (same_mark mark) self.now.marks }
    {
        self.looks.marks.iter().filter(|it| it.is(mark)).count()
    }
}
