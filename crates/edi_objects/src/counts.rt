//! How many objects of each class are only in one sheet, or changed.

ghost use Rattle.std.specs.Prelude.{◌≡◌, ◌++◌, ◌<◌, IfOk, OnOk, length};
ghost use Rattle.std.specs.List.Sorted.{IsNonDecreasingBy};
ghost use Rattle.edi_plan.specs.Plans.{IsPlace};
ghost use Rattle.edi_objects.specs.Counts.{are_none, class_count, class_if, class_counts_line, class_total, class_totals, changed_classes, counts_text, gone_classes, new_classes};
ghost use Rattle.edi_report.specs.Lines.{counted};
ghost use Rattle.edi_objects.specs.inner.Counts.{AreCountsOf, AreToldClasses};

use crate::account::ObjectReporter;
use crate::names::Namer;
use edi_line::push_number;
use edi_plan::Plan;
use edi_record::Kind;
use edi_schema::ClassRef;
use std::alloc::{AllocError, Global};
use std::marker::Model;

/// Classes, in order.
#[derive(Drop)]
struct SortedClasses {
    list: Vec<ClassRef>,
}

impl Model for SortedClasses {
    ghost use Rattle.std.specs.Prelude.{ℕ, List};
    ghost use Rattle.std.specs.List.Sorted.{IsNonDecreasingBy};

    ghost Value = { List ℕ };

    ghost view = { λ c. c.list.items };

    ghost invariant = { λ c. IsNonDecreasingBy (λ (k : ℕ). k) c.list.items };
}

impl SortedClasses {
    /// These classes, put in order.
    fn of(mut list: Vec<ClassRef>) -> SortedClasses
        ensures { AreCountsOf list.items result }
    {
        list.sort_unstable();
        SortedClasses { list }
    }

    /// How often a class is among them.
    fn count(&self, class: ClassRef) -> usize
        ensures { result ≡ class_count class self.now }
    {
        let classes = self.list.as_slice();
        let from = classes.partition_point(|other| *other < class);
        let (_, behind) = classes.split_at(from);
        behind.partition_point(|other| *other <= class)
    }
}

/// The classes of the objects that are only in the first sheet, of those only in the second, and of those that changed.
#[derive(Drop)]
struct ToldClasses {
    gone: SortedClasses,
    new: SortedClasses,
    changed: SortedClasses,
}

/// How many objects of a class are only in the first sheet, how many only in the second, and how many changed.
#[derive(Clone, Copy)]
struct ClassCounts {
    gone: usize,
    new: usize,
    changed: usize,
}

impl ToldClasses {
    /// How many of them are of a class.
    fn counts(&self, class: ClassRef) -> ClassCounts
        ensures gone { result.gone ≡ class_count class self.now.gone }
        ensures new { result.new ≡ class_count class self.now.new }
        ensures changed { result.changed ≡ class_count class self.now.changed }
    {
        ClassCounts {
            gone: self.gone.count(class),
            new: self.new.count(class),
            changed: self.changed.count(class),
        }
    }
}

impl ClassCounts {
    /// Whether there are none.
    fn are_none(self) -> bool
        ensures { result ≡ are_none self.gone self.new self.changed }
    {
        self.gone == 0 && self.new == 0 && self.changed == 0
    }

    /// Appends them.
    fn push(self, text: &mut Vec<u8>) -> Result<(), AllocError>
        ensures { OnOk result (text.new.items ≡ text.old.items ++ counts_text self.gone self.new self.changed) }
    {
        push_counted(text, self.gone, b" only in A, ")?;
        push_counted(text, self.new, b" only in B, ")?;
        push_counted(text, self.changed, b" changed\n")?;
        Ok(())
    }
}

/// Appends the class of a record, if something holds of it.
pub(crate) fn push_class_if(
    classes: &mut Vec<ClassRef>,
    holds: bool,
    plan: &Plan,
    place: u32,
) -> Result<(), AllocError>
    requires { IsPlace plan.now place }
    ensures { OnOk result (classes.new.items ≡ classes.old.items ++ class_if holds plan.now place) }
{
    if holds {
        classes.push(plan.scp(place))?;
    }
    Ok(())
}

/// Appends a count, and what it counts.
fn push_counted(text: &mut Vec<u8>, count: usize, words: &[u8]) -> Result<(), AllocError>
    ensures { OnOk result (text.new.items ≡ text.old.items ++ counted count words.now) }
{
    push_number(text, count as u64)?;
    text.extend_from_slice(words)
}

impl<'a> Namer<'a> {
    /// Appends how many objects of a class are only in one sheet or changed, if there are any.
    fn push_class_line(
        &self,
        text: &mut Vec<u8>,
        class: ClassRef,
        counts: ClassCounts,
    ) -> Result<(), AllocError>
        requires { class < length self.now.classes }
        ensures { OnOk result (text.new.items
            ≡ text.old.items ++ class_counts_line self.now class counts.gone counts.new counts.changed) }
    {
        if counts.are_none() {
            return Ok(());
        }
        self.push_class(text, class)?;
        text.extend_from_slice(b": ")?;
        counts.push(text)
    }
}

impl<'a> ObjectReporter<'a> {
    /// The classes of the objects of the first sheet that are gone.
    fn gone_classes(&self, alloc: Global) -> Result<Vec<ClassRef>, AllocError>
        ensures { IfOk result (λ classes. classes.items ≡ gone_classes self.now.report) }
    {
        let plan = self.first().plan();
        let mut classes = Vec::new(alloc);
        for place in plan.places(Kind::Fea) {
            push_class_if(&mut classes, self.became_of(*place).is_none(), plan, *place)?;
        }
        Ok(classes)
    }

    /// The classes of the objects of the second sheet that are new.
    fn new_classes(&self, alloc: Global) -> Result<Vec<ClassRef>, AllocError>
        ensures { IfOk result (λ classes. classes.items ≡ new_classes self.now.report) }
    {
        let plan = self.second().plan();
        let mut classes = Vec::new(alloc);
        for place in plan.places(Kind::Fea) {
            push_class_if(&mut classes, !self.is_reached(*place), plan, *place)?;
        }
        Ok(classes)
    }

    /// Appends a line for each class of which the text tells objects; the classes of those that changed are given.
    pub(crate) fn push_class_totals(
        &self,
        alloc: Global,
        text: &mut Vec<u8>,
        changed: Vec<ClassRef>,
    ) -> Result<(), AllocError>
        ensures { changed.items ≡ changed_classes self.now.naming self.now.report
            → OnOk result (text.new.items ≡ text.old.items ++ class_totals self.now.naming self.now.report) }
    {
        let told = ToldClasses {
            gone: SortedClasses::of(self.gone_classes(alloc)?),
            new: SortedClasses::of(self.new_classes(alloc)?),
            changed: SortedClasses::of(changed),
        };
        self.push_class_lines(text, &told)
    }

    /// Appends a line for each class of which there are objects among these.
    fn push_class_lines(&self, text: &mut Vec<u8>, told: &ToldClasses) -> Result<(), AllocError>
        ensures { AreToldClasses self.now.naming self.now.report told.now.gone told.now.new told.now.changed
            → OnOk result (text.new.items ≡ text.old.items ++ class_totals self.now.naming self.now.report) }
    {
        let namer = self.namer;
        for place in 0..namer.schema.class_count() {
            let class = namer.schema.class_at(place);
            namer.push_class_line(text, class, told.counts(class))?;
        }
        Ok(())
    }
}
