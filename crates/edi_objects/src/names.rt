//! What the text calls classes and objects.

ghost use Rattle.std.specs.Prelude.{◌≡◌, ◌++◌, ◌<◌, OnOk, bytes_eq, length, take};
ghost use Rattle.std.specs.List.{AllByRecursion, flat_map, list_any};
ghost use Rattle.edi_objects.specs.Names.{class_identifier, shown_class, naming_text, object_name, short_text, shown_value};

use edi_plan::{Plan, PlanAttribute};
use edi_record::Value;
use edi_schema::{ClassRef, Schema};
use edi_shown::push_shown;
use std::alloc::AllocError;
use std::marker::Model;

/// Among how many of its attributes those that name an object are looked for, so that an object of many attributes that
/// many links name costs no more.
const MOST_SOUGHT: usize = 32;

/// How many bytes of a value are shown in a name.
const MOST_SHOWN: usize = 80;

/// A schema, and the identifiers of the classes of attributes by which people know objects.
#[derive(Drop)]
pub struct Namer<'a> {
    pub schema: &'a Schema,
    pub identifiers: &'a [&'a [u8]],
}

impl<'a> Model for Namer<'a> {
    ghost use Rattle.std.specs.Prelude.{map};
    ghost use Rattle.edi_objects.specs.Names.{Naming};

    ghost Value = { Naming };

    ghost view = { λ n. record { classes = n.schema.now; identifiers = map (λ i. i.now) n.identifiers.now } };
}

impl<'a> Namer<'a> {
    /// Appends the identifier of a class.
    #[tactic(auto, unfolding(crate::specs::Names::shown_class))]
    pub(crate) fn push_class(&self, text: &mut Vec<u8>, class: ClassRef) -> Result<(), AllocError>
        requires { class < length self.now.classes }
        ensures { OnOk result (text.new.items ≡ text.old.items ++ shown_class self.now.classes class) }
    {
        push_shown(text, self.schema.name(class).rid.as_slice())
    }

    /// Appends the class of an object, and the attributes by which people know it.
    pub(crate) fn push_object(
        &self,
        text: &mut Vec<u8>,
        class: ClassRef,
        attributes: &[PlanAttribute],
    ) -> Result<(), AllocError>
        requires class { class < length self.now.classes }
        requires attributes { AllByRecursion (λ a. a.atp < length self.now.classes) attributes.now }
        ensures { OnOk result (text.new.items ≡ text.old.items ++ shown_class self.now.classes class
            ++ flat_map (naming_text self.now) (take 32 attributes.now)) }
    {
        self.push_class(text, class)?;
        for attribute in first_few(attributes, MOST_SOUGHT) {
            self.push_naming(text, attribute)?;
        }
        Ok(())
    }

    /// Appends the class of an attribute and its value, if people know objects by it.
    fn push_naming(&self, text: &mut Vec<u8>, attribute: &PlanAttribute) -> Result<(), AllocError>
        requires { attribute.now.atp < length self.now.classes }
        ensures { OnOk result (text.new.items ≡ text.old.items ++ naming_text self.now attribute.now) }
    {
        if !self.names_objects(attribute.atp) {
            return Ok(());
        }
        text.push(b' ')?;
        self.push_class(text, attribute.atp)?;
        text.push(b' ')?;
        push_short(text, &attribute.value)
    }

    /// Whether people know objects by the attributes of a class.
    fn names_objects(&self, class: ClassRef) -> bool
        requires { class < length self.now.classes }
        ensures { result ≡ list_any (bytes_eq (class_identifier self.now.classes class)) self.now.identifiers }
    {
        let identifier = self.schema.name(class).rid.as_slice();
        for known in self.identifiers {
            if identifier == *known {
                return true;
            }
        }
        false
    }
}

/// Appends a value: a number in its plain spelling, or the bytes.
pub(crate) fn push_value(text: &mut Vec<u8>, value: &Value) -> Result<(), AllocError>
    ensures { OnOk result (text.new.items ≡ text.old.items ++ shown_value value.now) }
{
    match value {
        Value::Number(number) => number.push_plain(text),
        Value::Bytes(bytes) => push_shown(text, bytes.as_slice()),
    }
}

/// Appends a value, of which so many bytes are shown.
fn push_short(text: &mut Vec<u8>, value: &Value) -> Result<(), AllocError>
    ensures { OnOk result (text.new.items ≡ text.old.items ++ short_text value.now) }
{
    match value {
        Value::Number(number) => number.push_plain(text),
        Value::Bytes(bytes) => push_shown(text, first_few(bytes.as_slice(), MOST_SHOWN)),
    }
}

/// The first so many elements, or all if there are fewer.
pub(crate) fn first_few<T>(items: &[T], most: usize) -> &[T]
    ensures { result.now ≡ take most items.now }
{
    if items.len() < most {
        return items;
    }
    &items[..most]
}
