ghost use Rattle.std.specs.Prelude.{◌≡◌, ◌<◌, ◌≤◌, true, length, map, Some, option_map, IfOk, IfErr, IfSome, OnOk};
ghost use Rattle.edi_line.specs.Bytes.{most_records};
ghost use Rattle.edi_line.specs.ZoneData.{entries};
ghost use Rattle.edi_line.specs.LineRules.{IsZonesOf, BreaksLineRule};
ghost use Rattle.edi_line.specs.Zones.{HasShape};
ghost use Rattle.edi_line.specs.Refusal.{IsUnbroken, IsLeastBroken};
ghost use Rattle.edi_schema.specs.inner.Drafts.{definition_said, drafted};
ghost use Rattle.edi_schema.specs.inner.Steps.{IfLine, IfEntry, IfKinds, AreStated, AreMatched, AreUnmatched, StopsAt};

use crate::by_role::ByRole;
use crate::class::{Class, ClassRef};
use crate::definition::{Definition, definitions};
use crate::draft::{ClassDraft, Dictionary, drafts};
use crate::fault::{SchemaFault, Source};
use crate::kinds::Kinds;
use crate::places::{are_pointable, kind_places};
use crate::role::Role;
use crate::sorting::{by_name, sorted_by_name};
use crate::titles::{check_identifiers, titles};
use edi_hash::NameHash;
use edi_line::{LineFault, Zone, zones};
use edi_record::Name;
use indexmap::IndexMap;
use std::alloc::Global;
use std::marker::Model;

/// The classes of a schema, in the order of their names.
pub struct Schema {
    classes: IndexMap<Name, Class, NameHash>,
    places: ByRole<Option<u32>>,
}

impl Drop for Schema {
    fn drop(self) {
        let Schema {
            classes: _,
            places: _,
        } = self;
    }
}

impl Model for Schema {
    ghost use Rattle.edi_schema.specs.Classes.{Classes, IsSchema};
    ghost use Rattle.edi_schema.specs.inner.Places.{AreNoted};

    ghost Value = { Classes };

    ghost view = { λ s. s.classes.entries };

    ghost invariant = { λ s. IsSchema s.classes.entries × AreNoted s.classes.entries s.places };
}

/// The zones of one of the two files, or its least broken rule of lines.
fn zones_in<'a>(alloc: Global, file: Source, bytes: &'a [u8]) -> Result<Vec<Zone<'a>>, SchemaFault>
    ensures zones { IfOk result (λ zones. IsZonesOf bytes.now (entries zones.items)) }
    ensures shape { IfOk result (λ zones. HasShape (entries zones.items)) }
    ensures sound { OnOk result (IsUnbroken (BreaksLineRule bytes.now)) }
    ensures least { IfErr result (IfLine (λ source rule at. (source ≡ file)
        × IsLeastBroken (BreaksLineRule bytes.now) rule at)) }
{
    match zones(alloc, bytes) {
        Ok(zones) => Ok(zones),
        Err(LineFault::Memory(fault)) => Err(SchemaFault::Memory(fault)),
        Err(LineFault::Broken { rule, at }) => Err(SchemaFault::Line { file, rule, at }),
    }
}

/// The classes that the records of the two files state, in the order of their names.
fn stated_classes<'a>(
    alloc: Global,
    kinds: &Kinds<'_>,
    classes: &[Definition<'a>],
    words: &[Definition<'_>],
) -> Result<Vec<ClassDraft<'a>>, SchemaFault>
    ensures stated { IfOk result (λ drafts.
        AreStated (map definition_said classes.now) (map definition_said words.now) kinds.now (map drafted drafts.items)) }
    ensures stopped { IfErr result (IfEntry (StopsAt (map definition_said classes.now) (map definition_said words.now) kinds.now)) }
{
    check_identifiers(Source::Scd, classes)?;
    check_identifiers(Source::Dic, words)?;
    titles(alloc, Source::Scd, classes)?;
    let names = titles(alloc, Source::Dic, words)?;
    let words = Dictionary {
        titles: &names,
        records: words,
    };
    let drafts = drafts(alloc, kinds, words, classes)?;
    Ok(sorted_by_name(drafts))
}

impl Schema {
    ghost use Rattle.edi_schema.specs.Classes.{Classes, IsSchema, place_of, class_name_at, class_at, role_of, partner_at};
    ghost use Rattle.std.specs.Map.{keys_of};
    ghost use Rattle.edi_schema.specs.Classes.{name_cmp, IsLetter, IsReadName};
    ghost use Rattle.std.specs.List.{AllByRecursion};
    ghost use Rattle.edi_schema.specs.Sorted.{AlwaysRises};
    ghost use Rattle.edi_schema.specs.SchemaRefusal.{IsGoodSchema, IsSchemaRefusal};

    /// The schema of a file of classes, a dictionary and the codes of the four kinds.
    ///
    /// The first broken step is reported: 101 to 110 of the file of classes, then of the dictionary, by the least line;
    /// 601 (not exactly one identifier in form) of the classes, then of the dictionary; 602 (the name of an earlier
    /// record) of the classes, then of the dictionary; 603 (the DIP of a class names no record of the dictionary),
    /// each by the least record from 1; then 604 (two classes of one of the four kinds, or a class of a kind without
    /// one of the other of its pair, or a class of a kind whose type holds a semicolon, so that no pointer can name
    /// it, while its partner's holds none).
    /// `Memory` comes at any step and says nothing of the files.
    pub fn load(
        alloc: Global,
        scd: &[u8],
        dic: &[u8],
        kinds: &Kinds<'_>,
    ) -> Result<Schema, SchemaFault>
        ensures schema { IfOk result (IsGoodSchema scd.now dic.now kinds.now) }
        ensures refusal { IfErr result (IsSchemaRefusal scd.now dic.now kinds.now) }
    {
        let class_zones = zones_in(alloc, Source::Scd, scd)?;
        let word_zones = zones_in(alloc, Source::Dic, dic)?;
        let classes = definitions(alloc, &class_zones)?;
        let words = definitions(alloc, &word_zones)?;
        let drafts = stated_classes(alloc, kinds, &classes, &words)?;
        Schema::of_classes(alloc, &drafts)
    }

    /// The schema of classes in the order of their names.
    fn of_classes(alloc: Global, classes: &[ClassDraft<'_>]) -> Result<Schema, SchemaFault>
        requires few { length classes.now ≤ most_records }
        requires rises { AlwaysRises name_cmp (keys_of (map drafted classes.now)) }
        requires letters { AllByRecursion (λ e. IsLetter e.1.letter) (map drafted classes.now) }
        requires readable { AllByRecursion (λ e. IsReadName e.0) (map drafted classes.now) }
        ensures classes { IfOk result (λ s. s ≡ map drafted classes.now) }
        ensures paired { OnOk result (AreMatched (map drafted classes.now)) }
        ensures unpaired { IfErr result (IfKinds (AreUnmatched (map drafted classes.now))) }
    {
        if !are_pointable(classes) {
            return Err(SchemaFault::Kinds);
        }
        match kind_places(classes) {
            Some(places) => Ok(Schema {
                classes: by_name(alloc, classes)?,
                places,
            }),
            None => Err(SchemaFault::Kinds),
        }
    }

    /// How many classes there are.
    pub fn class_count(&self) -> usize
        ensures { result ≡ length self.now }
    {
        self.classes.len()
    }

    /// The class at a place from 0, in the order of the names.
    pub fn class_at(&self, place: usize) -> ClassRef
        requires { place < length self.now }
        ensures { result ≡ place }
    {
        self.keeps();
        ClassRef::at(place as u32)
    }

    /// The class with a name. Classes count from 0 in the order of their types, then of their identifiers.
    pub fn class(&self, name: &Name) -> Option<ClassRef>
        ensures class { result ≡ place_of self.now name.now }
        ensures within { IfSome result (λ class. class < length self.now) }
    {
        let place = self.classes.get_index_of(name)?;
        Some(ClassRef::at(place as u32))
    }

    /// The class with a name, which is looked for at this place first.
    pub(crate) fn class_near(&self, near: u32, name: &Name) -> Option<ClassRef>
        ensures class { result ≡ place_of self.now name.now }
        ensures within { IfSome result (λ class. class < length self.now) }
    {
        if self.has_name(near, name) {
            Some(ClassRef::at(near))
        } else {
            self.class(name)
        }
    }

    /// Whether there is a class at this place that has this name.
    pub(crate) fn has_name(&self, place: u32, name: &Name) -> bool
        ensures class { result ≡ true → place_of self.now name.now ≡ Some place }
        ensures within { result ≡ true → place < length self.now }
    {
        self.keeps();
        if self.classes.len() <= place as usize {
            return false;
        }
        // Classes mostly differ in their identifiers, of which many have one type.
        let known = self.name(ClassRef::at(place));
        known.rid == name.rid && known.rty == name.rty
    }

    /// The type and the identifier of a class of this schema.
    pub fn name(&self, class: ClassRef) -> &Name
        requires { class < length self.now }
        ensures { Some result.now ≡ class_name_at self.now class }
    {
        self.classes.get_index(class.place() as usize).unwrap().0
    }

    /// The kind of link of a class of this schema, or `Plain`.
    pub fn role(&self, class: ClassRef) -> Role
        requires { class < length self.now }
        ensures { result ≡ role_of self.now class }
    {
        self.entry(class).role
    }

    /// The class of the kind that is exchanged with that of this one where an arc is reversed.
    pub fn partner(&self, class: ClassRef) -> Option<ClassRef>
        requires { class < length self.now }
        ensures class { result ≡ partner_at self.now class }
        ensures within { IfSome result (λ partner. partner < length self.now) }
    {
        let place = self.places.of(self.role(class).opposite())?;
        Some(ClassRef::at(place))
    }

    /// The letter of a class of this schema: the TYP that its DIP leads to if that is one letter A to Z, and else A.
    pub fn letter(&self, class: ClassRef) -> u8
        requires { class < length self.now }
        ensures { Some result ≡ option_map (λ c. c.letter) (class_at self.now class) }
    {
        self.entry(class).letter
    }

    /// Whether the values of a class are numbers: the TYP that its DIP leads to is N or R.
    pub fn is_number(&self, class: ClassRef) -> bool
        requires { class < length self.now }
        ensures { Some result ≡ option_map (λ c. c.is_number) (class_at self.now class) }
    {
        self.entry(class).is_number
    }

    fn entry(&self, class: ClassRef) -> &Class
        requires { class < length self.now }
        ensures { Some result.now ≡ class_at self.now class }
    {
        self.classes.get_index(class.place() as usize).unwrap().1
    }

    /// What each schema keeps.
    pub fn keeps(&self)
        ensures { IsSchema self.now }
    {
        let _ = &self.classes;
    }
}
