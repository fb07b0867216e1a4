//! Why a pairing doesn't carry one plan onto another.

/// Why a pairing doesn't carry the plan of the first sheet onto that of the second: the first of these that is so.
#[derive(Clone, Copy, Debug)]
pub enum Uncarried {
    /// It hasn't one entry for each record of the first sheet.
    Entries,
    /// The sheets have different character sets.
    CharacterSets,
    /// The record at this place of the first sheet isn't carried, each before it is, and this is why it isn't.
    Record { place: u32, why: WrongPartner },
    /// Each record of the first sheet is carried, and this is the least place of the second to which none goes.
    Unmet { place: u32 },
}

/// Why a record isn't carried: the first of these that is so.
#[derive(Clone, Copy, Debug)]
pub enum WrongPartner {
    /// It goes to no place of the second sheet.
    Nowhere,
    /// It goes where an earlier record goes, the one at this place of the first sheet.
    Shared { earlier: u32 },
    /// It and the record that it goes to differ, and this is the first part in which they do.
    Unlike { part: RecordPart },
}

/// What is compared of a record and of the one that it goes to, in this order.
#[derive(Clone, Copy, Debug)]
pub enum RecordPart {
    /// Whether it may be reversed: arcs alone may.
    Reversal,
    /// The type.
    Kind,
    /// The class, which is exchanged with its partner's where a link of one of the four kinds has an arc that is
    /// reversed.
    Class,
    /// The points, which go backwards where their arc is reversed.
    Points,
    /// The zones that have no meaning here, in their order.
    Extras,
    /// The attributes, in any order.
    Attributes,
    /// The ends: the first is the first, the others are the others in any order.
    Ends,
}
