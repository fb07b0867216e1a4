//! The texts of the rules of references.

use crate::text::RuleText;

/// The rules 301 to 307.
pub(crate) static REFERENCES: [RuleText; 7] = [
    RuleText {
        rule: 301,
        sentence: "type and identifier of an earlier record",
        reason: "Links name records by type and identifier; where two have the same, nobody can say which one is meant.",
        cause: "A record was copied and its identifier was not changed, or two sheets were joined.",
        remedy: "Give each sheet by itself, as it was delivered; if it came so, tell the producer both lines.",
    },
    RuleText {
        rule: 302,
        sentence: "SCP names no class",
        reason: "The class of a record is one of the classes that the SCD file defines.",
        cause: "The SCD file belongs to another delivery, or the class is misspelled.",
        remedy: "Use the SCD file that was delivered with the sheet; if it is the one, tell the producer the line \
            and the class.",
    },
    RuleText {
        rule: 303,
        sentence: "an ATP's type isn't ATT, or it names no class",
        reason: "The class of an attribute is of type ATT and is one of those that the SCD file defines.",
        cause: "The SCD file belongs to another delivery, or the class is misspelled.",
        remedy: "Use the SCD file that was delivered with the sheet; if it is the one, tell the producer the line \
            and the class.",
    },
    RuleText {
        rule: 304,
        sentence: "an end with another lot or subset than the first end of all links",
        reason: "All links of a sheet name records of one lot and one subset, those of the sheet itself.",
        cause: "Two sheets were joined, or a link names a record of another VEC file of the delivery.",
        remedy: "Give each sheet by itself, as it was delivered. A sheet is read alone: one whose links name \
            records of another VEC file of the delivery can't be read, so ask the producer for sheets that are \
            whole by themselves.",
    },
    RuleText {
        rule: 305,
        sentence: "an end names no node, arc, face or object",
        reason: "An end of a link is a node, an arc, a face or an object of the sheet.",
        cause: "The record was removed or renamed and its link stayed, the pointer is misspelled, or the record stands in another file.",
        remedy: "Look whether another VEC file of the delivery has the record: a sheet is read alone, so such a \
            link can't be read. If none has it, tell the producer the line and the name.",
    },
    RuleText {
        rule: 306,
        sentence: "a link of a kind that doesn't join one arc to one node (initial, final) or one face (left, right)",
        reason: "A link to an initial or a final node joins one arc and one node; a link to a left or a right face joins one arc and one face.",
        cause: "The link has the class of another relation, or an end too many, or names a record of another type.",
        remedy: "Check that the four codes of --kinds are those of the producer, and that the SCD file is the one \
            that was delivered with the sheet; if they are, tell the producer the line.",
    },
    RuleText {
        rule: 307,
        sentence: "a link of a kind whose arc has an earlier link of that kind",
        reason: "An arc has at most one initial node, one final node, one left face and one right face.",
        cause: "A link was copied, or an arc was split and the links of its parts were not parted.",
        remedy: "Tell the producer the lines of both links, and ask which of the two holds.",
    },
];
