//! The texts of the rules of schemas.

use crate::text::RuleText;

/// The rules 601 to 604.
pub(crate) static SCHEMAS: [RuleText; 4] = [
    RuleText {
        rule: 601,
        sentence: "a record without exactly one RID in form",
        reason: "Classes and words are named by type and identifier.",
        cause: "RID is missing, stands twice, is empty, is too long or holds a semicolon.",
        remedy: "Tell the producer the line; a record has one RID of 1 to 255 bytes without a semicolon.",
    },
    RuleText {
        rule: 602,
        sentence: "type and identifier of an earlier record of the file",
        reason: "Classes and words are named by type and identifier; where two have the same, nobody can say which one is meant.",
        cause: "A record was copied, or two files were joined.",
        remedy: "Give each file by itself, as it was delivered; if it came so, tell the producer both lines.",
    },
    RuleText {
        rule: 603,
        sentence: "the first DIP of an SCD record is no pointer, or names no DIC record",
        reason: "The word of a class says whether its values are numbers; it stands in the DIC file.",
        cause: "The DIC file belongs to another delivery, or DIP is misspelled.",
        remedy: "Use the DIC file that was delivered with the SCD file; if it is the one, tell the producer the \
            line and the word.",
    },
    RuleText {
        rule: 604,
        sentence: "two classes of one kind, a class of a kind without one of its partner's kind, or a class whose \
            type holds `;` while its partner's holds none",
        reason: "A link of one of the four kinds is written with one class, and an arc that is turned needs the class of the other side.",
        cause: "The codes of --kinds are those of another producer, or the SCD file defines a class twice or lacks one of the four.",
        remedy: "Check the four codes against the KND values of the SCD file, and name them with --kinds; if they \
            are right, ask the producer for an SCD file with one class for each kind.",
    },
];
