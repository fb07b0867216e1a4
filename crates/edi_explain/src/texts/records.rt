//! The texts of the rules of records.

use crate::text::RuleText;

/// The rules 201 to 208.
pub(crate) static RECORDS: [RuleText; 8] = [
    RuleText {
        rule: 201,
        sentence: "the type isn't one of the five",
        reason: "Only nodes, arcs, faces, objects and links make a plan.",
        cause: "A record of another file, such as one of the classes, stands in the sheet, or its type is misspelled.",
        remedy: "Look whether the file is the VEC file of the sheet; if it is, tell the producer the line and the \
            type.",
    },
    RuleText {
        rule: 202,
        sentence: "not exactly one RID in form",
        reason: "Links name a record by its identifier, in pointers that are parted by semicolons; so it needs one, and one that a pointer can hold.",
        cause: "RID is missing, stands twice, is empty, is too long or holds a semicolon.",
        remedy: "Tell the producer the line; a record has one RID of 1 to 255 bytes without a semicolon.",
    },
    RuleText {
        rule: 203,
        sentence: "not exactly one SCP that is a pointer",
        reason: "The class says what a record is; a record has one.",
        cause: "SCP is missing or stands twice, or its value has not just three semicolons.",
        remedy: "Tell the producer the line; a record has one SCP of the form lot;subset;type;identifier.",
    },
    RuleText {
        rule: 204,
        sentence: "an ATP is no pointer; an ATV with no open attribute; a second TEX in one",
        reason: "A value or a character set belongs to the attribute that stands before it, and an attribute's class is named by a pointer.",
        cause: "The zones ATP, TEX and ATV were put in another order, or ATP is missing or isn't of the form lot;subset;type;identifier.",
        remedy: "Tell the producer the line; an attribute is ATP, then TEX or nothing, then ATV.",
    },
    RuleText {
        rule: 205,
        sentence: "ATC, PTC or FTC repeated, not digits, or not the count",
        reason: "The counts of attributes, points and ends show that nothing was lost between them.",
        cause: "A point, an end or an attribute was added or removed by hand and its count was not changed, or lines are missing.",
        remedy: "Fetch the file again, since lines may be missing; if it says the same, tell the producer the line \
            of the count.",
    },
    RuleText {
        rule: 206,
        sentence: "a COR of a node or arc is no coordinate; a node without exactly one; an arc with fewer than two",
        reason: "A node is one position; an arc joins two or more.",
        cause: "A COR is missing, stands twice at a node, or isn't two or three numbers parted by semicolons; or a number has too many digits or a comma.",
        remedy: "Tell the producer the line; a position is x;y; with a point before the decimals, and a node has \
            one, an arc two or more.",
    },
    RuleText {
        rule: 207,
        sentence: "an FTP is no pointer; a link with fewer than two ends; SNS before any FTP, or twice for one",
        reason: "A link joins two records or more, which it names by pointers, and a direction belongs to the end before it.",
        cause: "An FTP is missing or isn't of the form lot;subset;type;identifier, or SNS stands before the first FTP or twice behind one.",
        remedy: "Tell the producer the line; a link has two ends or more, each with one SNS at most behind it.",
    },
    RuleText {
        rule: 208,
        sentence: "an extra with format `P` and a value that isn't empty",
        reason: "A pointer that this profile doesn't know would be lost, and with it something that the sheet says.",
        cause: "The producer uses a zone of format P that isn't in the table of zones.",
        remedy: "Ask the producer what the zone says; a sheet with one that isn't empty can't be read.",
    },
];
