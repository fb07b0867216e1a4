//! The texts of the rules of lines.

use crate::text::RuleText;

/// The rules 101 to 110.
pub(crate) static LINES: [RuleText; 10] = [
    RuleText {
        rule: 101,
        sentence: "a line that isn't skipped has no head in form",
        reason: "A zone begins with its code, nature, format, the length of its value and a colon; without them nothing says what the line holds.",
        cause: "The file was edited by hand, saved in another form or joined from pieces, or it is no EDIGéO file.",
        remedy: "Look whether it is the file as it was delivered, unpacked and not stored by an editor, and fetch \
            it again; if it says the same, tell the producer the line.",
    },
    RuleText {
        rule: 102,
        sentence: "fewer bytes follow the head than its length says",
        reason: "The head says how many bytes the value has; where fewer are there, part of the value is lost.",
        cause: "The line was cut, a value was changed by hand and its length wasn't, or the text was converted, so that letters take other numbers of bytes.",
        remedy: "Take the file as it was delivered, or fetch it again; if it says the same, tell the producer the \
            line.",
    },
    RuleText {
        rule: 103,
        sentence: "a byte other than a space follows the value",
        reason: "The head says how many bytes the value has; what stands behind them would be lost without a word.",
        cause: "A value was made longer by hand and its length was not changed, or the character set was converted, or two lines were joined.",
        remedy: "Take the file as it was delivered, or fetch it again; if it says the same, tell the producer the \
            line.",
    },
    RuleText {
        rule: 104,
        sentence: "NEX with no zone or remark before it",
        reason: "A NEX line goes on with the value of the line before it; at the head of a file there is none.",
        cause: "The first lines of the file are missing.",
        remedy: "Fetch the file again; if it says the same, tell the producer that its first lines are missing.",
    },
    RuleText {
        rule: 105,
        sentence: "the first zone isn't BOM",
        reason: "A file begins with BOM, so that a part of a file is not taken for the whole.",
        cause: "The first line of the file is missing, or other text stands in front of it.",
        remedy: "Look whether it is the file as it was delivered, and fetch it again; if it says the same, tell the \
            producer.",
    },
    RuleText {
        rule: 106,
        sentence: "there is no EOM",
        reason: "A file ends with EOM, so that a file that was cut is not taken for the whole.",
        cause: "The file was cut: a transfer stopped, or a disk was full.",
        remedy: "Fetch the file again; don't write EOM by hand, since something else may be missing too. If it says \
            the same, tell the producer.",
    },
    RuleText {
        rule: 107,
        sentence: "a zone after the first EOM",
        reason: "EOM is the end of the file; a zone behind it belongs to no file.",
        cause: "Two files were joined, or a zone was added at the end.",
        remedy: "Give each file by itself, as it was delivered; if it came so, tell the producer both lines.",
    },
    RuleText {
        rule: 108,
        sentence: "a BOM after a BOM; a CSE after a CSE or after an RTY",
        reason: "A file has one beginning and one character set, and the character set is known before the first record.",
        cause: "Two files were joined, or a header was copied into the records.",
        remedy: "Give each file by itself, as it was delivered; if it came so, tell the producer both lines.",
    },
    RuleText {
        rule: 109,
        sentence: "a zone other than BOM, CSE, EOM, RTY with no RTY before it",
        reason: "Each zone between the header and EOM belongs to a record, and RTY begins one.",
        cause: "The RTY of the first record is missing, or the header has a zone that this profile doesn't read.",
        remedy: "Fetch the file again; if it says the same, tell the producer the line.",
    },
    RuleText {
        rule: 110,
        sentence: "the RTY of record 10,000,000",
        reason: "A sheet has 9,999,999 records at most, so that every record has a number of its own that fits.",
        cause: "Many sheets were joined to one file.",
        remedy: "Give each sheet by itself, as it was delivered.",
    },
];
