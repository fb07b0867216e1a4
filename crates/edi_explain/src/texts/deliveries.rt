//! The texts of the rules of deliveries.

use crate::text::RuleText;

/// The rules 701 to 711.
pub(crate) static DELIVERIES: [RuleText; 11] = [
    RuleText {
        rule: 701,
        sentence: "the type is neither GTS nor GTL",
        reason: "A THF file has records of two types, GTS for the support and GTL for a lot; what another one says of \
            the delivery would be lost.",
        cause: "It is no THF file, but an SCD or a VEC that was given in its place, or two files were joined.",
        remedy: "Give the THF file of the delivery; where it is the one, fetch the delivery again, and tell the \
            producer if it says the same.",
    },
    RuleText {
        rule: 702,
        sentence: "a lot without exactly one LON",
        reason: "The names of a lot's files begin with the name of the lot; without just one, nobody can say which \
            files they are.",
        cause: "The program that wrote the THF file leaves LON out or repeats it, or lines of the file are missing.",
        remedy: "Fetch the delivery again; if the THF file says the same, ask the producer for a right one. Until \
            then edicad hash answers the sheets, by the paths of their files.",
    },
    RuleText {
        rule: 703,
        sentence: "the LON of a lot is no part of a name",
        reason: "The name of a lot becomes a part of the names of files; with a point or a slash in it, these could \
            lead out of the folder.",
        cause: "The producer gives lots names with spaces, points or accents, or LON is empty or longer than 125 \
            bytes; or the file was made to lead a reader elsewhere.",
        remedy: "Ask the producer for a delivery whose lots are named by letters, digits, _ and -. Until then edicad \
            hash answers the sheets, by the paths of their files.",
    },
    RuleText {
        rule: 704,
        sentence: "a lot without exactly one SCN",
        reason: "SCN names the file of the classes, under which all sheets of the lot are read; a lot has one.",
        cause: "The lot has no SCD file of its own or has several, or lines of the THF file are missing.",
        remedy: "Fetch the delivery again; if the THF file says the same, ask the producer for one that names one SCD \
            file for each lot. Until then edicad hash answers the sheets, by the paths of their files.",
    },
    RuleText {
        rule: 705,
        sentence: "a lot without exactly one DIN",
        reason: "DIN names the dictionary, which says of each class whether its values are numbers; a lot has one.",
        cause: "The lot has no DIC file of its own or has several, or lines of the THF file are missing.",
        remedy: "Fetch the delivery again; if the THF file says the same, ask the producer for one that names one DIC \
            file for each lot. Until then edicad hash answers the sheets, by the paths of their files.",
    },
    RuleText {
        rule: 706,
        sentence: "a lot without a GDN; GDC repeated, not digits, or not the count of GDN",
        reason: "A lot has sheets, and their count shows that none is missing from the list.",
        cause: "Lines of the THF file are missing, or sheets were added to a delivery or taken out of it and the \
            count was not changed.",
        remedy: "Fetch the delivery again; if the THF file says the same, ask the producer which sheets the lot has. \
            Until then edicad hash answers those that are there, by the paths of their files.",
    },
    RuleText {
        rule: 707,
        sentence: "more than one GNN, GON or QAN in a lot",
        reason: "A lot has at most one file of general data, one of the coordinate system and one of quality; where \
            there are two, nobody can say which one holds.",
        cause: "Two lots were written as one, or the program that wrote the THF file repeats these zones for each \
            sheet.",
        remedy: "Fetch the delivery again; if the THF file says the same, ask the producer which file holds. Until \
            then edicad hash answers the sheets, by the paths of their files.",
    },
    RuleText {
        rule: 708,
        sentence: "an SCN, DIN, GNN, GON, QAN or GDN of a lot is no part of a name",
        reason: "The own name of a file stands between the name of its lot and its extension; with a point or a slash \
            in it, the whole could lead to another file or out of the folder.",
        cause: "The THF file gives whole names with their extension, or paths, or names with spaces or accents, or a \
            value is empty or longer than 125 bytes; or the file was made to lead a reader elsewhere.",
        remedy: "Ask the producer for a THF file with own names of letters, digits, _ and -. Until then edicad hash \
            answers the sheets, by the paths of their files.",
    },
    RuleText {
        rule: 709,
        sentence: "a lot has the same name as an earlier lot",
        reason: "The names of a lot's files begin with the name of the lot, so lots need names of their own; upper \
            and lower case count as the same, since some disks don't distinguish them.",
        cause: "A lot was written twice, or the THF files of two deliveries were joined.",
        remedy: "Take each delivery by its own THF file, in a folder of its own; if the file came as it is, ask the \
            producer which of the two lots holds.",
    },
    RuleText {
        rule: 710,
        sentence: "two files of a lot have the same name, or one of its files has that of a file of an earlier lot",
        reason: "Each file has one place in a delivery, so that each sheet is answered once; upper and lower case \
            count as the same, since some disks don't distinguish them.",
        cause: "A sheet stands in the list twice, or the names of two lots and their files come to one, as those of \
            lot A with file BC and of lot AB with file C.",
        remedy: "Fetch the delivery again; if the THF file says the same, ask the producer which lot the file belongs \
            to. Until then edicad hash answers the sheets, by the paths of their files.",
    },
    RuleText {
        rule: 711,
        sentence: "there is no lot",
        reason: "A delivery has a lot at least; without one nothing would be answered, as if all were well.",
        cause: "The THF file was cut behind its support, or it is another file.",
        remedy: "Look whether it is the THF file of the delivery, and fetch the delivery again.",
    },
];
