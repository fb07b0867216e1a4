//! The texts of the rules of topology.

use crate::text::RuleText;

/// The rules 401 to 406.
pub(crate) static TOPOLOGY: [RuleText; 6] = [
    RuleText {
        rule: 401,
        sentence: "the initial node isn't at the arc's first point",
        reason: "An arc begins where its initial node is.",
        cause: "The node or the arc was moved alone, the points of the arc were reversed, or initial and final were exchanged.",
        remedy: "Check that the codes of --kinds for initial and final aren't exchanged; if they aren't, tell the \
            producer the line of the arc.",
    },
    RuleText {
        rule: 402,
        sentence: "the final node isn't at the arc's last point",
        reason: "An arc ends where its final node is.",
        cause: "The node or the arc was moved alone, the points of the arc were reversed, or initial and final were exchanged.",
        remedy: "Check that the codes of --kinds for initial and final aren't exchanged; if they aren't, tell the \
            producer the line of the arc.",
    },
    RuleText {
        rule: 403,
        sentence: "a node with the position, class, attributes and extras of an earlier node",
        reason: "Two nodes at one position with the same class, attributes and extras are one node that was written twice.",
        cause: "Sheets were joined and their nodes were not merged, or a node was copied.",
        remedy: "Tell the producer both lines, and ask for a sheet in which the two nodes are one.",
    },
    RuleText {
        rule: 404,
        sentence: "an arc whose points equal their reverse",
        reason: "The points of an arc give it a direction; an arc that reads the same both ways has none.",
        cause: "The arc runs out and back over the same points, or all its points are one position.",
        remedy: "Tell the producer the line, and ask for a sheet without the arc, or with one that is cut where it \
            turns back.",
    },
    RuleText {
        rule: 405,
        sentence: "an arc with an earlier arc's points, in either direction",
        reason: "Two arcs with the same points are one line that was drawn twice.",
        cause: "A common boundary was drawn once for each side, or sheets were joined and their arcs were not merged.",
        remedy: "Tell the producer both lines, and ask for a sheet in which the two arcs are one.",
    },
    RuleText {
        rule: 406,
        sentence: "a face on no side of an arc",
        reason: "A face is what arcs bound; without one it has no place in the plan.",
        cause: "The links that put it left or right of its arcs are missing or have unusual codes, or it was left over when two parcels were joined.",
        remedy: "Where the schema has other codes for the links to faces, name them with --kinds; else tell the \
            producer the line of the face.",
    },
];
