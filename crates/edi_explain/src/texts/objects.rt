//! The texts of the rules of objects.

use crate::text::RuleText;

/// Rule 501.
pub(crate) static OBJECTS: [RuleText; 1] = [RuleText {
    rule: 501,
    sentence: "an object with the class, attributes, extras and pieces of an earlier object",
    reason: "Two objects of which the sheet says the same are one object that was written twice.",
    cause: "An object was copied, or an object lost the links or attributes that set it apart from another.",
    remedy: "Tell the producer both lines, and ask which of the two objects holds, or what sets them apart.",
}];
