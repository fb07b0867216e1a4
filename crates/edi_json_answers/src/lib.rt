//! What a run came to, digests, words and all that sheets break, as lines of JSON (docs/JSON.md, from "Answers" on).
#![tactic(auto)]

pub mod answers;
pub mod broken_sheets;
pub mod digests;
pub mod known;
pub mod known_sheets;
mod parts;
pub mod refusals;
pub mod told;

pub use answers::json_of;
pub use broken_sheets::{RuleCount, all_broken_json, rule_counts_json};
