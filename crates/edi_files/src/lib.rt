//! Files and streams of the system: how paths are opened and replaced, and why that may fail.
#![tactic(auto)]

pub mod disk;
pub mod folder;
pub mod listing;
pub mod output;
pub mod product;
pub mod progress;
pub mod reason;
pub mod system;

pub use disk::Disk;
pub use folder::{Destination, FileDraft, Folder, OutFault};
pub use listing::Listing;
pub use product::Product;
pub use progress::Progress;
pub use reason::{Reason, push_reason, reason_text};
pub use system::{CommandLine, Errors, WordSource};
