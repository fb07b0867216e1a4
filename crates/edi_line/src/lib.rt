//! Numbers, lines and zones of an exchange file, and the devices that its bytes come from.
#![tactic(auto)]

pub mod borrowed;
pub mod broken;
pub mod codes;
pub mod device;
pub mod equality;
pub mod fault;
pub mod feed;
pub mod file;
pub mod groups;
mod known;
pub mod lines;
pub mod num;
mod order;
pub mod reading;
pub mod script;
pub mod sequence;
mod spelling;
pub mod text;
pub mod whole;
pub mod zone;
mod zone_list;

pub use borrowed::{BorrowedList, ListOfBorrowed};
pub use broken::{BrokenRule, broken_lines, push_if_broken};
pub use device::{ByteIn, ByteOut, FromRead, ToWrite};
pub use equality::same_bytes;
pub use fault::LineFault;
pub use feed::{Feed, zones_of_pieces};
pub use file::{FileBytes, Pieces};
pub use groups::{GroupOut, read_groups, read_groups_from};
pub use known::{known_lines_are_read, known_numbers_are_read};
pub use lines::lines_are_unique;
pub use num::{Num, numbers_are_unique, push_millionths, push_number, spellings_are_read};
pub use reading::{printed_zones_are_read_again, zones, zones_are_there, zones_are_unique};
pub use script::{ScriptIn, ScriptOut};
pub use sequence::Sequence;
pub use spelling::readings_are_unique;
pub use text::{Text, copy_both_ends};
pub use whole::{Gathering, ReadFault, read_all, read_whole};
pub use zone::Zone;
