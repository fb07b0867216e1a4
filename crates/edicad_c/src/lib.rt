//! The library for C.
#![tactic(auto)]

ghost use Rattle.std.specs.Prelude.{◌≡◌};

pub mod answer;
pub mod comparing;
pub mod content;
pub mod differences;
pub mod explains;
pub mod given;
pub mod handed;
pub mod handle;
mod loose;
pub mod pair;
pub mod pairings;
pub mod schemas;
pub mod sheets;

const VERSION: u32 = 1;

/// The version of this interface.
#[unsafe(no_mangle)]
pub extern "C" fn edicad_version() -> u32
    ensures { result ≡ 1 }
{
    VERSION
}
