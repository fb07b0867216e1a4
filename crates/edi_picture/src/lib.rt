//! Plans of sheets as pictures, in SVG.
#![tactic(auto)]

mod canvas;
pub mod drawing;
mod ends;
mod faces;
mod frame;
pub mod known;
mod labels;
pub mod laws;
mod layers;
mod legend;
pub mod mark;
mod rounds;
pub mod shown;
mod titles;
mod writing;

pub use drawing::picture;
pub use mark::Mark;
pub use shown::{Looks, Shown};
