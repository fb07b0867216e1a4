/// The first node or the first arc that repeats an earlier one, and the first that it repeats, by their places from 0.
#[derive(Drop)]
pub(crate) struct Repeat {
    pub(crate) place: u32,
    pub(crate) earlier: u32,
}
