//! The zones of which there should be one.

ghost use Rattle.std.specs.Prelude.{◌≡◌};
ghost use Rattle.edi_record.specs.inner.Stored.{with_next, the_one};

/// What is stored of such zones: that there is none, what the one says, or that there are more.
pub(crate) enum Only<T> {
    Absent,
    One(T),
    Repeated,
}

impl<T: Drop> Drop for Only<T> {
    // Each record has some, and a call for each would take more than to let it go.
    #[inline(always)]
    fn drop(self) {
        match self {
            Only::Absent => {}
            Only::One(_) => {}
            Only::Repeated => {}
        }
    }
}

impl<T: Drop> Only<T> {
    /// Takes what the next zone says.
    pub(crate) fn take(&mut self, next: T)
        ensures { self.new ≡ with_next self.old next }
    {
        *self = match self {
            Only::Absent => Only::One(next),
            Only::One(_) | Only::Repeated => Only::Repeated,
        };
    }

    /// What the one says, if there is one.
    pub(crate) fn into_one(self) -> Option<T>
        ensures { result ≡ the_one self }
    {
        match self {
            Only::One(said) => Some(said),
            Only::Absent | Only::Repeated => None,
        }
    }
}
