/// What becomes of an object that is to be put into a dictionary.
#[derive(Clone, Copy, Debug, PartialEq, Eq)]
pub enum Put {
    /// It is one of the objects now.
    New,
    /// One of a set's objects has its key, and nothing changed.
    Old,
    /// The region has no room for it, and gets no further segment: its discipline refused one, or it has as many as it can
    /// have. No object changed.
    NoSegment,
    /// No memory for a further segment. No object changed.
    OutOfMemory,
    /// It has no byte, or more than 1,024. Nothing changed.
    WrongSize,
}

impl Put {
    ghost use Rattle.std.specs.Prelude.{◌≡◌};
    ghost use Rattle.vc_store.specs.Answers.{is_there};

    /// Whether an object of its key is there now: it, or the one that a set had.
    pub fn is_there(self) -> bool
        ensures { result ≡ is_there self }
    {
        match self {
            Put::New | Put::Old => true,
            Put::NoSegment | Put::OutOfMemory | Put::WrongSize => false,
        }
    }
}
