//! An open conditional, as one configuration sees it.
ghost use Rattle.std.specs.Prelude.{◌≡◌};
ghost use Rattle.plain.specs.Frames.{first, last, later};

/// What a configuration has of an open conditional and its present branch.
#[derive(Clone, Copy, Debug, PartialEq, Eq)]
pub struct Frame {
    /// Whether the configuration has what encloses the conditional.
    pub around: bool,
    /// Whether a guard of the conditional has held so far.
    pub taken: bool,
    /// Whether the configuration has the present branch.
    pub here: bool,
}

impl Frame {
    /// At the first branch, whose guard holds or not.
    pub fn first(around: bool, holds: bool) -> Frame
        ensures { result ≡ first around holds }
    {
        Frame {
            around,
            taken: holds,
            here: holds && around,
        }
    }

    /// At the next branch, whose guard holds or not.
    pub fn later(self, holds: bool) -> Frame
        ensures { result ≡ later self holds }
    {
        Frame {
            around: self.around,
            taken: holds || self.taken,
            here: holds && !self.taken && self.around,
        }
    }

    /// At the branch that has no guard.
    pub fn last(self) -> Frame
        ensures { result ≡ last self }
    {
        Frame {
            around: self.around,
            taken: self.taken,
            here: !self.taken && self.around,
        }
    }
}
