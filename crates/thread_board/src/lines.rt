//! What the table keeps.
ghost use Rattle.std.specs.Prelude.{◌≡◌};

/// A commit of a store, or the stop that ended its commits.
pub trait Line {
    ghost use Rattle.std.specs.Prelude.{Bool};

    ghost stops: { Self → Bool };

    /// Whether it is a stop.
    fn stops(&self) -> bool
        ensures { result ≡ stops self.now };
}

/// An item of a pass. It covers the places of a history from `starts` up to `ends`. One of no entry covers none, and both say
/// after how many entries it is true.
pub trait Placed: Drop {
    ghost use Rattle.std.specs.Prelude.{ℕ};

    ghost starts: { Self → ℕ };

    ghost ends: { Self → ℕ };
}
