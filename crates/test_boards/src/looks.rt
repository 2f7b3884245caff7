// What items tell, with nothing that only contracts see.
use base_types::Entity;
use kernel_core::{Idle, Stopped};
use thread_workers::{Came, LookItem};

/// How a look went.
#[derive(Clone, Copy, PartialEq, Eq, Debug)]
pub(crate) enum Went {
    Made,
    Idle(Idle),
    Stopped(Stopped),
    StoppedBehind(Stopped),
}

/// A look at a locus, after so many entries of the history.
#[derive(Clone, Copy, PartialEq, Eq, Debug)]
pub(crate) struct Look {
    pub(crate) locus: Entity,
    pub(crate) place: u64,
    pub(crate) went: Went,
}

/// How the look of an item went.
pub(crate) fn went_of(item: &LookItem) -> Went {
    match &item.came {
        Came::Made(_) => Went::Made,
        Came::Idle(why) => Went::Idle(*why),
        Came::Stopped(why) => Went::Stopped(*why),
        Came::StoppedBehind(_, why) => Went::StoppedBehind(*why),
    }
}

impl Look {
    /// What an item tells.
    pub(crate) fn of(item: &LookItem) -> Look {
        Look {
            locus: item.locus,
            place: item.place,
            went: went_of(item),
        }
    }

    /// Whether a step was made.
    pub(crate) fn has_step(&self) -> bool {
        matches!(self.went, Went::Made | Went::StoppedBehind(_))
    }
}
