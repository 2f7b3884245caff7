ghost use Rattle.act_alone.specs.model_acts.Views.{IsReadyLocus};
ghost use Rattle.act_alone.specs.Loci.{locus_of};

use crate::own::OwnPages;
use act_alone::{Head, Locus};
use base_types::{Answer, Condition, Entity};
use page_store::PageFault;
use std::marker::Model;

/// A locus that makes what touches it alone, and looks.
#[derive(Drop)]
pub struct Looker {
    locus: Locus,
}

impl Model for Looker {
    ghost use Rattle.page_store.specs.model_kernel.State.{LocusState};
    ghost use Rattle.act_alone.specs.model_acts.Views.{IsReadyLocus};
    ghost use Rattle.act_alone.specs.Loci.{locus_of};

    ghost Value = { LocusState };

    ghost view = { λ l. locus_of l.locus };

    ghost invariant = { λ l. IsReadyLocus (locus_of l.locus) };
}

impl Looker {
    /// Starts with this locus.
    pub fn new(locus: Locus) -> Looker
        requires { IsReadyLocus (locus_of locus) }
    {
        Looker { locus }
    }

    /// What the locus touches besides itself, if it runs.
    pub fn at(&self) -> Option<Entity> {
        if self.locus.condition != Condition::Running {
            return None;
        }
        self.locus.wants().other
    }

    /// A step: an act that touches the locus alone, or a look at this container. None of other acts, and of a locus
    /// that doesn't run.
    pub fn step(&mut self, own: &mut OwnPages, head: &Head) -> Option<Result<Answer, PageFault>> {
        if self.locus.condition != Condition::Running {
            return None;
        }
        let act = self.locus.wants();
        if act.atlas || act.newborn.is_some() {
            return None;
        }
        if act.other.is_some() {
            return own.look(&mut self.locus, head);
        }
        Some(Ok(self.locus.local()))
    }
}
