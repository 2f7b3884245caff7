// What is told of a step while it is made.
use base_types::Entity;
use std::sync::Wait;

/// What a worker tells of its steps. Its calls may wait, as a test's do that wants two steps at once; nothing is promised of them.
pub trait StepGate {
    /// Whether its calls may wait. Workers whose gate never waits take turns, of some rounds each, instead of contending for the locks of every step.
    fn may_wait(&self) -> bool {
        true
    }

    /// The worker's step touches this entity. It is called for each that the step touches, in ascending number, while the locks of all of them are
    /// held, and neither the store's nor the desk's is.
    fn within<R: Wait>(&self, rt: &R, worker: u32, entity: Entity);

    /// A look at the locus was answered. No lock is held.
    fn answered<R: Wait>(&self, rt: &R, worker: u32, locus: Entity);
}

/// The gate whose calls return at once.
#[derive(Clone, Copy, PartialEq, Eq, Debug)]
pub struct OpenGate;

impl StepGate for OpenGate {
    fn may_wait(&self) -> bool {
        false
    }

    fn within<R: Wait>(&self, _rt: &R, _worker: u32, _entity: Entity) {}

    fn answered<R: Wait>(&self, _rt: &R, _worker: u32, _locus: Entity) {}
}
