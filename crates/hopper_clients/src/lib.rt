//! The public call over a disk, a source and a sink in memory: what a client's contract rests on.
#![tactic(auto)]

mod calling;
mod stopping;
mod tracing;

pub use calling::{
    Called, call, call_on_threads, new_image, one_word, run_words, traced_words, two_words,
};
pub use hopper_top::{OpenGate, StepGate, has_workers, hopper, hopper_counted, serve};
pub use stopping::{Shown, run_and_stop, run_on_threads_and_stop};
pub use tracing::{Checked, trace_and_check, trace_on_threads_and_check};
