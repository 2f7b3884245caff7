// What a trace spells: the legal histories whose lines it is, and the first line that goes wrong. Of code there is a law
// alone, as the contract of a function that does nothing.
ghost use Rattle.std.specs.Prelude.{◌≡◌, ◌++◌, List};
ghost use Rattle.base_types.specs.declared.histories.Entry.{Entry};
ghost use Rattle.line_text.specs.model_kernel.Histories.{Run, run_after};
ghost use Rattle.line_text.specs.model_kernel.Scripts.{Script};
ghost use Rattle.line_text.specs.model_kernel.State.{Supply};
ghost use Rattle.trace_facts.specs.Traces.{spelled};

/// The lines of a history are those of its front, and then those of the rest where the front ends.
pub fn joined_law()
    ensures { (s : Supply) (script : Script) (r : Run) (es fs : List Entry) → spelled s script r (es ++ fs) ≡ spelled s script r es ++ spelled s script (run_after s script r es) fs }
{}
