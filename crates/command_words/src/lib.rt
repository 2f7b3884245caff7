//! The words of a command, read.
#![tactic(auto)]

ghost use Rattle.std.specs.Prelude.{IfNone, IfOk, IfSome, map, string_bytes};
ghost use Rattle.command_words.specs.Commands.{IsCommand, IsCopyOf};
ghost use Rattle.command_words.specs.declared.Command.TheVariants.{Copy as CopyCommand};

mod forms;
mod mirrors;
mod numbers;
mod threads;

pub use mirrors::mirror_words;
use std::alloc::{AllocError, Global};

/// What a command asks for.
#[derive(Clone, Copy, Debug, PartialEq, Eq)]
pub enum Command {
    /// An empty image of so many blocks.
    Format(u32),
    /// A run of the script that the source holds.
    Run {
        /// Whether each entry of the history gets a line, in place of the lines that loci print.
        trace: bool,
    },
    /// A run of the script that the source holds, by so many workers on threads.
    RunOnThreads {
        /// From 1 to 16.
        workers: u8,
        /// Whether each entry of the history gets a line, as in `Run`.
        trace: bool,
    },
    /// What the image means.
    Show,
    /// The log of the image, and its cut.
    Report,
    /// A script drawn from this number.
    Drill(u64),
    /// Whether the trace that the source holds is that of a legal history of its script.
    CheckTrace,
    /// A second container in the image, as one that is there. `copied_names` has both names.
    Copy,
}

/// The command that the words stand for, None where they are of no known form. The words are the
/// arguments of a program, without its own name.
pub fn read_command(alloc: Global, words: &[String]) -> Result<Option<Command>, AllocError>
    ensures some { IfOk result (λ r. IfSome r (λ command. IsCommand (map string_bytes words.now) command)) }
    ensures none { IfOk result (λ r. IfNone r ((command : Command) → IsCommand (map string_bytes words.now) command → ⊥)) }
{
    if forms::any_is_refused(words) {
        return Ok(None);
    }
    let Some(first) = words.first() else {
        return Ok(None);
    };
    match first.as_str() {
        "format" => match forms::one_value(alloc, "format", words)? {
            Some(size) => Ok(numbers::read_size(size).map(Command::Format)),
            None => Ok(None),
        },
        "drill" => match forms::one_value(alloc, "drill", words)? {
            Some(seed) => Ok(numbers::read_number(seed).map(Command::Drill)),
            None => Ok(None),
        },
        "run" => match threads::thread_options(words) {
            Some((workers, trace)) => Ok(Some(Command::RunOnThreads { workers, trace })),
            None => Ok(forms::trace_flag(alloc, words)?.map(|trace| Command::Run { trace })),
        },
        "show" => Ok(forms::has_no_value(alloc, "show", words)?.then_some(Command::Show)),
        "report" => Ok(forms::has_no_value(alloc, "report", words)?.then_some(Command::Report)),
        "check-trace" => {
            Ok(forms::has_no_value(alloc, "check-trace", words)?.then_some(Command::CheckTrace))
        }
        "copy" => Ok(forms::has_two_names(words).then_some(Command::Copy)),
        _ => Ok(None),
    }
}

/// Both names of a command `copy`: that of the container, and that of its copy.
pub fn copied_names(words: &[String]) -> (&String, &String)
    requires { IsCommand (map string_bytes words.now) CopyCommand }
    ensures { IsCopyOf (map string_bytes words.now) (string_bytes result.0.now) (string_bytes result.1.now) }
{
    (&words[1], &words[2])
}
