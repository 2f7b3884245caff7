//! The options of a run on threads, which are read by hand.
ghost use Rattle.std.specs.Prelude.{◌≡◌, ◌↔◌, ℕ, Bool, IfNone, IfSome, IsTrue, List, codes, drop, map, string_bytes};
ghost use Rattle.command_words.specs.Commands.{AreOptionsWith, AreThreadOptions};

use crate::numbers::read_workers;

fn is_trace(word: &String) -> bool
    ensures { IsTrue result ↔ string_bytes word.now ≡ codes "--trace" }
{
    word.as_str() == "--trace"
}

fn is_workers(word: &String) -> bool
    ensures { IsTrue result ↔ string_bytes word.now ≡ codes "--workers" }
{
    word.as_str() == "--workers"
}

// The word behind `--workers`, and whether `--trace` stands before or behind both.
fn options_of(words: &[String]) -> Option<(&str, bool)>
    ensures some { IfSome result (λ r. AreOptionsWith (drop 1 (map string_bytes words.now)) r.0.now r.1) }
    ensures none { IfNone result ((digits : List ℕ) (trace : Bool) → AreOptionsWith (drop 1 (map string_bytes words.now)) digits trace → ⊥) }
{
    match words {
        [_, option, number] if is_workers(option) => Some((number.as_str(), false)),
        [_, flag, option, number] if is_trace(flag) && is_workers(option) => {
            Some((number.as_str(), true))
        }
        [_, option, number, flag] if is_workers(option) && is_trace(flag) => {
            Some((number.as_str(), true))
        }
        _ => None,
    }
}

/// How many workers a run on threads has, and whether it is traced. None where other words stand behind the command's name. It takes no memory.
pub(crate) fn thread_options(words: &[String]) -> Option<(u8, bool)>
    ensures some { IfSome result (λ r. AreThreadOptions (drop 1 (map string_bytes words.now)) r.0 r.1) }
    ensures none { IfNone result ((workers : ℕ) (trace : Bool) → AreThreadOptions (drop 1 (map string_bytes words.now)) workers trace → ⊥) }
{
    match options_of(words) {
        Some((number, trace)) => read_workers(number).map(|workers| (workers, trace)),
        None => None,
    }
}
