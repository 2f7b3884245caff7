//! The law that the line of an entry tells the entry. The function does nothing: its contract is the law.
#![tactic(auto)]

ghost use Rattle.std.specs.Prelude.{◌≡◌};
ghost use Rattle.base_types.specs.declared.histories.Entry.{Entry};
ghost use Rattle.line_entries.specs.model_kernel.State.{AtlasState};
ghost use Rattle.line_entries.specs.Entries.{entry_text};
ghost use Rattle.line_entry_laws.specs.Telling.{HasCleanNames, IsWritten, TellsSame};

/// Two entries with one line, by names of letters, digits, `_`, `-` and `.`, record the same event of entities with the same
/// name, with the same touches, versions and answer. So a load's `read 0` is no other answer's `reply 0`, and the line of
/// an entry that may be next is that of no other.
pub fn told_law()
    ensures { (a : AtlasState) (e f : Entry) → HasCleanNames a → IsWritten e → IsWritten f → entry_text a e ≡ entry_text a f → TellsSame a e f }
{}
