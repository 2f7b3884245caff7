//! The forms of commands, as `clap` reads them.
ghost use Rattle.std.specs.Prelude.{◌≡◌, ◌≢◌, ◌≤◌, ◌↔◌, ℕ, List, [], ◌∷◌, IfErr, IfNone, IfOk, IfSome, IsErrAnd, IsTrue, MatchOption, drop, false, length, map, slice_index, string_bytes};
ghost use Rattle.std.specs.List.{list_any};
ghost use Rattle.clap.specs.Words.{kind_of};
ghost use Rattle.command_words.specs.Commands.{run_words};
ghost use Rattle.command_words.specs.Forms as form;

use clap::error::ErrorKind;
use clap::{Arg, ArgAction, ArgMatches, Error};
use std::alloc::{AllocError, Global};

/// No command has such a word, and `clap` may read more in it than a value.
fn is_refused(word: &String) -> bool
    ensures { result ≡ form.is_refused (string_bytes word.now) }
{
    word.is_empty() || word.as_str() == "--" || word.as_str().as_bytes().contains(&b'=')
}

/// Some word is one that no command has.
pub(crate) fn any_is_refused(words: &[String]) -> bool
    ensures { result ≡ list_any (λ word. form.is_refused (string_bytes word)) words.now }
{
    words.iter().any(|word| is_refused(word))
}

/// None where the words are not of the form that `clap` was given.
fn if_of_form<'a>(
    parsed: Result<ArgMatches<'a>, Error>,
) -> Result<Option<ArgMatches<'a>>, AllocError>
    ensures ok { IfOk result (λ r. MatchOption r (IsErrAnd parsed.entry (λ e. kind_of e ≢ ErrorKind.OutOfMemory)) (λ matches. parsed.entry ≡ Ok matches)) }
    ensures memory { IfErr result (λ _. IsErrAnd parsed.entry (λ e. kind_of e ≡ ErrorKind.OutOfMemory)) }
{
    match parsed {
        Ok(matches) => Ok(Some(matches)),
        Err(error) => match error.kind() {
            ErrorKind::OutOfMemory => Err(AllocError),
            _ => Ok(None),
        },
    }
}

/// Whether no word stands behind the name of the command.
pub(crate) fn has_no_value<'a>(
    alloc: Global,
    name: &'a str,
    words: &'a [String],
) -> Result<bool, AllocError>
    requires { list_any form.is_refused (map string_bytes words.now) ≡ false }
    ensures { IfOk result (λ b. IsTrue b ↔ length words.entry.now ≤ 1) }
{
    let command = clap::Command::new(alloc, name).disable_help_flag(true);
    let matches = if_of_form(command.try_get_matches_from(words))?;
    Ok(matches.is_some())
}

/// The one word behind the command's name. A word that begins with a hyphen is no value.
pub(crate) fn one_value<'a>(
    alloc: Global,
    name: &'a str,
    words: &'a [String],
) -> Result<Option<&'a str>, AllocError>
    requires { list_any form.is_refused (map string_bytes words.now) ≡ false }
    ensures some { IfOk result (λ r. IfSome r (λ value. (first : List ℕ) × (map string_bytes words.entry.now ≡ first ∷ value.now ∷ []))) }
    ensures none { IfOk result (λ r. IfNone r ((first value : List ℕ) → map string_bytes words.entry.now ≡ first ∷ value ∷ [] → slice_index value 0 ≡ 45)) }
{
    let value = Arg::new(alloc, "number").required(true);
    let command = clap::Command::new(alloc, name)
        .disable_help_flag(true)
        .arg(value)?;
    let matches = if_of_form(command.try_get_matches_from(words))?;
    match matches {
        Some(found) => Ok(found.get_str("number")),
        None => Ok(None),
    }
}

// Whether a word begins with no hyphen: such a word is no name, but an option.
fn is_name(word: &String) -> bool
    ensures { result ≡ form.is_name (string_bytes word.now) }
{
    match word.as_str().as_bytes().first() {
        Some(byte) => *byte != b'-',
        None => true,
    }
}

/// Whether two words stand behind the name of the command, neither of which begins with a hyphen.
pub(crate) fn has_two_names(words: &[String]) -> bool
    ensures { result ≡ form.has_two_names (map string_bytes words.now) }
{
    if words.len() != 3 {
        return false;
    }
    is_name(&words[1]) && is_name(&words[2])
}

/// Whether `--trace` stands behind the name of a run. None where other words do.
pub(crate) fn trace_flag(alloc: Global, words: &[String]) -> Result<Option<bool>, AllocError>
    requires { list_any form.is_refused (map string_bytes words.now) ≡ false }
    ensures some { IfOk result (λ r. IfSome r (λ trace. drop 1 (map string_bytes words.now) ≡ run_words trace)) }
    ensures none { IfOk result (λ r. IfNone r ((trace : _) → drop 1 (map string_bytes words.now) ≡ run_words trace → ⊥)) }
{
    let flag = Arg::new(alloc, "trace")
        .long("trace")
        .action(ArgAction::SetTrue);
    let command = clap::Command::new(alloc, "run")
        .disable_help_flag(true)
        .arg(flag)?;
    let matches = if_of_form(command.try_get_matches_from(words))?;
    match matches {
        Some(found) => Ok(Some(found.get_flag("trace"))),
        None => Ok(None),
    }
}
