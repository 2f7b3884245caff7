//! The two forms of a locus's blob.
ghost use Rattle.std.specs.Prelude.{◌≡◌, ◌≤◌, IfOk, IfErr};
ghost use Rattle.blob_facts.specs.Fields.{IsFound, IsRefused, Spells};
ghost use Rattle.blob_reading.specs.Loci.{IsFormSpelled, IsPrintedSpelled, least_privates as fewest_privates, most_calls as greatest_calls, most_privates as greatest_privates};

use crate::fields::{Parsed, read_byte, read_number};
use base_types::{MOST_CALLS, MOST_PRINTED, MOST_PRIVATES};
use blob_grammar::{LONG_LOCUS, SHORT_CALLS, SHORT_LOCUS, SHORT_PRIVATES};

/// A form of a locus's blob. A locus has the short one where it can have it.
#[derive(Clone, Copy)]
pub(crate) enum Form {
    /// Without a count of printed values, which is 0, and with fewer calls and private regions.
    Short,
    Long,
}

impl Form {
    /// The calls in this form at most.
    pub(crate) fn most_calls(self) -> u8
        ensures most { result ≡ greatest_calls self }
        ensures few { result ≤ MOST_CALLS }
    {
        match self {
            Form::Short => SHORT_CALLS,
            Form::Long => MOST_CALLS as u8,
        }
    }

    /// The private regions in this form at most.
    pub(crate) fn most_privates(self) -> u8
        ensures most { result ≡ greatest_privates self }
        ensures few { result ≤ MOST_PRIVATES }
    {
        match self {
            Form::Short => SHORT_PRIVATES,
            Form::Long => MOST_PRIVATES as u8,
        }
    }

    /// The private regions in this form at least, behind so many printed values and calls.
    pub(crate) fn least_privates(self, printed: u64, calls: usize) -> u8
        ensures least { result ≡ fewest_privates self printed calls }
        ensures some { result ≤ greatest_privates self }
    {
        match self {
            Form::Long if printed == 0 && calls <= SHORT_CALLS as usize => SHORT_PRIVATES + 1,
            _ => 0,
        }
    }
}

/// The form of a locus's blob.
pub(crate) fn read_form<'a>(bytes: &'a [u8]) -> Parsed<'a, Form>
    ensures read { IfOk result (λ r. IsFound IsFormSpelled bytes.now r.0 r.1.now) }
    ensures refused { IfErr result (λ stuck. IsRefused (Spells IsFormSpelled) bytes.now stuck.rest.now) }
{
    let (form, rest) = read_byte(bytes, SHORT_LOCUS, LONG_LOCUS)?;
    if form == SHORT_LOCUS {
        Ok((Form::Short, rest))
    } else {
        Ok((Form::Long, rest))
    }
}

/// How many values a locus has printed, in a blob of this form.
pub(crate) fn read_printed<'a>(bytes: &'a [u8], form: Form) -> Parsed<'a, u64>
    ensures read { IfOk result (λ r. IsFound (IsPrintedSpelled form) bytes.now r.0 r.1.now) }
    ensures refused { IfErr result (λ stuck. IsRefused (Spells (IsPrintedSpelled form)) bytes.now stuck.rest.now) }
{
    match form {
        Form::Short => read_number(bytes, 0, 0, 0),
        Form::Long => read_number(bytes, 8, 0, MOST_PRINTED),
    }
}
