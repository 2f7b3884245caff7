//! Strings of a source: names, numbers, rights, and the strings of regions, capabilities and managers.
ghost use Rattle.std.specs.Prelude.{◌≡◌, ◌+◌, ◌*◌, ◌<◌, ◌≤◌, ◌&&◌, ◌∷◌, option_map, IfSome, codes};
ghost use Rattle.std.specs.List.{list_all};
ghost use Rattle.script_types.specs.model_kernel.State.{Text};
ghost use Rattle.script_types.specs.model_kernel.Scripts.{text_eq};
ghost use Rattle.script_types.specs.model_kernel.Soundness.{is_letter, is_name_byte, begins_with_letter, is_given_name};
ghost use Rattle.base_instructions.specs.Reader.{letters_set, rights_of};
ghost use Rattle.script_meaning.specs.Strings.{is_name, is_digit, is_decimal, with_digit, decimal_value, number_of, region_number, access_of, cut, region_form, cap_form, manager_form, sized_form, placed_form, named_form};
ghost use Rattle.script_reading.specs.Views.{region_form_of, AreSmall, cap_form_of, manager_form_of};

use base_managers::GREATEST_TAG;
use base_types::Rights;

/// Numbers of regions that are greater count as this one.
const PAST_PAGES: u64 = 1000;

/// Numbers of managers that are greater count as this one.
const PAST_TAGS: u64 = GREATEST_TAG + 1;

pub(crate) fn is_same(a: &str, b: &str) -> bool
    ensures { result ≡ text_eq a.now b.now }
{
    a == b
}

// ---- Names

fn is_letter(byte: u8) -> bool
    ensures { result ≡ is_letter byte }
{
    byte >= b'A' && byte <= b'Z' || byte >= b'a' && byte <= b'z'
}

fn is_name_byte(byte: u8) -> bool
    ensures { result ≡ is_name_byte byte }
{
    is_letter(byte) || is_digit(byte) || byte == b'_' || byte == b'-' || byte == b'.'
}

fn begins_with_letter(bytes: &[u8]) -> bool
    ensures { result ≡ begins_with_letter bytes.now }
{
    match bytes {
        [] => false,
        [first, ..] => is_letter(*first),
    }
}

fn are_name_bytes(bytes: &[u8]) -> bool
    ensures { result ≡ list_all is_name_byte bytes.now }
{
    bytes.iter().all(|byte| is_name_byte(*byte))
}

/// Whether these are the bytes of a name, of whatever length.
fn begins_name(bytes: &[u8]) -> bool
    ensures { result ≡ (begins_with_letter bytes.now && list_all is_name_byte bytes.now) }
{
    begins_with_letter(bytes) && are_name_bytes(bytes)
}

/// Whether the text is a name, which `atlas` is too.
fn is_name(name: &str) -> bool
    ensures { result ≡ is_name name.now }
{
    begins_name(name.as_bytes()) && name.len() <= 24
}

/// Whether the text is a name that a table may give.
pub(crate) fn is_given_name(name: &str) -> bool
    ensures { result ≡ is_given_name name.now }
{
    is_name(name) && !is_same(name, "atlas")
}

// ---- Numbers

fn is_digit(byte: u8) -> bool
    ensures { result ≡ is_digit byte }
{
    byte >= b'0' && byte <= b'9'
}

fn are_digits(bytes: &[u8]) -> bool
    ensures { result ≡ list_all is_digit bytes.now }
{
    bytes.iter().all(|byte| is_digit(*byte))
}

/// Whether these are digits, with no 0 before another digit.
fn is_decimal(bytes: &[u8]) -> bool
    ensures { result ≡ is_decimal bytes.now }
{
    match bytes {
        [] => false,
        [b'0', _, ..] => false,
        _ => are_digits(bytes),
    }
}

fn with_digit(number: u64, byte: u8, most: u64) -> u64
    ensures value { result ≡ with_digit most number byte }
    ensures small { result ≤ most }
{
    let digit = u64::from(byte.saturating_sub(b'0'));
    number.saturating_mul(10).saturating_add(digit).min(most)
}

fn decimal_value(bytes: &[u8], most: u64) -> u64
    ensures value { result ≡ decimal_value most bytes.now }
    ensures small { result ≤ most }
{
    let mut number = 0;
    for byte in bytes {
        number = with_digit(number, *byte, most);
    }
    number
}

/// The number that the text spells without leading zeros, where one above `most` counts as `most`.
fn number_of(text: &str, most: u64) -> Option<u64>
    ensures value { result ≡ number_of most text.now }
    ensures small { IfSome result (λ n. n ≤ most) }
{
    let bytes = text.as_bytes();
    if is_decimal(bytes) {
        Some(decimal_value(bytes, most))
    } else {
        None
    }
}

/// A number of a region.
fn region_number(text: &str) -> Option<u16>
    ensures value { result ≡ region_number text.now }
    ensures small { IfSome result (λ n. n ≤ PAST_PAGES) }
{
    Some(number_of(text, PAST_PAGES)? as u16)
}

// ---- Rights

/// The set with the letter's bit, and the text behind the letter, if the text begins with it; else both as they are.
fn with_letter(letter: u8, bit: u8, set: u8, text: &[u8]) -> (u8, &[u8])
    requires { set + bit < 256 }
    ensures step { (letters : Text) → letters_set letters (2 * bit) result.0 result.1.now ≡ letters_set (letter ∷ letters) bit set text.now }
    ensures small { result.0 ≤ set + bit }
{
    match text {
        [first, behind @ ..] if *first == letter => (set + bit, behind),
        _ => (set, text),
    }
}

/// The set of these letters, if they stand in the order of their bits.
fn letters_set(text: &[u8]) -> Option<u8>
    ensures { result ≡ letters_set (codes "rwimcskt") 1 0 text.now }
{
    let (set, rest) = with_letter(b'r', 1, 0, text);
    let (set, rest) = with_letter(b'w', 2, set, rest);
    let (set, rest) = with_letter(b'i', 4, set, rest);
    let (set, rest) = with_letter(b'm', 8, set, rest);
    let (set, rest) = with_letter(b'c', 16, set, rest);
    let (set, rest) = with_letter(b's', 32, set, rest);
    let (set, rest) = with_letter(b'k', 64, set, rest);
    let (set, rest) = with_letter(b't', 128, set, rest);
    if rest.is_empty() { Some(set) } else { None }
}

/// The set that is spelled by its letters, or a dash.
fn rights_of(text: &str) -> Option<Rights>
    ensures { option_map (λ rights. rights.0) result ≡ rights_of text.now }
{
    match text.as_bytes() {
        [] => None,
        [b'-'] => Some(Rights(0)),
        letters => Some(Rights(letters_set(letters)?)),
    }
}

/// Read, Write or both.
fn access_of(text: &str) -> Option<Rights>
    ensures { option_map (λ rights. rights.0) result ≡ access_of text.now }
{
    match rights_of(text) {
        Some(rights) if 1 <= rights.0 && rights.0 < 4 => Some(rights),
        _ => None,
    }
}

// ---- Forms

/// What stands before the first blank, and behind it.
fn cut(text: &str) -> Option<(&str, &str)>
    ensures { option_map (λ parts. (parts.0.now, parts.1.now)) result ≡ cut text.now }
{
    text.split_once(' ')
}

/// The words of a region: `AT NAME FROM COUNT RW`.
#[derive(Clone, Copy)]
pub(crate) struct RegionWords<'a> {
    pub at: u16,
    pub target: &'a str,
    pub from: u16,
    pub count: u16,
    pub rights: Rights,
}

/// The words of a capability: `NAME RIGHTS`.
#[derive(Clone, Copy)]
pub(crate) struct CapWords<'a> {
    pub entity: &'a str,
    pub rights: Rights,
}

/// A region of which `COUNT RW` is left.
fn sized_words<'a>(at: u16, target: &'a str, from: u16, text: &str) -> Option<RegionWords<'a>>
    requires { (at ≤ PAST_PAGES) × (from ≤ PAST_PAGES) }
    ensures value { option_map region_form_of result ≡ sized_form at target.now from text.now }
    ensures small { IfSome result AreSmall }
{
    let (count, access) = cut(text)?;
    let count = region_number(count)?;
    let rights = access_of(access)?;
    Some(RegionWords {
        at,
        target,
        from,
        count,
        rights,
    })
}

/// A region of which `FROM COUNT RW` is left.
fn placed_words<'a>(at: u16, target: &'a str, text: &str) -> Option<RegionWords<'a>>
    requires { at ≤ PAST_PAGES }
    ensures value { option_map region_form_of result ≡ placed_form at target.now text.now }
    ensures small { IfSome result AreSmall }
{
    let (from, rest) = cut(text)?;
    let from = region_number(from)?;
    sized_words(at, target, from, rest)
}

/// A region of which `NAME FROM COUNT RW` is left.
fn named_words(at: u16, text: &str) -> Option<RegionWords<'_>>
    requires { at ≤ PAST_PAGES }
    ensures value { option_map region_form_of result ≡ named_form at text.now }
    ensures small { IfSome result AreSmall }
{
    let (target, rest) = cut(text)?;
    if is_name(target) {
        placed_words(at, target, rest)
    } else {
        None
    }
}

pub(crate) fn region_words(text: &str) -> Option<RegionWords<'_>>
    ensures value { option_map region_form_of result ≡ region_form text.now }
    ensures small { IfSome result AreSmall }
{
    let (at, rest) = cut(text)?;
    let at = region_number(at)?;
    named_words(at, rest)
}

pub(crate) fn cap_words(text: &str) -> Option<CapWords<'_>>
    ensures { option_map cap_form_of result ≡ cap_form text.now }
{
    let (entity, rights) = cut(text)?;
    if !is_name(entity) {
        return None;
    }
    let rights = rights_of(rights)?;
    Some(CapWords { entity, rights })
}

/// The words of a manager: `NUMBER PROGRAM`.
#[derive(Clone, Copy)]
pub(crate) struct ManagerWords<'a> {
    pub number: u64,
    pub program: &'a str,
}

pub(crate) fn manager_words(text: &str) -> Option<ManagerWords<'_>>
    ensures { option_map manager_form_of result ≡ manager_form text.now }
{
    let (number, program) = cut(text)?;
    let number = number_of(number, PAST_TAGS)?;
    Some(ManagerWords { number, program })
}
