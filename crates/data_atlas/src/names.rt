//! Names of at most 24 bytes, in the value itself.
ghost use Rattle.std.specs.Prelude.{◌≡◌, ◌↔◌, ◌+◌, ◌-◌, ◌<◌, ◌≤◌, nat_lt, if◌then◌else◌, length, slice_get, option_map, IsTrue, IfSome};
ghost use Rattle.std.specs.List.{list_all};
ghost use Rattle.std.specs.Str.{bytes_eq};
ghost use Rattle.data_atlas_facts.specs.Directory.{made_name, number_from, is_letter, is_name_byte, IsName};

use arrayvec::ArrayString;
use base_types::FIRST_LOCUS;
use std::marker::Model;

/// The greatest length of a name.
pub const NAME_LENGTH: usize = 24;

/// A name.
#[derive(Drop, Debug)]
pub(crate) struct Name {
    text: ArrayString<NAME_LENGTH>,
}

impl Model for Name {
    ghost use Rattle.std.specs.Prelude.{List, ℕ};

    ghost Value = { List ℕ };

    ghost view = { λ name. name.text.bytes };
}

impl Default for Name {
    fn default() -> Name {
        Name {
            text: ArrayString::new(),
        }
    }
}

impl Name {
    pub fn new(text: &str) -> Name
        requires { length text.now ≤ NAME_LENGTH }
        ensures { result ≡ text.now }
    {
        let mut name = ArrayString::new();
        name.push_str(text);
        Name { text: name }
    }

    /// The name of an entity that a program makes.
    pub fn made(number: u8) -> Name
        requires { number < 64 }
        ensures { result ≡ made_name number }
    {
        let mut name = ArrayString::new();
        name.push('#');
        if number < 10 {
            name.push(char::from(b'0' + number));
            return Name { text: name };
        }
        name.push(char::from(b'0' + number / 10));
        name.push(char::from(b'0' + number % 10));
        Name { text: name }
    }

    pub fn text(&self) -> ArrayString<NAME_LENGTH>
        ensures { result.bytes ≡ self.now }
    {
        self.text
    }

    pub fn is(&self, text: &str) -> bool
        ensures { result ≡ bytes_eq self.now text.now }
    {
        self.text.as_str() == text
    }
}

/// The number of the first name that is this one, where the names have the numbers from `first` on.
pub(crate) fn number_of(text: &str, first: u8, names: &[Name]) -> Option<u8>
    requires { first + length names.now ≤ 64 }
    ensures number { result ≡ number_from first text.now names.now }
    ensures small { IfSome result (λ number. number < 64) }
{
    for (place, name) in names.iter().enumerate() {
        if name.is(text) {
            return Some(first + place as u8);
        }
    }
    None
}

/// The name at a number above 0: a container's below 41, a locus's from 41 on.
pub(crate) fn name_at(
    number: usize,
    containers: &[Name],
    loci: &[Name],
) -> Option<ArrayString<NAME_LENGTH>>
    requires { 0 < number }
    ensures { option_map (λ text. text.bytes) result
        ≡ (if nat_lt number 41 then slice_get containers.now (number - 1) else slice_get loci.now (number - 41)) }
{
    let name = if number < FIRST_LOCUS as usize {
        containers.get(number - 1)
    } else {
        loci.get(number - FIRST_LOCUS as usize)
    };
    match name {
        Some(name) => Some(name.text()),
        None => None,
    }
}

/// The name of an entity that a program makes: `#` and its number.
pub fn made_name(number: u8) -> ArrayString<NAME_LENGTH>
    requires { number < 64 }
    ensures { result.bytes ≡ made_name number }
{
    Name::made(number).text()
}

/// Whether a given name may begin with the byte: a letter of ASCII.
pub fn is_letter(byte: u8) -> bool
    ensures { result ≡ is_letter byte }
{
    byte >= b'A' && byte <= b'Z' || byte >= b'a' && byte <= b'z'
}

/// Whether the byte may stand in a given name: a letter, a digit, `_`, `-` or `.`.
pub fn is_name_byte(byte: u8) -> bool
    ensures { result ≡ is_name_byte byte }
{
    let is_digit = byte >= b'0' && byte <= b'9';
    is_letter(byte) || is_digit || byte == b'_' || byte == b'-' || byte == b'.'
}

fn are_name_bytes(bytes: &[u8]) -> bool
    ensures { result ≡ list_all is_name_byte bytes.now }
{
    bytes.iter().all(|byte| is_name_byte(*byte))
}

/// Whether the text is one that an entity may be given as its name: 1 to 24 bytes, a letter first, and then
/// letters, digits, `_`, `-` or `.`, but not `atlas`.
pub fn is_name(text: &str) -> bool
    ensures { IsTrue result ↔ IsName text.now }
{
    let bytes = text.as_bytes();
    let Some(first) = bytes.first() else {
        return false;
    };
    bytes.len() <= NAME_LENGTH && is_letter(*first) && are_name_bytes(bytes) && text != "atlas"
}
