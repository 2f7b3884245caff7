//! Names, each of the next entity of its kind.
ghost use Rattle.std.specs.Prelude.{◌≡◌, ◌≢◌, ◌↔◌, ◌+◌, ◌<◌, ◌≤◌, [], ◌∷◌, ◌++◌, length, None, IsTrue, IfSome, IfNone, IfOk, IfErr};
ghost use Rattle.std.specs.Bool.{OnTrue, OnFalse};
ghost use Rattle.std.specs.List.{list_all};
ghost use Rattle.data_atlas.specs.data_atlas_facts.Directory.{IsDirectory, IsNameOf, entity_named, is_name_byte, name_of, with_entity};
ghost use Rattle.blob_reading.specs.blob_facts.Names.{AreNamesSpelled, GoesOn, HasShortName, IsGivenFront, IsGivenSo, IsMadeSo, IsNameIn, IsSize, IsSizeSpelled, IsTextIn, IsTextSpelled, most_names, names_in, next_number as next_number_of, with_names};
ghost use Rattle.blob_grammar.specs.Places.{Begins};
ghost use Rattle.blob_reading.specs.blob_facts.Fields.{IsFound, IsRefused, Spells};

use arrayvec::ArrayString;
use base_types::{FIRST_CONTAINER, FIRST_LOCUS, Kind, MOST_ENTITIES};
use blob_reading::fields::{Parsed, Stuck};
use data_atlas::{Atlas, NAME_LENGTH, is_letter, is_name_byte, made_name};

/// The bytes of a name at most.
const LONGEST_NAME: u8 = NAME_LENGTH as u8;

/// The first byte behind the letters.
const PAST_LETTERS: u8 = b'z' + 1;

/// A name, or a front of one.
type Text = ArrayString<24>;

/// Whether the text is no one's name.
fn is_free(atlas: &Atlas, text: &Text) -> bool
    ensures { IsTrue result ↔ (entity_named atlas.now text.now.bytes ≡ None) }
{
    atlas.find(text.as_str()).is_none()
}

/// The text with one byte more.
fn with_byte(text: &Text, byte: u8) -> Text
    requires room { length text.now.bytes < 24 }
    requires ascii { byte < 128 }
    ensures { result.bytes ≡ text.now.bytes ++ byte ∷ [] }
{
    let mut whole = *text;
    whole.push(char::from(byte));
    whole
}

/// Whether some letter is no one's name.
fn has_short_name(atlas: &Atlas) -> bool
    ensures yes { OnTrue result (HasShortName atlas.now) }
    ensures no { OnFalse result (HasShortName atlas.now → ⊥) }
{
    let none = ArrayString::new();
    for byte in b'A'..PAST_LETTERS {
        let name = with_byte(&none, byte);
        if is_letter(byte) && is_free(atlas, &name) {
            return true;
        }
    }
    false
}

/// Whether the made name of a number begins so, and has so many bytes.
fn is_made_so(number: u8, size: u8, front: &Text) -> bool
    requires { number < MOST_ENTITIES }
    ensures { IsTrue result ↔ IsMadeSo number size front.now.bytes }
{
    let made = made_name(number);
    made.len() == size as usize && made.as_bytes().starts_with(front.as_bytes())
}

fn are_name_bytes(bytes: &[u8]) -> bool
    ensures { result ≡ list_all is_name_byte bytes.now }
{
    bytes.iter().all(|byte| is_name_byte(*byte))
}

/// Whether names that may be given begin so, that of the atlas among them.
fn is_given_front(front: &Text) -> bool
    ensures { IsTrue result ↔ IsGivenFront front.now.bytes }
{
    let bytes = front.as_bytes();
    let Some((first, _rest)) = bytes.split_first() else {
        return false;
    };
    is_letter(*first) && are_name_bytes(bytes)
}

/// Whether a given name of so many bytes that is no one's begins so.
fn is_given_so(atlas: &Atlas, size: u8, front: &Text) -> bool
    ensures { IsTrue result ↔ IsGivenSo atlas.now size front.now.bytes }
{
    is_given_front(front) && (front.len() < size as usize || is_free(atlas, front))
}

/// The text with the byte behind it, where a name of so many bytes begins so that may be that of the entity of this number.
fn longer(atlas: &Atlas, number: u8, size: u8, text: &Text, byte: u8) -> Option<Text>
    requires number { number < MOST_ENTITIES }
    requires room { length text.now.bytes < 24 }
    ensures text { IfSome result (λ front. front.bytes ≡ text.now.bytes ++ byte ∷ []) }
    ensures some { IfSome result (λ front. GoesOn atlas.now number size front.bytes) }
    ensures none { IfNone result (GoesOn atlas.now number size (text.now.bytes ++ byte ∷ []) → ⊥) }
{
    if !byte.is_ascii() {
        return None;
    }
    let front = with_byte(text, byte);
    if is_made_so(number, size, &front) || is_given_so(atlas, size, &front) {
        Some(front)
    } else {
        None
    }
}

/// A text of so many bytes that may be the name of the entity of this number, which is born next.
fn read_text<'a>(bytes: &'a [u8], atlas: &Atlas, number: u8, size: u8) -> Parsed<'a, Text>
    requires directory { IsDirectory atlas.now }
    requires number { number < MOST_ENTITIES }
    requires free { name_of atlas.now number ≡ None }
    requires size { size ≤ LONGEST_NAME }
    requires some { Begins (IsTextIn atlas.now number size) [] }
    ensures read { IfOk result (λ r. IsFound (IsTextSpelled atlas.now number size) bytes.now r.0.bytes r.1.now) }
    ensures refused { IfErr result (λ stuck. IsRefused (Spells (IsTextSpelled atlas.now number size)) bytes.now stuck.rest.now) }
{
    let mut text = ArrayString::new();
    let mut rest = bytes;
    for _place in 0..size {
        let Some((first, behind)) = rest.split_first() else {
            return Err(Stuck { rest });
        };
        let Some(front) = longer(atlas, number, size, &text, *first) else {
            return Err(Stuck { rest });
        };
        text = front;
        rest = behind;
    }
    Ok((text, rest))
}

/// Whether the next name may have so many bytes.
fn is_size(atlas: &Atlas, size: u8) -> bool
    ensures yes { OnTrue result (IsSize atlas.now size) }
    ensures no { OnFalse result (IsSize atlas.now size → ⊥) }
{
    size >= 1 && size <= LONGEST_NAME && (size > 1 || has_short_name(atlas))
}

/// How many bytes the next name has.
fn read_size<'a>(bytes: &'a [u8], atlas: &Atlas) -> Parsed<'a, u8>
    ensures read { IfOk result (λ r. IsFound (IsSizeSpelled atlas.now) bytes.now r.0 r.1.now) }
    ensures refused { IfErr result (λ stuck. IsRefused (Spells (IsSizeSpelled atlas.now)) bytes.now stuck.rest.now) }
{
    let Some((size, rest)) = bytes.split_first() else {
        return Err(Stuck { rest: bytes });
    };
    if !is_size(atlas, *size) {
        return Err(Stuck { rest: bytes });
    }
    Ok((*size, rest))
}

/// The name of the entity of this number, which is born next.
fn read_name<'a>(bytes: &'a [u8], atlas: &Atlas, number: u8) -> Parsed<'a, Text>
    requires directory { IsDirectory atlas.now }
    requires number { number < MOST_ENTITIES }
    requires free { name_of atlas.now number ≡ None }
    ensures read { IfOk result (λ r. IsFound (IsNameIn atlas.now number) bytes.now r.0.bytes r.1.now) }
    ensures refused { IfErr result (λ stuck. IsRefused (Spells (IsNameIn atlas.now number)) bytes.now stuck.rest.now) }
{
    let (size, rest) = read_size(bytes, atlas)?;
    let (name, rest) = match read_text(rest, atlas, number, size) {
        Ok(read) => read,
        Err(stuck) => return Err(stuck),
    };
    Ok((name, rest))
}

/// The number of the entity of the kind that is born next.
fn next_number(atlas: &Atlas, kind: Kind) -> u8
    requires { kind ≢ Kind.Atlas }
    ensures number { result ≡ next_number_of kind atlas.now }
    ensures directory { IsDirectory atlas.now }
{
    let born = atlas.named(kind);
    match kind {
        Kind::Locus => FIRST_LOCUS + born,
        _ => FIRST_CONTAINER + born,
    }
}

/// Gives birth to the next entity of the kind under this name.
fn give_birth(atlas: &mut Atlas, kind: Kind, name: &Text)
    requires kind { kind ≢ Kind.Atlas }
    requires room { length (names_in kind atlas.old) < most_names kind }
    requires form { IsNameOf (next_number_of kind atlas.old) name.now.bytes }
    requires new { entity_named atlas.old name.now.bytes ≡ None }
    ensures { atlas.new ≡ with_entity atlas.old kind name.now.bytes }
{
    let made = made_name(next_number(atlas, kind));
    if name.as_str() == made.as_str() {
        let _born = atlas.birth(None, kind);
    } else {
        let _born = atlas.birth(Some(name.as_str()), kind);
    }
}

/// Gives birth to so many entities of a kind under the names that stand here. Where one is refused, those before it are born.
pub(crate) fn read_names<'a>(
    bytes: &'a [u8],
    count: u8,
    kind: Kind,
    atlas: &mut Atlas,
) -> Parsed<'a, ()>
    requires kind { kind ≢ Kind.Atlas }
    requires none { names_in kind atlas.old ≡ [] }
    requires few { count ≤ most_names kind }
    ensures read { IfOk result (λ r. IsFound (AreNamesSpelled kind count atlas.old) bytes.now (names_in kind atlas.new) r.1.now) }
    ensures others { atlas.new ≡ with_names kind atlas.old (names_in kind atlas.new) }
    ensures refused { IfErr result (λ stuck. IsRefused (Spells (AreNamesSpelled kind count atlas.old)) bytes.now stuck.rest.now) }
{
    let mut rest = bytes;
    for _place in 0..count {
        let number = next_number(atlas, kind);
        let (name, behind) = match read_name(rest, atlas, number) {
            Ok(read) => read,
            Err(stuck) => return Err(stuck),
        };
        give_birth(atlas, kind, &name);
        rest = behind;
    }
    Ok(((), rest))
}
