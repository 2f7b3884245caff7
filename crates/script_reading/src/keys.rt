//! Keys of a source, and refusals at them.
ghost use Rattle.std.specs.Prelude.{◌≡◌, IfOk, string_bytes};
ghost use Rattle.script_meaning.specs.Fields.{item_key};
ghost use Rattle.script_meaning.specs.Reading.{dotted, IsBlamed};

use itoa::Buffer;
use script_types::{Refusal, ScriptFault, Why};
use std::alloc::{AllocError, Global};

/// The key of a name in the table with this key, which is empty at the top.
pub(crate) fn dotted(alloc: Global, key: &str, name: &str) -> Result<String, AllocError>
    ensures { IfOk result (λ text. string_bytes text ≡ dotted key.now name.now) }
{
    let mut text = String::from_str(alloc, key)?;
    if !key.is_empty() {
        text.push_str(".")?;
    }
    text.push_str(name)?;
    Ok(text)
}

/// The key of the item at this place of a list.
pub(crate) fn item_key(alloc: Global, key: &str, place: usize) -> Result<String, AllocError>
    ensures { IfOk result (λ text. string_bytes text ≡ item_key key.now place) }
{
    let mut digits = Buffer::new();
    dotted(alloc, key, digits.format(place))
}

/// The refusal of a name in a table.
pub(crate) fn refuse(alloc: Global, why: Why, key: &str, name: &str) -> ScriptFault
    ensures { IsBlamed why (dotted key.now name.now) result }
{
    match dotted(alloc, key, name) {
        Ok(key) => ScriptFault::Refused(Refusal { why, key }),
        Err(_) => ScriptFault::Memory,
    }
}

/// The refusal of the item at this place of a list.
pub(crate) fn refuse_item(alloc: Global, why: Why, key: &str, place: usize) -> ScriptFault
    ensures { IsBlamed why (item_key key.now place) result }
{
    match item_key(alloc, key, place) {
        Ok(key) => ScriptFault::Refused(Refusal { why, key }),
        Err(_) => ScriptFault::Memory,
    }
}
