//! The words of a line.
ghost use Rattle.std.specs.Prelude.{◌≡◌, ◌==◌, ◌≤◌, IfNone, IfSome, length};
ghost use Rattle.std.specs.List.{after_first, before_first, position_or_len};
ghost use Rattle.base_types.specs.declared.histories.Event.{Event as AnEvent};
ghost use Rattle.line_entries.specs.Entries.{event_word};

use base_types::Event;

/// Where the first byte of this value stands, or the end.
fn place_of(text: &[u8], byte: u8) -> usize
    ensures place { result ≡ position_or_len (λ b. b == byte) text.now }
    ensures within { result ≤ length text.now }
{
    for (place, b) in text.iter().enumerate() {
        if *b == byte {
            return place;
        }
    }
    text.len()
}

/// The bytes before the first one of this value, or all.
pub fn before(text: &[u8], byte: u8) -> &[u8]
    ensures { result.now ≡ before_first (λ b. b == byte) text.now }
{
    &text[..place_of(text, byte)]
}

/// The bytes behind the first one of this value, or none.
pub fn behind(text: &[u8], byte: u8) -> &[u8]
    ensures { result.now ≡ after_first (λ b. b == byte) text.now }
{
    let place = place_of(text, byte);
    if place < text.len() {
        &text[place + 1..]
    } else {
        &[]
    }
}

/// The event with this word.
pub fn event_named(name: &[u8]) -> Option<Event>
    ensures some { IfSome result (λ e. event_word e ≡ name.now) }
    ensures none { IfNone result ((e : AnEvent) → event_word e ≡ name.now → ⊥) }
{
    if name == "birth".as_bytes() {
        Some(Event::Birth)
    } else if name == "step".as_bytes() {
        Some(Event::Step)
    } else if name == "snap".as_bytes() {
        Some(Event::Snap)
    } else if name == "stable".as_bytes() {
        Some(Event::Stable)
    } else if name == "tried".as_bytes() {
        Some(Event::Tried)
    } else {
        None
    }
}
