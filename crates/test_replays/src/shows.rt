//! What an image says, and what is shown of a state, with words that count up from the tag.
ghost use Rattle.std.specs.Prelude.{IfOk};
ghost use Rattle.plain_states.specs.Plains.{cells_of};
ghost use Rattle.script_types.specs.model_kernel.Soundness.{IsSound};
ghost use Rattle.edge_managers.specs.Managers.{counted_word};

use edge_disk::MemoryDisk;
use edge_managers::{CountedWords, Supplier};
use edge_streams::MemorySink;
use image_reading::{ImageFacts, read_image};
use plain_show::write_show;
use plain_states::Plain;
use std::alloc::Global;
use std::test::Fail;

/// The text that a sink holds.
pub fn text_of(alloc: Global, sink: &MemorySink) -> Result<String, Fail> {
    let held = std::str::from_utf8(sink.held()).ok().ok_or("text")?;
    Ok(String::from_str(alloc, held)?)
}

/// What an image says.
pub fn facts_of(alloc: Global, disk: &mut MemoryDisk) -> Result<ImageFacts, Fail>
    ensures { IfOk result (λ facts. IsSound (cells_of counted_word facts.state)) }
{
    let words = |tag, page, place| CountedWords.word(tag, page, place);
    match read_image(alloc, disk, &words) {
        Ok(facts) => Ok(facts),
        Err(_) => Err(Fail::from("an image")),
    }
}

/// What is shown of a state.
pub fn shown_of(alloc: Global, state: &Plain) -> Result<String, Fail>
    requires { IsSound (cells_of counted_word state.now) }
{
    let words = |tag, page, place| CountedWords.word(tag, page, place);
    let mut sink = MemorySink::new(alloc, 40_000, Vec::new(alloc))?;
    write_show(state, &words, &mut sink)?;
    text_of(alloc, &sink)
}

/// What is shown of an image.
pub fn shown(alloc: Global, facts: &ImageFacts) -> Result<String, Fail>
    requires { IsSound (cells_of counted_word facts.now.state) }
{
    shown_of(alloc, &facts.state)
}
