//! The line of an entry, by the names of a plain atlas.
ghost use Rattle.std.specs.Prelude.{◌≡◌, codes};
ghost use Rattle.line_entries.specs.Entries.{entry_text};
ghost use Rattle.plain_states.specs.Plains.{atlas_of};
ghost use Rattle.line_text.specs.Lines.{HasShortNames};

use arrayvec::ArrayString;
use base_types::{Entity, Entry};
use line_entries::write_entry;
use line_text::{LINE, NameLists, Names};
use plain_states::PlainAtlas;

/// The names of a plain atlas.
#[derive(Clone, Copy)]
struct AtlasNames<'a> {
    atlas: &'a PlainAtlas,
}

impl Names for AtlasNames<'_> {
    ghost atlas = { λ names. atlas_of names.atlas.now };

    #[tactic(auto, unfolding(line_text::specs::Lines::name_in))]
    fn append_name(&self, entity: Entity, line: &mut ArrayString<LINE>) {
        let names = NameLists {
            containers: &self.atlas.containers,
            loci: &self.atlas.loci,
        };
        names.append_name(entity, line);
    }
}

/// The line of an entry, without its end.
pub fn text_of(atlas: &PlainAtlas, entry: &Entry) -> ArrayString<LINE>
    requires short { HasShortNames (atlas_of atlas.now) }
    ensures { result.bytes ≡ entry_text (atlas_of atlas.now) entry.now }
{
    let mut text = ArrayString::new();
    write_entry(&AtlasNames { atlas }, entry, &mut text);
    text
}

/// The word for no entry.
pub fn no_text() -> ArrayString<LINE>
    ensures { result.bytes ≡ codes "none" }
{
    let mut text = ArrayString::new();
    text.push_str("none");
    text
}
