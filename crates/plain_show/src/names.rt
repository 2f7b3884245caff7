//! The names of a plain atlas.
ghost use Rattle.plain_states.specs.Plains.{atlas_of};
ghost use Rattle.line_text.specs.Lines.{name_in};

use arrayvec::ArrayString;
use base_types::Entity;
use line_text::{LINE, NameLists, Names};
use plain_states::PlainAtlas;

/// The names of an atlas, for lines.
#[derive(Clone, Copy)]
pub struct PlainNames<'a> {
    pub atlas: &'a PlainAtlas,
}

impl Names for PlainNames<'_> {
    ghost atlas = { λ names. atlas_of names.atlas.now };

    #[tactic(auto, unfolding(line_text::specs::Lines::name_in))]
    fn append_name(&self, entity: Entity, line: &mut ArrayString<LINE>) {
        let lists = NameLists {
            containers: &self.atlas.containers,
            loci: &self.atlas.loci,
        };
        lists.append_name(entity, line);
    }
}
