//! Names in two lists.
ghost use Rattle.std.specs.Prelude.{◌≡◌, ◌≤◌, ◌↔◌, [], All, IsTrue, length, map, slice_get, string_bytes, unwrap_or};
ghost use Rattle.line_text.specs.Lines.{HasShortNames, name_in, names_in};

use crate::lines::LINE;
use crate::names::Names;
use arrayvec::ArrayString;
use base_types::{Entity, FIRST_CONTAINER, FIRST_LOCUS, Kind};

/// The names of containers and of loci, each by number.
#[derive(Clone, Copy, Debug)]
pub struct NameLists<'a> {
    pub containers: &'a [String],
    pub loci: &'a [String],
}

/// The name at a place of a list, or none.
fn name_at(names: &[String], place: u8) -> &str
    ensures { result.now ≡ unwrap_or (slice_get (map string_bytes names.now) place) [] }
{
    match names.get(place as usize) {
        Some(name) => name.as_str(),
        None => "",
    }
}

/// No name has more than 24 bytes.
fn all_are_short(names: &[String]) -> bool
    ensures { IsTrue result ↔ All (λ name. length (string_bytes name) ≤ 24) names.now }
{
    names.iter().all(|name| name.len() <= 24)
}

impl NameLists<'_> {
    /// Whether no name has more than 24 bytes.
    #[tactic(auto, using(crate::proofs::Shorts::short_lists))]
    pub fn are_short(&self) -> bool
        ensures short { IsTrue result → HasShortNames (names_in (map string_bytes self.now.containers.now) (map string_bytes self.now.loci.now)) }
        ensures all { All (λ name. length (string_bytes name) ≤ 24) self.now.containers.now → All (λ name. length (string_bytes name) ≤ 24) self.now.loci.now → IsTrue result }
    {
        all_are_short(self.containers) && all_are_short(self.loci)
    }
}

impl Names for NameLists<'_> {
    ghost atlas = { λ lists. names_in (map string_bytes lists.containers.now) (map string_bytes lists.loci.now) };

    #[tactic(auto, unfolding(crate::specs::Lines::name_in))]
    fn append_name(&self, entity: Entity, line: &mut ArrayString<LINE>) {
        let name = match entity.kind() {
            Kind::Atlas => "atlas",
            Kind::Container => name_at(self.containers, entity.number() - FIRST_CONTAINER),
            Kind::Locus => name_at(self.loci, entity.number() - FIRST_LOCUS),
        };
        line.push_str(name);
    }
}
