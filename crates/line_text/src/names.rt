//! Names of entities.
ghost use Rattle.std.specs.Prelude.{◌≡◌, ◌+◌, ◌≤◌, ◌++◌, length};
ghost use Rattle.arrayvec.specs.ArrayString.{array_string_len};
ghost use Rattle.model_kernel.specs.State.{AtlasState};
ghost use Rattle.line_text.specs.Lines.{HasShortNames, name_in, word};

use crate::lines::LINE;
use arrayvec::ArrayString;
use base_types::Entity;

/// Who knows the names of entities.
pub trait Names {
    /// The names, as the model has them.
    ghost atlas: { Self → AtlasState };

    /// Appends the name of an entity, or nothing where it has none.
    fn append_name(&self, entity: Entity, line: &mut ArrayString<LINE>)
        requires { array_string_len line.old + length (name_in (atlas self.now) entity) ≤ LINE }
        ensures { line.new.bytes ≡ line.old.bytes ++ name_in (atlas self.now) entity };
}

/// Appends a name of at most 24 bytes.
pub fn push_name<N: Names>(names: &N, entity: Entity, line: &mut ArrayString<LINE>)
    requires short { HasShortNames (N.atlas names.now) }
    requires room { array_string_len line.old + 24 ≤ LINE }
    ensures bytes { line.new.bytes ≡ line.old.bytes ++ name_in (N.atlas names.now) entity }
    ensures longer { array_string_len line.new ≤ array_string_len line.old + 24 }
{
    names.append_name(entity, line)
}

/// Appends a name of at most 24 bytes behind a blank.
#[tactic(auto, using(crate::proofs::Blanks::behind_blank))]
pub fn push_name_word<N: Names>(names: &N, entity: Entity, line: &mut ArrayString<LINE>)
    requires short { HasShortNames (N.atlas names.now) }
    requires room { array_string_len line.old + 25 ≤ LINE }
    ensures bytes { line.new.bytes ≡ line.old.bytes ++ word (name_in (N.atlas names.now) entity) }
    ensures longer { array_string_len line.new ≤ array_string_len line.old + 25 }
{
    line.push_str(" ");
    push_name(names, entity, line);
}
