use base_types::{Entity, Instr, Kind, Reply};

/// The act that a locus wants: its instruction, the refusal that the locus alone decides, and what it touches
/// besides the locus.
#[derive(Clone, Copy, PartialEq, Eq, Debug)]
pub struct Act {
    /// Halt past the end of the code.
    pub instr: Instr,
    pub refused: Option<Reply>,
    pub atlas: bool,
    pub other: Option<Entity>,
    pub newborn: Option<Kind>,
}
