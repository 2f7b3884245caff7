ghost use Rattle.std.specs.Prelude.{◌≡◌, ℕ, ◌≤◌, ◌<◌, length, replicate, [], None, IfSome, false};
ghost use Rattle.std.specs.Option.{ForSome};
ghost use Rattle.base_types.specs.Instructions.{IsInstruction, IsPlace};
ghost use Rattle.base_types.specs.declared.instructions.Condition.TheVariants.{Running as RunningNow};
ghost use Rattle.model_kernel.specs.Acts.{wanted};
ghost use Rattle.model_kernel.specs.Outcomes.{finish as finished};
ghost use Rattle.model_kernel.specs.Refusals.{instr_at, reg};
ghost use Rattle.model_acts.specs.Views.{IsReadyLocus, act_of, seen_by, view_of};
ghost use Rattle.act_alone.specs.Loci.{WantsPlainly, container_with, is_plain as plain_instr, locus_of};

use crate::lists::{Chain, Code, Privates};
use base_types::{Answer, Condition, Entity, Instr, Reply, Walk};
use data_capabilities::CapList;
use data_regions::RegionMap;
use model_acts::{Act, LocusView, wants};

/// A locus.
#[derive(Drop, Debug)]
pub struct Locus {
    pub registers: [u64; 8],
    pub place: u8,
    pub code: Code,
    pub host: Entity,
    pub chain: Chain,
    /// Ascending by the host where they were made and then by page, and apart from each other within a host.
    pub privates: Privates,
    pub caps: CapList,
    pub walk: Option<Walk>,
    pub condition: Condition,
    pub every: u32,
    /// How many values it printed so far.
    pub printed: u64,
}

/// A container without its words.
#[derive(Drop, Debug)]
pub struct Head {
    pub pages: u16,
    pub tag: u64,
    pub every: u32,
    pub entry: Option<u8>,
    pub code: Code,
    pub regions: RegionMap<16>,
    pub caps: CapList,
}

impl Head {
    /// A container without regions and capabilities.
    pub fn new(pages: u16, tag: u64, every: u32, entry: Option<u8>, code: &[Instr]) -> Head
        requires some { 1 ≤ pages }
        requires few { pages ≤ 256 }
        requires entry { ForSome entry IsPlace }
        requires code { length code.now ≤ 128 }
        ensures { (words : ℕ → ℕ) → container_with words result ≡ record { pages = pages; tag = tag; every = every; entry = entry; code = code.now; regions = []; caps = replicate 32 None; words = words } }
    {
        Head {
            pages,
            tag,
            every,
            entry,
            code: Code::new(code),
            regions: RegionMap::new(),
            caps: CapList::new(),
        }
    }
}

/// Whether an instruction tells by itself what is wanted, whatever stands in the registers: it touches the locus alone, and nothing refuses it.
fn is_plain(instr: Instr) -> bool
    ensures { result ≡ plain_instr instr }
{
    matches!(
        instr,
        Instr::Set(..)
            | Instr::Copy(..)
            | Instr::Add(..)
            | Instr::Sub(..)
            | Instr::Jump(_)
            | Instr::Jz(..)
            | Instr::Print(_)
            | Instr::Halt
    )
}

impl Locus {
    /// A running locus with registers of 0 and empty lists.
    pub fn new(host: Entity, place: u8, every: u32, code: &[Instr]) -> Locus
        requires place { place ≤ 128 }
        requires code { length code.now ≤ 128 }
        ensures { locus_of result ≡ record { registers = replicate 8 0; place = place; code = code.now; host = host; chain = []; privates = []; caps = replicate 32 None; walk = None; condition = RunningNow; every = every; printed = 0 } }
    {
        Locus {
            registers: [0; 8],
            place,
            code: Code::new(code),
            host,
            chain: Chain::new(),
            privates: Privates::new(),
            caps: CapList::new(),
            walk: None,
            condition: Condition::Running,
            every,
            printed: 0,
        }
    }

    /// The locus as the choice of its act sees it.
    pub fn view(&self) -> LocusView<'_>
        ensures { view_of result ≡ locus_of self.now }
    {
        LocusView {
            registers: &self.registers,
            place: self.place,
            code: self.code.as_slice(),
            host: self.host,
            chain: self.chain.as_slice(),
            privates: self.privates.as_slice(),
            caps: self.caps.slots(),
            walk: self.walk,
            condition: self.condition,
            every: self.every,
            printed: self.printed,
        }
    }

    /// What stands in a register.
    pub fn register(&self, r: u8) -> u64
        requires { r < 8 }
        ensures { result ≡ reg (locus_of self.now) r }
    {
        self.registers[r as usize]
    }

    /// The instruction at the locus's place. Past the end of the code it halts.
    fn next(&self) -> Instr
        requires ready { IsReadyLocus (locus_of self.now) }
        ensures at { result ≡ instr_at (locus_of self.now) }
        ensures instruction { IsInstruction result }
    {
        match self.code.as_slice().get(self.place as usize) {
            Some(instr) => *instr,
            None => Instr::Halt,
        }
    }

    /// The act that the locus wants, where its instruction tells it by itself. It reads nothing but the instruction.
    pub fn wants_plainly(&self) -> Option<Act>
        requires ready { IsReadyLocus (locus_of self.now) }
        ensures wants { IfSome result (WantsPlainly (locus_of self.now)) }
        ensures none { result ≡ None → plain_instr (instr_at (locus_of self.now)) ≡ false }
    {
        let instr = self.next();
        if is_plain(instr) {
            return Some(Act {
                instr,
                refused: None,
                atlas: false,
                other: None,
                newborn: None,
            });
        }
        None
    }

    /// The act that the locus wants. What its capability names is the other entity also where it is the locus
    /// itself.
    pub fn wants(&self) -> Act
        requires running { self.now.condition ≡ RunningNow }
        requires ready { IsReadyLocus (locus_of self.now) }
        ensures act { act_of result ≡ wanted 64 (locus_of self.now) }
        ensures seen { (me : ℕ) → wanted me (locus_of self.now) ≡ seen_by me (act_of result) }
        ensures instruction { IsInstruction result.instr }
    {
        wants(&self.view())
    }

    /// Register 7 gets the reply, the walk ends, and the place is the next.
    pub fn finish(&mut self, reply: Reply) -> Answer
        requires { self.old.place < 128 }
        ensures locus { locus_of self.new ≡ finished (locus_of self.old) reply }
        ensures answer { result ≡ Answer.Reply reply }
    {
        self.registers[7] = reply.number();
        self.walk = None;
        self.place += 1;
        Answer::Reply(reply)
    }
}
