// Programs that look random, and a script that begins with one of them.
ghost use Rattle.std.specs.Option.{ForSome};
ghost use Rattle.std.specs.Prelude.{◌≡◌, ◌<◌, IfOk, None, All, codes};
ghost use Rattle.base_types.specs.Instructions.{IsInstruction, IsAccess, IsPlace};
ghost use Rattle.plain_states.specs.model_kernel.Scripts.{container_named as container_number, locus_named as locus_number};
ghost use Rattle.plain_states.specs.model_kernel.Soundness.{IsSoundCode};
ghost use Rattle.plain_states.specs.model_kernel.State.{AtlasState, Text};
ghost use Rattle.script_types.specs.Rules.{IsScript};
ghost use Rattle.script_types.specs.Scripts.{tables_of};
ghost use Rattle.plain_states.specs.Born.{AreOfOneKind, KnowsNames};

use base_types::{Instr, Rights};
use script_types::{Script, ScriptCap, ScriptContainer, ScriptLocus};
use std::alloc::{AllocError, Global};

/// Numbers that look random, the same each time.
#[derive(Drop)]
pub struct Draws {
    state: u64,
}

impl Draws {
    pub fn new(seed: u64) -> Draws {
        Draws { state: seed }
    }

    pub fn below(&mut self, bound: u64) -> u64
        requires { 0 < bound }
        ensures { result < bound }
    {
        self.state = self
            .state
            .wrapping_mul(6_364_136_223_846_793_005)
            .wrapping_add(1_442_695_040_888_963_407);
        (self.state >> 33) % bound
    }

    fn register(&mut self) -> u8
        ensures { result < 8 }
    {
        self.below(8) as u8
    }

    /// One of the registers of the preamble that name a container, mostly.
    fn container(&mut self) -> u8
        ensures { result < 8 }
    {
        match self.below(4) {
            0 => self.register(),
            1 => 1,
            2 => 3,
            _ => 5,
        }
    }

    /// One of the registers that the preamble leaves free.
    fn free(&mut self) -> u8
        ensures { result < 8 }
    {
        match self.below(3) {
            0 => 0,
            1 => 2,
            _ => 7,
        }
    }

    /// The register of the preamble that names page 1, or one that is free.
    fn page(&mut self) -> u8
        ensures { result < 8 }
    {
        if self.below(2) == 0 { 6 } else { self.free() }
    }

    /// A place in the code that follows the preamble.
    fn place(&mut self) -> u8
        ensures { result < 128 }
    {
        13 + self.below(12) as u8
    }

    fn access(&mut self) -> Rights
        ensures { IsAccess result.0 }
    {
        Rights(1 + self.below(3) as u8)
    }

    fn entry(&mut self) -> Option<u8>
        ensures { ForSome result IsPlace }
    {
        if self.below(3) == 0 {
            None
        } else {
            Some(self.place())
        }
    }

    /// An instruction of the locus alone.
    fn local(&mut self) -> Instr
        ensures { IsInstruction result }
    {
        match self.below(12) {
            0 => Instr::Copy(self.free(), self.register()),
            1 => Instr::Add(self.free(), self.register()),
            2 => Instr::Sub(self.free(), self.register()),
            3 => Instr::Jz(self.register(), self.place()),
            4 => Instr::Drop(self.register()),
            5 => Instr::Print(self.register()),
            6 => Instr::Stabilise(self.register()),
            7 => Instr::Lunmap(6),
            8 => Instr::Lunmap(6),
            9 => Instr::Lmap(6, self.container(), 7, 6, self.access()),
            10 => Instr::Lmap(6, self.container(), 7, 6, self.access()),
            _ => Instr::Set(self.free(), self.below(7)),
        }
    }

    /// An instruction beside a container.
    fn beside_container(&mut self) -> Instr
        ensures { IsInstruction result }
    {
        match self.below(9) {
            0 => Instr::Load(self.free(), self.register()),
            1 => Instr::Store(self.register(), self.register()),
            2 => Instr::Invoke(self.container()),
            3 => Instr::Leave(self.container()),
            4 => Instr::Return,
            5 => Instr::Unmap(self.container(), 6),
            6 => Instr::Take(self.free(), self.container(), 7),
            7 => Instr::Give(
                self.free(),
                self.container(),
                self.register(),
                Rights(self.below(256) as u8),
            ),
            _ => self.mapping(),
        }
    }

    fn mapping(&mut self) -> Instr
        ensures { IsInstruction result }
    {
        Instr::Map(
            self.container(),
            self.page(),
            self.container(),
            7,
            6,
            self.access(),
        )
    }

    /// An instruction that bears or controls.
    fn rest(&mut self) -> Instr
        ensures { IsInstruction result }
    {
        match self.below(6) {
            0 => Instr::Make(self.free(), self.free(), self.register(), self.entry()),
            1 => Instr::Spawn(self.free(), self.place()),
            2 => Instr::Stop(self.register()),
            3 => Instr::Go(self.register()),
            4 => Instr::Go(4),
            _ => Instr::Snap(self.register()),
        }
    }

    fn instr(&mut self) -> Instr
        ensures { IsInstruction result }
    {
        match self.below(8) {
            0 => self.local(),
            1 => self.local(),
            2 => self.local(),
            3 => self.rest(),
            4 => self.mapping(),
            _ => self.beside_container(),
        }
    }
}

/// A preamble that makes three containers and a locus, gives capabilities and maps regions, and 12 instructions that are
/// drawn, over and over.
pub fn program(alloc: Global, draws: &mut Draws) -> Result<Vec<Instr>, AllocError>
    ensures { IfOk result (λ code. All IsInstruction code.items) }
{
    let mut code = vec![in alloc;
        Instr::Set(0, 4),
        Instr::Set(2, 1),
        Instr::Make(1, 0, 2, Some(13)),
        Instr::Make(3, 0, 2, Some(14)),
        Instr::Make(5, 0, 2, None),
        Instr::Spawn(4, 13),
        Instr::Set(6, 1),
        Instr::Set(0, 2),
        Instr::Give(7, 1, 3, Rights(255)),
        Instr::Give(7, 1, 5, Rights(31)),
        Instr::Give(7, 3, 1, Rights(9)),
        Instr::Map(1, 6, 5, 7, 6, Rights(3)),
        Instr::Map(3, 6, 1, 7, 6, Rights(1)),
    ]?;
    for _ in 0..12 {
        code.push(draws.instr())?;
    }
    code.push(Instr::Jump(13))?;
    Ok(code)
}

/// Container `a` of four pages with this code, and locus `l` in it, which holds capabilities of the atlas and itself.
pub fn script_of(alloc: Global, code: Vec<Instr>) -> Result<Script, AllocError>
    requires { IsSoundCode code.items }
    ensures script { IfOk result (λ s. IsScript (tables_of s)) }
    ensures known { IfOk result (λ s. (a : AtlasState) → (name : Text) → KnowsNames a (tables_of s) name) }
    ensures kinds { IfOk result (λ s. (a : AtlasState) → locus_number a (codes "a") ≡ None → container_number a (codes "l") ≡ None → AreOfOneKind a (tables_of s)) }
{
    let container = ScriptContainer {
        name: String::from_str(alloc, "a")?,
        pages: 4,
        tag: 5,
        every: 0,
        code,
        entry: Some(13),
        regions: Vec::new(alloc),
        caps: Vec::new(alloc),
    };
    let of_atlas = ScriptCap {
        entity: String::from_str(alloc, "atlas")?,
        rights: Rights(255),
    };
    let of_itself = ScriptCap {
        entity: String::from_str(alloc, "l")?,
        rights: Rights(255),
    };
    let locus = ScriptLocus {
        name: String::from_str(alloc, "l")?,
        host: String::from_str(alloc, "a")?,
        at: 0,
        every: 0,
        caps: vec![in alloc; of_atlas, of_itself]?,
    };
    Ok(Script {
        steps: 10_000,
        frames: 32,
        order: Vec::new(alloc),
        containers: vec![in alloc; container]?,
        loci: vec![in alloc; locus]?,
    })
}
