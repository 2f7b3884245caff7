// Lists of fixed room. Contracts see each as the list of its items.
ghost use Rattle.std.specs.Prelude.{◌≡◌, ◌+◌, ◌<◌, ◌≤◌, ◌&&◌, ◌==◌, ◌++◌, not, length, filter, [], ◌∷◌};
ghost use Rattle.model_kernel.specs.Outcomes.{insert_private};
ghost use Rattle.model_kernel.specs.Words.{last_call, but_last};

use base_types::{Call, Entity, Instr, MOST_CALLS, MOST_PRIVATES, Private, Region, Rights};
use model_acts::place_of_private;
use std::marker::Model;

/// The most instructions of a code.
pub const MOST_INSTRS: usize = 128;

/// A code: at most 128 instructions.
#[derive(Drop, Debug)]
pub struct Code {
    instrs: [Instr; MOST_INSTRS],
    len: u8,
}

impl Model for Code {
    ghost use Rattle.std.specs.Prelude.{◌≡◌, ◌≤◌, List, length, take};
    ghost use Rattle.base_types.specs.declared.instructions.Instr.{Instr};

    ghost Value = { List Instr };

    ghost view = { λ code. take code.len code.instrs };

    ghost invariant = { λ code. (length code.instrs ≡ 128) × (code.len ≤ 128) };
}

impl Code {
    /// The code of these instructions.
    pub fn new(code: &[Instr]) -> Code
        requires { length code.now ≤ MOST_INSTRS }
        ensures { result ≡ code.now }
    {
        let mut instrs = [Instr::Halt; MOST_INSTRS];
        for (place, instr) in code.iter().enumerate() {
            instrs[place] = *instr;
        }
        Code {
            instrs,
            len: code.len() as u8,
        }
    }

    pub fn as_slice(&self) -> &[Instr]
        ensures code { result.now ≡ self.now }
        ensures few { length self.now ≤ MOST_INSTRS }
    {
        &self.instrs[..self.len as usize]
    }
}

/// The callers of a locus, oldest first: at most 64.
#[derive(Drop, Debug)]
pub struct Chain {
    calls: [Call; MOST_CALLS],
    len: u8,
}

impl Model for Chain {
    ghost use Rattle.std.specs.Prelude.{◌≡◌, ◌≤◌, List, length, take};
    ghost use Rattle.base_types.specs.declared.instructions.Call.{Call};

    ghost Value = { List Call };

    ghost view = { λ chain. take chain.len chain.calls };

    ghost invariant = { λ chain. (length chain.calls ≡ 64) × (chain.len ≤ 64) };
}

/// What stands in the places of a chain that are not used.
const NO_CALL: Call = Call {
    container: Entity::ATLAS,
    place: 0,
};

impl Chain {
    /// The chain of a locus that nothing called.
    pub fn new() -> Chain
        ensures { result ≡ [] }
    {
        Chain {
            calls: [NO_CALL; MOST_CALLS],
            len: 0,
        }
    }

    pub fn as_slice(&self) -> &[Call]
        ensures calls { result.now ≡ self.now }
        ensures few { length self.now ≤ MOST_CALLS }
    {
        &self.calls[..self.len as usize]
    }

    /// Adds the newest call.
    pub fn push(&mut self, call: Call)
        requires { length self.old < MOST_CALLS }
        ensures { self.new ≡ self.old ++ call ∷ [] }
    {
        self.calls[self.len as usize] = call;
        self.len += 1;
    }

    /// Takes off the newest call.
    pub fn pop(&mut self) -> Option<Call>
        ensures call { result ≡ last_call self.old }
        ensures rest { self.new ≡ but_last self.old }
    {
        if self.len == 0 {
            return None;
        }
        self.len -= 1;
        Some(self.calls[self.len as usize])
    }
}

/// The private regions of a locus: at most 16.
#[derive(Drop, Debug)]
pub struct Privates {
    items: [Private; MOST_PRIVATES],
    len: u8,
}

impl Model for Privates {
    ghost use Rattle.std.specs.Prelude.{◌≡◌, ◌≤◌, List, length, take};
    ghost use Rattle.base_types.specs.declared.capabilities.Private.{Private};

    ghost Value = { List Private };

    ghost view = { λ list. take list.len list.items };

    ghost invariant = { λ list. (length list.items ≡ 16) × (list.len ≤ 16) };
}

/// What stands in the places of a list that are not used.
const NO_PRIVATE: Private = Private {
    made: Entity::ATLAS,
    region: Region {
        at: 0,
        count: 0,
        target: Entity::ATLAS,
        from: 0,
        rights: Rights(0),
    },
};

impl Privates {
    pub fn new() -> Privates
        ensures { result ≡ [] }
    {
        Privates {
            items: [NO_PRIVATE; MOST_PRIVATES],
            len: 0,
        }
    }

    pub fn as_slice(&self) -> &[Private]
        ensures privates { result.now ≡ self.now }
        ensures few { length self.now ≤ MOST_PRIVATES }
    {
        &self.items[..self.len as usize]
    }

    /// Adds the region behind all others.
    pub fn push(&mut self, new: Private)
        requires { length self.old < MOST_PRIVATES }
        ensures { self.new ≡ self.old ++ new ∷ [] }
    {
        self.items[self.len as usize] = new;
        self.len += 1;
    }

    fn extend(&mut self, new: &[Private])
        requires { length self.old + length new.now ≤ MOST_PRIVATES }
        ensures { self.new ≡ self.old ++ new.now }
    {
        for p in new {
            self.push(*p);
        }
    }

    /// Puts the region into its place.
    pub fn add(&mut self, new: Private)
        requires { length self.old < MOST_PRIVATES }
        ensures { self.new ≡ insert_private new self.old }
    {
        let place = place_of_private(&new, self.as_slice());
        let (front, back) = self.as_slice().split_at(place);
        let mut list = Privates::new();
        list.extend(front);
        list.push(new);
        list.extend(back);
        *self = list;
    }

    /// Takes out what was made in the host and begins at the page.
    pub fn remove(&mut self, host: Entity, page: u64)
        ensures { self.new ≡ filter (λ p. not (p.made == host && p.region.at == page)) self.old }
    {
        let mut kept = Privates::new();
        for p in self.as_slice() {
            if !(p.made == host && p.region.at as u64 == page) {
                kept.push(*p);
            }
        }
        *self = kept;
    }
}
