ghost use Rattle.std.specs.Prelude.{◌≡◌, ℕ, ◌/◌, ◌*◌, ◌<◌, ◌≤◌, ◌^◌, IsTrue, IfOk, OnOk, OnErr, true, false};
ghost use Rattle.base_types.specs.Instructions.{IsInstruction};
ghost use Rattle.model_kernel.specs.Outcomes.{load as loaded, on_cell, store as stored, through as gone_through, with_word};
ghost use Rattle.model_kernel.specs.State.{Supply, ContainerCell, no_atlas};
ghost use Rattle.model_kernel.specs.Words.{denied};
ghost use Rattle.model_acts.specs.Views.{IsReadyLocus, ShowsPage};
ghost use Rattle.plain_states.specs.Plains.{container_of, locus_of};
ghost use Rattle.plain_states.specs.model_act_facts.Readiness.{IsReadyContainer, leaves_atlas};
ghost use Rattle.plain_facts.specs.Acts.{Acted};

use crate::beside_acts::{back, give, invoke, leave, take};
use crate::local_acts::finish;
use base_types::{Answer, Entity, Instr, PAGE_WORDS, Region, Reply, Rights};
use model_acts::next_walk;
use plain_states::looks::{next_address, region_at};
use plain_states::reads::{given_cap, register};
use plain_states::{PlainContainer, PlainLocus};
use std::alloc::AllocError;

// A LOOK

/// The cases of a region that covers the page: a denial, one hop more, or too many.
fn through(l: &mut PlainLocus, region: &Region, address: u64, needed: Rights) -> Answer
    requires shows { ShowsPage region.now (address / 128) }
    requires ready { IsReadyLocus (locus_of l.old) }
    requires place { l.old.place ≤ 128 }
    ensures locus { locus_of l.new ≡ (gone_through (locus_of l.old) region.now address (denied region.now.rights.0 needed.0)).locus }
    ensures answer { result ≡ (gone_through (locus_of l.old) region.now address (denied region.now.rights.0 needed.0)).answer }
{
    match next_walk(&l.view(), region, address, needed) {
        Ok(walk) => {
            l.walk = Some(walk);
            Answer::Hop
        }
        Err(reply) => finish(l, reply),
    }
}

/// Stores a word. On want of memory nothing is changed.
fn put_word(c: &mut PlainContainer, address: u64, word: u64) -> Result<(), AllocError>
    ensures ok { OnOk result ((s : Supply) → container_of s c.new ≡ with_word (container_of s c.old) address word) }
    ensures err { OnErr result ((s : Supply) → container_of s c.new ≡ container_of s c.old) }
{
    c.words.insert(address, word)?;
    Ok(())
}

/// The word at an address: the last one stored there, else the supplier's.
fn word<S: Fn(u64, u32, u16) -> u64>(c: &PlainContainer, supply: &S, address: u64) -> u64
    ghost s: { Supply }
    requires callable { (t p a : ℕ) → t < 2 ^ 64 → p < 256 → a < 128 → S.pre supply.now t p a }
    requires answers { (t p a r : ℕ) → t < 2 ^ 64 → p < 256 → a < 128 → S.post supply.now t p a r → r ≡ s t p a }
    requires address { address < 128 * 256 }
    ensures { result ≡ (container_of s c.now).words address }
{
    match c.words.get(&address) {
        Some(word) => *word,
        None => supply(
            c.tag,
            (address / PAGE_WORDS) as u32,
            (address % PAGE_WORDS) as u16,
        ),
    }
}

/// The look of a load.
#[tactic(auto, unfolding(model_kernel::specs::Outcomes::load))]
fn load<S: Fn(u64, u32, u16) -> u64>(
    l: &mut PlainLocus,
    c: &PlainContainer,
    supply: &S,
    d: u8,
    address: u64,
) -> Answer
    ghost s: { Supply }
    requires callable { (t p a : ℕ) → t < 2 ^ 64 → p < 256 → a < 128 → S.pre supply.now t p a }
    requires answers { (t p a r : ℕ) → t < 2 ^ 64 → p < 256 → a < 128 → S.post supply.now t p a r → r ≡ s t p a }
    requires register { d < 8 }
    requires place { l.old.place ≤ 128 }
    requires ready { IsReadyLocus (locus_of l.old) }
    requires container { IsReadyContainer c.now.pages c.now.regions.items }
    ensures locus { locus_of l.new ≡ (loaded (locus_of l.old) (container_of s c.now) d address).locus }
    ensures answer { result ≡ (loaded (locus_of l.old) (container_of s c.now) d address).answer }
{
    if address / PAGE_WORDS >= c.pages as u64 {
        return finish(l, Reply::NoPage);
    }
    if let Some(region) = region_at(c, address / PAGE_WORDS) {
        return through(l, &region, address, Rights::READ);
    }
    let word = word(c, supply, address);
    l.registers[d as usize] = word;
    let _ = finish(l, Reply::Ok);
    Answer::Read(word)
}

/// What an act beside a container answers, and whether it wrote the container.
#[derive(Clone, Copy)]
pub struct Made {
    pub answer: Answer,
    pub wrote: bool,
}

/// An act that only read the container.
pub fn read_only(answer: Answer) -> Made
    ensures answer { result.answer ≡ answer }
    ensures wrote { result.wrote ≡ false }
{
    Made {
        answer,
        wrote: false,
    }
}

/// An act that wrote the other entity.
pub fn written(answer: Answer) -> Made
    ensures answer { result.answer ≡ answer }
    ensures wrote { result.wrote ≡ true }
{
    Made {
        answer,
        wrote: true,
    }
}

/// The look of a store.
fn store(
    l: &mut PlainLocus,
    c: &mut PlainContainer,
    address: u64,
    word: u64,
) -> Result<Made, AllocError>
    requires place { l.old.place ≤ 128 }
    requires ready { IsReadyLocus (locus_of l.old) }
    requires container { IsReadyContainer c.old.pages c.old.regions.items }
    ensures made { IfOk result (λ made. (s : Supply) → Acted (stored (locus_of l.old) (container_of s c.old) address word) (locus_of l.new) (ContainerCell (container_of s c.old)) (ContainerCell (container_of s c.new)) made.answer made.wrote) }
    ensures err { OnErr result ((s : Supply) → (locus_of l.new ≡ locus_of l.old) × (container_of s c.new ≡ container_of s c.old)) }
{
    if address / PAGE_WORDS >= c.pages as u64 {
        return Ok(read_only(finish(l, Reply::NoPage)));
    }
    if let Some(region) = region_at(c, address / PAGE_WORDS) {
        return Ok(read_only(through(l, &region, address, Rights::WRITE)));
    }
    put_word(c, address, word)?;
    Ok(Made {
        answer: finish(l, Reply::Ok),
        wrote: true,
    })
}

/// What an act beside a container makes of both. On want of memory nothing is changed.
pub fn beside_container<S: Fn(u64, u32, u16) -> u64>(
    l: &mut PlainLocus,
    number: Entity,
    c: &mut PlainContainer,
    instr: Instr,
    supply: &S,
) -> Result<Made, AllocError>
    ghost s: { Supply }
    requires callable { (t p a : ℕ) → t < 2 ^ 64 → p < 256 → a < 128 → S.pre supply.now t p a }
    requires answers { (t p a r : ℕ) → t < 2 ^ 64 → p < 256 → a < 128 → S.post supply.now t p a r → r ≡ s t p a }
    requires ready { IsReadyLocus (locus_of l.old) }
    requires container { IsReadyContainer c.old.pages c.old.regions.items }
    requires instruction { IsInstruction instr }
    requires atlas { IsTrue (leaves_atlas instr) }
    ensures made { IfOk result (λ made. Acted (on_cell s (locus_of l.old) no_atlas number instr (ContainerCell (container_of s c.old))) (locus_of l.new) (ContainerCell (container_of s c.old)) (ContainerCell (container_of s c.new)) made.answer made.wrote) }
    ensures err { OnErr result ((locus_of l.new ≡ locus_of l.old) × (container_of s c.new ≡ container_of s c.old)) }
{
    match instr {
        Instr::Load(d, a) => {
            let address = next_address(l, register(l, a));
            Ok(read_only(load(l, c, supply, d, address)))
        }
        Instr::Store(a, v) => {
            let address = next_address(l, register(l, a));
            let word = register(l, v);
            store(l, c, address, word)
        }
        Instr::Invoke(_) => Ok(written(invoke(l, number, c)?)),
        Instr::Leave(_) => Ok(written(leave(l, number, c)?)),
        Instr::Return => back(l, c),
        Instr::Take(d, _, y) => {
            let slot = register(l, y);
            Ok(written(take(l, c, d, slot)))
        }
        Instr::Give(d, _, v, rights) => {
            let cap = given_cap(l, v, rights);
            Ok(written(give(l, c, d, cap)))
        }
        Instr::Snap(_) => Ok(written(finish(l, Reply::Ok))),
        // No locus that is sound wants another act here.
        _ => Ok(written(finish(l, Reply::WrongKind))),
    }
}
