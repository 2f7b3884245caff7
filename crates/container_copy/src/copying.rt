// A container copied in the image that a disk holds.
ghost use Rattle.std.specs.Prelude.{◌≡◌, ◌⊎◌, ◌≤◌, ℕ, IfOk, IfErr, MatchResult, Some};
ghost use Rattle.edge_disk.specs.Moments.{LeavesOnly};
ghost use Rattle.cell_copies.specs.cell_births.act_calls.Calls.{atlas_state};
ghost use Rattle.cell_copies.specs.model_copies.model_kernel.State.{KernelState, Supply};
ghost use Rattle.copy_commits.specs.Putting.{MeansBeforeOr};
ghost use Rattle.copy_commits.specs.kernel_records.store_books.Books.{AreTrue, free_in};
ghost use Rattle.copy_commits.specs.store_facts.State.{books};
ghost use Rattle.data_atlas.specs.data_atlas_facts.Directory.{Directory};
ghost use Rattle.open_image.specs.image_meaning.Meaning.{Accepted};
ghost use Rattle.open_image.specs.open_facts.Images.{HasTurnLeft, IsOpenedTable, WasRefused};
ghost use Rattle.open_image.specs.table_laws.Steps.{HasDirectory};
ghost use Rattle.cell_copies.specs.Refusals.{copy_refusal};
ghost use Rattle.open_image.specs.image_blocks.Checks.{Bad as BadPlace};
ghost use Rattle.container_copy.specs.Copying.{IsChosenPair, StandsTable, copy_key};
ghost use Rattle.container_copy.specs.Leaving.{CopiesSince, FindsBlocks, HasCopyCause, HasCopyWhy, HasTableCause, IsDiskWhy, IsOnlyOpened, IsOpenCause, IsStoreCause, MadeCopy, PutsCopy, StopsShortCopy};
ghost use Rattle.container_copy.specs.Needs.{TableNeeds};

use crate::lending::copy_at;
use base_bytes::Blob;
use base_types::{Entity, Kind};
use cell_copies::{container_of, refusal_of};
use data_atlas::Atlas;
use edge_disk::{Disk, NoBlocks};
use image_blocks::Bad;
use open_image::{OpenWhy, open_parts};
use script_types::{Refusal, Why};
use std::alloc::Global;
use store_snapshots::{Store, StoreFault};
use table_births::{Cell, atlas_of};

/// Why a container was not copied.
#[derive(Drop)]
pub enum CopyWhy {
    /// The image isn't accepted: its first bad place. Nothing was written.
    Foreign(Bad),
    /// No container has the name, the new one is none that may be given or is taken, or 40 containers are born.
    Refused(Refusal),
    /// Fewer blocks are free than the copy needs. Nothing was written for it.
    NoBlocks(NoBlocks),
    /// A read failed.
    ReadFault,
    /// A write or a sync failed.
    WriteFault,
    /// Memory ran out.
    Memory,
}

/// A copy that was made: its number, and the disk.
#[derive(Drop)]
pub struct Copied<D: Disk> {
    pub number: Entity,
    pub disk: D,
}

/// A copy that was not made, and the disk.
#[derive(Drop)]
pub struct CopyFault<D: Disk> {
    pub why: CopyWhy,
    pub disk: D,
}

// The key that a refusal names.
fn key_of<'a>(why: Why, name: &'a str, fresh: &'a str) -> &'a str
    ensures { result.now ≡ copy_key why name.now fresh.now }
{
    match why {
        Why::Unknown => name,
        Why::Name => fresh,
        Why::NoRoom
        | Why::NotToml
        | Why::Missing
        | Why::Kind
        | Why::Range
        | Why::TooMany
        | Why::BadCode
        | Why::Long
        | Why::Clash => "container",
    }
}

// The refusal, or want of memory for its key.
fn refused(alloc: Global, why: Why, name: &str, fresh: &str) -> CopyWhy
    ensures { HasCopyWhy why name.now fresh.now result }
{
    match Refusal::new(alloc, why, key_of(why, name, fresh)) {
        Ok(refusal) => CopyWhy::Refused(refusal),
        Err(_) => CopyWhy::Memory,
    }
}

// Why the image could not be opened.
fn opening_fault(why: OpenWhy) -> CopyWhy
    ensures { IsOpenCause why result }
{
    match why {
        OpenWhy::Foreign(bad) => CopyWhy::Foreign(bad),
        OpenWhy::ReadFault => CopyWhy::ReadFault,
        OpenWhy::WriteFault => CopyWhy::WriteFault,
        OpenWhy::Memory => CopyWhy::Memory,
    }
}

// Why the store could not take the copy. It was never shut before.
fn store_fault(fault: StoreFault) -> CopyWhy
    ensures { IsStoreCause fault result }
{
    match fault {
        StoreFault::NoBlocks(short) => CopyWhy::NoBlocks(short),
        StoreFault::ReadFault => CopyWhy::ReadFault,
        StoreFault::WriteFault | StoreFault::Shut => CopyWhy::WriteFault,
    }
}

// The number of the container, and of its copy, where none of the refusals holds.
fn numbers(atlas: &Atlas, name: &str, fresh: &str) -> Result<(usize, usize), Why>
    ensures made { IfOk result (λ n. IsChosenPair atlas.now name.now fresh.now n.0 n.1) }
    ensures refused { IfErr result (λ why. copy_refusal (atlas_state atlas.now) name.now fresh.now ≡ Some why) }
{
    if let Some(why) = refusal_of(atlas, name, fresh) {
        return Err(why);
    }
    let source = container_of(atlas, name).unwrap();
    Ok((
        source.number() as usize,
        atlas.named(Kind::Container) as usize + 1,
    ))
}

// Copies a container over the cells and the store of an image that was opened, and answers the copy's number.
fn copy_in<D: Disk>(
    alloc: Global,
    store: &mut Store<D>,
    cells: &mut [Cell],
    name: &str,
    fresh: &str,
) -> Result<Entity, CopyWhy>
    requires table { IsOpenedTable 1 1 store.old cells.old }
    requires true_books { D.tells → AreTrue D.Disk (books store.old) store.old.disk }
    ensures any_moment { D.tells → (s : Supply) → (v : KernelState) → StandsTable s v (D.reading store.old.disk) (books store.old) cells.old
        → LeavesOnly D.Disk store.old.disk store.new.disk (MeansBeforeOr s name.now fresh.now v) }
    ensures made { D.tells → IfOk result (λ number. (s : Supply) → (v : KernelState) → StandsTable s v (D.reading store.old.disk) (books store.old) cells.old
        → PutsCopy D.Disk s name.now fresh.now v store.new.disk number) }
    ensures cause { (d : Directory) → HasDirectory cells.old d → IfErr result (HasTableCause (atlas_state d) cells.old name.now fresh.now (books store.old) (D.faults store.old.disk) (D.faults store.new.disk)) }
    ensures room { IfOk result (λ number. (need : ℕ) × (need ≤ free_in (books store.old)) × TableNeeds cells.old name.now fresh.now need) }
    ensures kept { IfErr result (λ why. IsDiskWhy why ⊎ (store.new ≡ store.old)) }
    ensures later { D.faults store.old.disk ≤ D.faults store.new.disk }
{
    let (source, newborn) = match numbers(atlas_of(cells), name, fresh) {
        Ok(numbers) => numbers,
        Err(why) => return Err(refused(alloc, why, name, fresh)),
    };
    let mut blob = match Blob::new(alloc) {
        Ok(blob) => blob,
        Err(_) => return Err(CopyWhy::Memory),
    };
    match copy_at(cells, source, newborn, fresh, store, &mut blob) {
        Ok(()) => Ok(Entity::of(newborn as u8)),
        Err(fault) => Err(store_fault(fault)),
    }
}

/// Makes a second container, as that of the one name, under the other name, in the image that a disk holds and nobody runs: in full or not at all. It has
/// the pages, the tag, the interval, the code, the entry, the regions and the words of the first, no capabilities, version 1, and the lowest free
/// number. Pages are copied block by block, and a page without a block stays without one; no supplier and no policy is called.
///
/// Reasons against it come in this order. `Foreign` comes where the image isn't accepted, with its first bad place. `Refused` comes with Unknown and
/// the name where no container has it; with Name and the new name where that isn't well formed, is `atlas` or is in the atlas; with NoRoom and
/// `container` where 40 containers are born. `NoBlocks` comes where fewer blocks are free than the pages of the container that have one and the two
/// new blobs need, before the first of them is written, with both numbers. `ReadFault` and `WriteFault` come only where the disk's count of faults rose,
/// and `Memory` where memory ran out. The disk comes back with each.
///
/// From the end of the opening's sync on, a stop leaves an image that means what the image meant, or that with the copy. It costs an opening, a
/// read and a write for each page that has a block, and two commits; the memory is that of an opening with a frame for each container.
pub fn copy_container<D: Disk>(
    alloc: Global,
    disk: D,
    name: &str,
    fresh: &str,
) -> Result<Copied<D>, CopyFault<D>>
    ensures made { D.tells → IfOk result (MadeCopy D.Disk (D.reading disk) name.now fresh.now) }
    ensures cause { IfErr result (λ f. HasCopyCause D.Disk name.now fresh.now disk f.disk f.why) }
    ensures not_foreign { D.tells → Accepted (D.reading disk) → IfErr result (λ f. (bad : BadPlace) → f.why ≡ CopyWhy.Foreign bad → ⊥) }
    ensures room { D.tells → IfOk result (λ c. FindsBlocks (D.reading disk) name.now fresh.now) }
    ensures refused { IfErr result (λ f. (bad : BadPlace) → f.why ≡ CopyWhy.Foreign bad → WasRefused D.Disk disk f.disk) }
    ensures kept { IfErr result (λ f. IsDiskWhy f.why ⊎ IsOnlyOpened D.Disk disk f.disk) }
    ensures since { D.tells → HasTurnLeft (D.reading disk) → MatchResult result
        (λ c. CopiesSince D.Disk name.now fresh.now disk c.disk)
        (λ f. StopsShortCopy D.Disk f.why disk f.disk ⊎ CopiesSince D.Disk name.now fresh.now disk f.disk) }
{
    let (mut store, mut cells) = match open_parts(alloc, disk, 1, 1) {
        Ok(opened) => opened,
        Err(fault) => {
            return Err(CopyFault {
                why: opening_fault(fault.why),
                disk: fault.disk,
            });
        }
    };
    let copied = copy_in(alloc, &mut store, cells.as_mut_slice(), name, fresh);
    let disk = store.into_disk();
    match copied {
        Ok(number) => Ok(Copied { number, disk }),
        Err(why) => Err(CopyFault { why, disk }),
    }
}
