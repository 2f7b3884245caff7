//! The words of a container's pages, read from a disk.
ghost use Rattle.std.specs.Prelude.{◌≡◌, ◌≢◌, ◌<◌, ◌+◌, ◌*◌, ◌^◌, ℕ, IfOk, IsErrOf, OnOk, take};
ghost use Rattle.edge_disk.specs.Counts.{Rose};
ghost use Rattle.edge_disk.specs.Disk.{HasCause};
ghost use Rattle.edge_disk.specs.Image.{block_at};
ghost use Rattle.plain_states.specs.model_kernel.State.{Supply};
ghost use Rattle.image_shown_facts.specs.image_meaning.Parts.{word_in, words_in};
ghost use Rattle.log_reading.specs.log_facts.Reads.{ReadsOnly};
ghost use Rattle.image_shown_facts.specs.image_plain.Words.{words_with};
ghost use Rattle.image_shown_facts.specs.store_books.Books.{words_of_bytes};
ghost use Rattle.image_shown_facts.specs.States.{AreOnDisk};
ghost use Rattle.image_shown_facts.specs.Words.{IsSparse};

use crate::faults::PagesFault;
use crate::words::keep_page;
use act_alone::Head;
use base_types::MOST_PAGES;
use edge_disk::{Disk, DiskFault};
use image_shown_facts::words_in;
use std::alloc::Global;
use std::collections::BTreeMap;

// The words in a block.
fn read_words<D: Disk>(disk: &mut D, block: u32) -> Result<[u64; 128], DiskFault>
    requires { block < D.block_count disk.old }
    ensures words { D.tells → IfOk result (λ ws. ws ≡ words_of_bytes (block_at (D.reading disk.old) block)) }
    ensures cause { HasCause (D.faults disk.old) (D.faults disk.new) result }
    ensures same { ReadsOnly D.Disk disk.old disk.new }
{
    let mut bytes = [0; 1024];
    disk.read(block, &mut bytes)?;
    Ok(words_in(&bytes))
}

// Keeps the words of a page, which may have no block, behind those of the pages before it.
fn take_page<D: Disk, S: Fn(u64, u32, u16) -> u64>(
    disk: &mut D,
    words: &mut BTreeMap<u64, u64>,
    tag: u64,
    page: u64,
    block: u32,
    supply: &S,
) -> Result<(), PagesFault>
    ghost s: { Supply }
    requires callable { (t p a : ℕ) → t < 2 ^ 64 → p < 256 → a < 128 → S.pre supply.now t p a }
    requires answers { (t p a r : ℕ) → t < 2 ^ 64 → p < 256 → a < 128 → S.post supply.now t p a r → r ≡ s t p a }
    requires page { page < 256 }
    requires there { block ≢ 0 → block < D.block_count disk.old }
    requires sparse { IsSparse s tag (128 * page) words.old }
    ensures sparse { OnOk result (IsSparse s tag (128 * page + 128) words.new) }
    ensures here { D.tells → OnOk result ((k : ℕ) → k < 128
        → words_with s tag words.new (128 * page + k) ≡ word_in s tag (block_at (D.reading disk.old)) block (128 * page + k)) }
    ensures before { OnOk result ((a : ℕ) → a < 128 * page → words_with s tag words.new a ≡ words_with s tag words.old a) }
    ensures cause { IsErrOf result PagesFault.ReadFault → Rose (D.faults disk.old) (D.faults disk.new) }
    ensures same { ReadsOnly D.Disk disk.old disk.new }
{
    if block == 0 {
        return Ok(());
    }
    let page_words = read_words(disk, block)?;
    keep_page(words, tag, page, &page_words, supply)?;
    Ok(())
}

// The words of a container with this head, the blocks of whose pages are these: those that differ from the supplier's.
pub(crate) fn words_of<D: Disk, S: Fn(u64, u32, u16) -> u64>(
    alloc: Global,
    disk: &mut D,
    head: &Head,
    blocks: &[u32; 256],
    supply: &S,
) -> Result<BTreeMap<u64, u64>, PagesFault>
    ghost s: { Supply }
    requires callable { (t p a : ℕ) → t < 2 ^ 64 → p < 256 → a < 128 → S.pre supply.now t p a }
    requires answers { (t p a r : ℕ) → t < 2 ^ 64 → p < 256 → a < 128 → S.post supply.now t p a r → r ≡ s t p a }
    requires there { AreOnDisk (D.block_count disk.old) (take head.now.pages blocks.now) }
    ensures sparse { IfOk result (IsSparse s head.now.tag (128 * head.now.pages)) }
    ensures words { D.tells → IfOk result (λ words. (a : ℕ) → words_with s head.now.tag words a
        ≡ words_in s head.now.tag (block_at (D.reading disk.old)) (take head.now.pages blocks.now) a) }
    ensures cause { IsErrOf result PagesFault.ReadFault → Rose (D.faults disk.old) (D.faults disk.new) }
    ensures same { ReadsOnly D.Disk disk.old disk.new }
{
    let mut words = BTreeMap::new(alloc);
    for page in 0..(head.pages as usize).min(MOST_PAGES as usize) {
        take_page(
            disk,
            &mut words,
            head.tag,
            page as u64,
            blocks[page],
            supply,
        )?;
    }
    Ok(words)
}
