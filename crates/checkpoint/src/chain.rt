// The checkpoint map of a superblock: a chain of blocks in the ring of the descriptor area.
ghost use Rattle.std.specs.Prelude.{◌≡◌, ℕ, ◌<◌, ◌^◌, pred, min};
ghost use Rattle.blocks.specs.Reads.{run};
ghost use Rattle.blocks.specs.Blocks.{block_of};
ghost use Rattle.blocks.specs.clauses.Images.{bytes, blocks_in};
ghost use Rattle.checkpoint.specs.Superblock.{descriptor_length};
ghost use Rattle.checkpoint.specs.Map.{map_count, mapping_at as mapping_of, mappings_of, belongs_to, ends_chain, chain, lookup as lookup_of};
ghost use Rattle.checkpoint.specs.clauses.InPlace.{Turn, turns, link_of, test_turn, look_turn, lookup_in, mapped_in, loads as loads_of};

use crate::{Checkpoint, Geometry, Mapping, superblock};
use blocks::{Address, ObjectId};
use std::ops::ControlFlow;

const CHECKPOINT_MAP: u64 = 12;

// Offsets in a map block, and in its entries.
const FLAGS: usize = 32;

// The bit of a chain's last block.
const LAST: u64 = 0;

const COUNT: usize = 36;

const ENTRIES: usize = 40;

const ENTRY_LENGTH: usize = 40;

const ENTRY_SIZE: usize = 8;

const ENTRY_ID: usize = 24;

const ENTRY_ADDRESS: usize = 32;

fn map_count(block: &[u8]) -> u64
    ensures { (result ≡ map_count block.now) × (result < 2 ^ 32) }
{
    fields::u32_of(block, COUNT)
}

fn ends_chain(block: &[u8]) -> bool
    ensures { result ≡ ends_chain block.now }
{
    fields::has_bit(fields::u32_of(block, FLAGS), LAST)
}

// Whether a block is one of the map of the superblock sb; it is summed last.
fn belongs_to(sb: &[u8], block: &[u8]) -> bool
    ensures { result ≡ belongs_to sb.now block.now }
{
    fields::kind(block) == CHECKPOINT_MAP
        && fields::xid(block) == fields::xid(sb)
        && ENTRIES as u64 + ENTRY_LENGTH as u64 * map_count(block) <= block.len() as u64
        && fletcher::verify(block)
}

fn mapping_at(block: &[u8], at: usize) -> Mapping
    requires { at < 2 ^ 62 }
    ensures { result ≡ mapping_of block.now at }
{
    Mapping {
        id: ObjectId(fields::u64_of(block, at + ENTRY_ID)),
        size: fields::u32_of(block, at + ENTRY_SIZE),
        address: Address(fields::u64_of(block, at + ENTRY_ADDRESS)),
    }
}

// An id looked for in one block of the map: "Of two entries with one id the first holds."
fn lookup_in_block(block: &[u8], id: ObjectId) -> Option<Mapping>
    ensures { result ≡ lookup_of id (mappings_of block.now) }
{
    for i in 0..map_count(block) {
        let at = ENTRIES + ENTRY_LENGTH * i as usize;
        if fields::u64_of(block, at + ENTRY_ID) == id.0 {
            return Some(mapping_at(block, at));
        }
    }
    None
}

// Turns at the places below n, until one ends the walk with its answer; last where none does.
fn walk<T: Copy, F: Fn(u64) -> ControlFlow<T>>(n: u64, last: T, turn: F) -> T
    requires { (k : ℕ) → k < n → F.pre turn k }
    ensures { (h : ℕ → Turn T) → ((k : ℕ) (r : Turn T) → k < n → F.post turn k r → r ≡ h k) → result ≡ turns h last n 0 }
{
    for k in 0..n {
        if let ControlFlow::Break(answer) = turn(k) {
            return answer;
        }
    }
    last
}

// The chain of map blocks that the superblock sb names, in the ring of the descriptor area.
#[derive(Clone, Copy)]
pub(crate) struct Chain<'a> {
    image: &'a [u8],
    size: u64,
    geometry: Geometry,
    sb: &'a [u8],
}

impl<'a> Chain<'a> {
    pub(crate) fn of(
        image: &'a [u8],
        size: u64,
        geometry: Geometry,
        superblock: Address,
    ) -> Chain<'a>
        ensures of_image { (result.image ≡ image.entry) × (result.size ≡ size) }
        ensures of_geometry { result.geometry ≡ geometry }
        ensures of_superblock { result.sb.now ≡ block_of (bytes image) size superblock.0 }
    {
        Chain {
            image,
            size,
            geometry,
            sb: blocks::block(image, size, superblock),
        }
    }

    // How many of its blocks need a look: from the ring's length on they come round again.
    fn chain_blocks(self) -> u64
        ensures { (result ≡ min self.entry.geometry.ring (pred (descriptor_length self.entry.sb.now))) × (result < 2 ^ 32) }
    {
        let length = superblock::descriptor_length(self.sb);
        fields::least(self.geometry.ring, length.saturating_sub(1))
    }

    // Where its block at an index stands, unless its address is a bad one.
    fn link(self, index: u64) -> Option<Address>
        requires { (0 < self.geometry.ring) × (index < 2 ^ 32) }
        ensures { result ≡ link_of self.entry.geometry self.entry.sb.now index }
    {
        let base = superblock::descriptor_base(self.sb);
        let offset = (superblock::descriptor_index(self.sb) + index) % self.geometry.ring;
        let n = base.checked_add(offset)?;
        (0 < n && n < self.geometry.count).then_some(Address(n))
    }

    // Whether it loads, where its block at an index tells.
    fn test(self, index: u64) -> ControlFlow<bool>
        requires { (0 < self.geometry.ring) × (index < 2 ^ 32) }
        ensures { result ≡ test_turn (block_of self.entry.image.now self.entry.size) self.entry.geometry self.entry.sb.now index }
    {
        let Some(address) = self.link(index) else {
            return ControlFlow::Break(false);
        };
        let block = blocks::block(self.image, self.size, address);
        if !belongs_to(self.sb, block) {
            return ControlFlow::Break(false);
        }
        if ends_chain(block) {
            ControlFlow::Break(true)
        } else {
            ControlFlow::Continue(())
        }
    }

    pub(crate) fn loads(self) -> bool
        requires { 0 < self.geometry.ring }
        ensures { result ≡ loads_of (run (block_of self.entry.image.now self.entry.size) (chain self.entry.geometry self.entry.sb.now)) }
    {
        walk(self.chain_blocks(), true, |k| self.test(k))
    }

    // What its map has for an id, where its block at an index tells.
    fn look(self, id: ObjectId, index: u64) -> ControlFlow<Option<Mapping>>
        requires { (0 < self.geometry.ring) × (index < 2 ^ 32) }
        ensures { result ≡ look_turn (block_of self.entry.image.now self.entry.size) self.entry.geometry self.entry.sb.now id index }
    {
        let Some(address) = self.link(index) else {
            return ControlFlow::Break(None);
        };
        let block = blocks::block(self.image, self.size, address);
        let mapped = lookup_in_block(block, id);
        if mapped.is_some() || ends_chain(block) {
            ControlFlow::Break(mapped)
        } else {
            ControlFlow::Continue(())
        }
    }

    // The entry of an id in its map; it was loaded before, and isn't summed again.
    fn lookup(self, id: ObjectId) -> Option<Mapping>
        ensures { result ≡ lookup_in (block_of self.entry.image.now self.entry.size) self.entry.geometry self.entry.sb.now id }
    {
        walk(self.chain_blocks(), None, |k| self.look(id, k))
    }
}

// What the checkpoint map has for an id: the only passage from an object's id to an address.
pub fn lookup(image: &[u8], checkpoint: Checkpoint, id: ObjectId) -> Option<Mapping>
    ensures { result ≡ mapped_in (blocks_in image.entry checkpoint.container) checkpoint id }
{
    Chain::of(
        image,
        checkpoint.container.size,
        checkpoint.geometry,
        checkpoint.superblock,
    )
    .lookup(id)
}
