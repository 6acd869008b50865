// The internal pool: the blocks that the manager keeps for its own, and their bitmap, read where it stands.
#![tactic(auto)]

ghost use Rattle.std.specs.Prelude.{◌≡◌, ◌+◌, ◌-◌, ◌*◌, ◌/◌, ◌<◌, ◌≤◌, nat_le, slice_index};
ghost use Rattle.fields.specs.Fields.{bit_at};
ghost use Rattle.blocks.specs.clauses.Images.{bytes, blocks_in, Holds};
ghost use Rattle.block_map.specs.BlockMap.{used_at};
ghost use Rattle.manager.specs.clauses.Place.{manager_on};
ghost use Rattle.pool.specs.Pool.{pool_from, load_pool, pool_index, pool_marked, unused_from};
ghost use Rattle.pool.specs.clauses.Place.{pool_on, bitmap_on, bitmap_block_on, PartAt};
ghost use Rattle.pool.specs.clauses.Unused.{unused_one, byte_end, piece_end, Places, OneByte};
ghost use Rattle.pool.specs.clauses.Load.{place_on, indices_on, BitmapSeen, BitmapsSeen, LoadsPool};

use blocks::{Address, Container, Refusal};
use fields::BYTE_BITS;
use manager::{Manager, lists, offsets, place};

// So many bits has a bitmap's block of the smallest size.
const PIECE: u64 = 32768;

// Where the pool lies, and through what its bitmap is found: the manager, the ring of its bitmap blocks, how many of these there
// are, and where in the manager their places in the ring are listed.
#[derive(Clone, Copy)]
pub struct PoolPlace {
    pub manager: Manager,
    pub base: u64,
    pub blocks: u64,
    pub ring: u64,
    pub bitmaps: u64,
    pub indices: u64,
}

// The place of a block in the pool: those below its base wrap, and fall outside.
pub fn pool_index(block: u64, base: u64) -> u64
    ensures { result ≡ pool_index block base }
{
    block.wrapping_sub(base)
}

// Which block of a bitmap has a bit.
pub fn block_of_bit(size: u64, bit: u64) -> u64
    ensures { result ≡ bit / 8 / size }
{
    (bit / BYTE_BITS).checked_div(size).unwrap_or(0)
}

// Block index of the bitmap; empty past its end.
pub fn bitmap_block(image: &[u8], container: Container, pool: PoolPlace, index: u64) -> &[u8]
    ensures { result.now ≡ bitmap_block_on image container pool index }
{
    if pool.bitmaps <= index {
        return &[];
    }
    let at = lists::index_at(image, container, pool.manager, pool.indices, index);
    place::block_after(image, container, pool.ring, at)
}

// Byte index of the bitmap, or 0 past its end.
fn bitmap_byte(image: &[u8], container: Container, pool: PoolPlace, index: u64) -> u8
    ensures { result ≡ slice_index (bitmap_on image container pool) index }
{
    let size = container.size;
    if size == 0 {
        return 0;
    }
    let block = bitmap_block(image, container, pool, index / size);
    block.get((index % size) as usize).copied().unwrap_or(0)
}

// Byte index of a bitmap of which a part is at hand: its bytes from number first on.
fn byte_near(
    image: &[u8],
    container: Container,
    pool: PoolPlace,
    part: &[u8],
    first: u64,
    index: u64,
) -> u8
    requires { PartAt image container pool part first }
    ensures { result ≡ slice_index (bitmap_on image container pool) index }
{
    if first <= index && index - first < part.len() as u64 {
        return part[(index - first) as usize];
    }
    bitmap_byte(image, container, pool, index)
}

// Bit index of the bitmap, of which a part is at hand.
fn bit_near(
    image: &[u8],
    container: Container,
    pool: PoolPlace,
    part: &[u8],
    first: u64,
    index: u64,
) -> bool
    requires { PartAt image container pool part first }
    ensures { result ≡ bit_at (bitmap_on image container pool) index }
{
    let b = byte_near(image, container, pool, part, first, index / BYTE_BITS);
    fields::bit_of(b, index)
}

// Whether a block is in the pool, and its bit is 1, of a bitmap of which a part is at hand: for blocks whose bits are mostly in one
// block of it, which is then found once.
pub fn marked_near(
    image: &[u8],
    container: Container,
    pool: PoolPlace,
    part: &[u8],
    first: u64,
    block: u64,
) -> bool
    requires { PartAt image container pool part first }
    ensures { result ≡ pool_marked (pool_on image container pool) block }
{
    let i = pool_index(block, pool.base);
    i < pool.blocks && bit_near(image, container, pool, part, first, i)
}

// Whether a block is in the pool, and its bit is 1.
pub fn pool_marked(image: &[u8], container: Container, pool: PoolPlace, block: u64) -> bool
    ensures { result ≡ pool_marked (pool_on image container pool) block }
{
    marked_near(image, container, pool, &[], 0, block)
}

// Where the manager's fields put the pool.
pub fn pool_place(image: &[u8], container: Container, manager: Manager) -> PoolPlace
    ensures { result ≡ place_on image container manager }
{
    PoolPlace {
        manager,
        base: place::u64_of(image, container, manager, offsets::POOL_BASE),
        blocks: place::u64_of(image, container, manager, offsets::POOL_BLOCKS),
        ring: place::u64_of(image, container, manager, offsets::POOL_RING),
        bitmaps: place::u32_of(image, container, manager, offsets::POOL_BITMAPS),
        indices: place::u32_of(image, container, manager, offsets::POOL_INDICES_AT),
    }
}

// Block index of the bitmap, if it may be read.
fn bitmap_there(
    image: &[u8],
    container: Container,
    pool: PoolPlace,
    index: u64,
) -> Result<&[u8], Refusal>
    ensures { BitmapSeen (blocks_in image.entry container) container pool index result }
{
    let at = lists::index_at(image, container, pool.manager, pool.indices, index);
    let address = blocks::add(pool.ring, at)?;
    blocks::raw_block(image, container, Address(address))
}

// Whether the bitmap's first blocks may be read: no byte of them is looked at.
fn bitmaps_there(
    image: &[u8],
    container: Container,
    pool: PoolPlace,
    bitmaps: u64,
) -> Result<(), Refusal>
    ensures { BitmapsSeen (blocks_in image.entry container) container pool bitmaps result }
{
    for i in 0..bitmaps {
        bitmap_there(image, container, pool, i)?;
    }
    Ok(())
}

// Whether so many blocks of bitmap have a bit for each of a pool's blocks: by division, since the product may pass 2^64.
fn has_bits(size: u64, bitmaps: u64, blocks: u64) -> bool
    requires { 0 < size }
    ensures { result ≡ nat_le blocks (bitmaps * size * 8) }
{
    blocks.div_ceil(BYTE_BITS).div_ceil(size) <= bitmaps
}

// The pool, once the list of its bitmap's blocks is known to be whole.
fn load_at(image: &[u8], container: Container, pool: PoolPlace) -> Result<(), Refusal>
    requires { Holds image.now container }
    ensures { LoadsPool image container pool result (pool_from container pool.ring pool.base pool.blocks (indices_on image container pool)) }
{
    bitmaps_there(image, container, pool, pool.bitmaps)?;
    if has_bits(container.size, pool.bitmaps, pool.blocks) {
        Ok(())
    } else {
        Err(Refusal::BadBitmap)
    }
}

// Whether the pool at its manager's place may be used.
pub fn load(image: &[u8], container: Container, manager: Manager) -> Result<(), Refusal>
    requires { Holds image.now container }
    ensures { LoadsPool image container (place_on image container manager) result (load_pool container (manager_on image container manager)) }
{
    lists::pool_indices(image, container, manager)?;
    load_at(image, container, pool_place(image, container, manager))
}

// Whether the pool's block index is used; a block number past 2^64 is past every count.
fn used_in(map: &[u8], container: Container, base: u64, index: u64) -> bool
    ensures { result ≡ used_at container (bytes map) (base + index) }
{
    base.checked_add(index)
        .is_some_and(|block| block_map::used_at(map, container, block))
}

// 1 where the pool's block index is marked, as its bit says, but unused.
fn unused_one(map: &[u8], container: Container, base: u64, index: u64, marked: bool) -> u64
    ensures { (result ≡ unused_one container (bytes map) marked (base + index)) × (result ≤ 1) }
{
    u64::from(marked && !used_in(map, container, base, index))
}

// The first of the pool's blocks after index whose bit is in another byte than index's, or their end.
fn byte_end(index: u64, blocks: u64) -> u64
    ensures { result ≡ byte_end index blocks }
{
    (index / BYTE_BITS * BYTE_BITS)
        .saturating_add(BYTE_BITS)
        .min(blocks)
}

// How many of the pool's blocks from first to end, whose bits are in one byte, are marked but unused; after before. A part of the
// bitmap is at hand.
fn unused_byte(
    image: &[u8],
    map: &[u8],
    container: Container,
    pool: PoolPlace,
    part: &[u8],
    near: u64,
    first: u64,
    end: u64,
    before: u64,
) -> u64
    requires { PartAt image container pool part near × Places first end before pool.blocks × OneByte first end }
    ensures { result ≡ unused_from container (pool_on image container pool) (bytes map) (end - first) (pool.base + first) before }
{
    let b = byte_near(image, container, pool, part, near, first / BYTE_BITS);
    if b == 0 {
        return before;
    }
    let mut found = before;
    for i in first..end {
        found += unused_one(map, container, pool.base, i, fields::bit_of(b, i));
    }
    found
}

// How many of the pool's blocks from first to end are marked but unused; after before. The bitmap's block with the first of their
// bits is found once, since it has all of them where they are a piece.
fn unused_piece(
    image: &[u8],
    map: &[u8],
    container: Container,
    pool: PoolPlace,
    first: u64,
    end: u64,
    before: u64,
) -> u64
    requires { Places first end before pool.blocks }
    ensures { result ≡ unused_from container (pool_on image container pool) (bytes map) (end - first) (pool.base + first) before }
{
    let size = container.size;
    let k = block_of_bit(size, first);
    let part = bitmap_block(image, container, pool, k);
    let near = k * size;
    let mut n = before;
    let mut i = first;
    while i < end {
        let to = byte_end(i, end);
        n = unused_byte(image, map, container, pool, part, near, i, to, n);
        i = to;
    }
    n
}

// A piece after the pool's block index, or their end.
fn piece_end(index: u64, blocks: u64) -> u64
    ensures { result ≡ piece_end index blocks }
{
    index.saturating_add(PIECE).min(blocks)
}

// How many pool blocks are marked but unused.
pub fn unused(image: &[u8], map: &[u8], container: Container, pool: PoolPlace) -> u64
    ensures { result ≡ unused_from container (pool_on image container pool) (bytes map) pool.blocks pool.base 0 }
{
    let mut n = 0;
    for i in (0..pool.blocks).step_by(PIECE as usize) {
        n = unused_piece(image, map, container, pool, i, piece_end(i, pool.blocks), n);
    }
    n
}
