// The block map: a byte for each block, bits 0 to 3 its owner, bit 4 marked, bit 5 used in the pool.
#![tactic(auto)]

ghost use Rattle.std.specs.Prelude.{◌≡◌, ◌%◌, min, length, get_or, set, replicate};
ghost use Rattle.block_map.specs.BlockMap.{owner_of, is_marked, is_used, marked, used, owned_by, update, used_at, cleared};
ghost use Rattle.block_map.specs.clauses.Rows.{greatest_in, itself, all_zero};

use blocks::Container;

// How many bytes are looked at together.
const ROW: usize = 256;

pub fn owner(byte: u8) -> u8
    ensures { result ≡ owner_of byte }
{
    byte & 0x0f
}

pub fn is_marked(byte: u8) -> bool
    ensures { result ≡ is_marked byte }
{
    byte >> 4 & 1 == 1
}

pub fn is_used(byte: u8) -> bool
    ensures { result ≡ is_used byte }
{
    byte >> 5 & 1 == 1
}

pub fn with_mark(byte: u8) -> u8
    ensures { result ≡ marked byte }
{
    byte | 0x10
}

fn with_use(byte: u8) -> u8
    ensures { result ≡ used byte }
{
    byte | 0x20
}

// A kind is below 16; of any other number the low four bits are taken.
fn with_owner(byte: u8, kind: u8) -> u8
    ensures { result ≡ owned_by (kind % 16) byte }
{
    (byte & 0xf0) | (kind & 0x0f)
}

// The byte of a block; past the map's end, 0.
pub fn cell(map: &[u8], block: u64) -> u8
    ensures { result ≡ get_or map.now block 0 }
{
    if block < map.len() as u64 {
        let i = block as usize;
        map[i]
    } else {
        0
    }
}

// Past the map's end nothing changes.
fn put(map: &mut [u8], block: u64, byte: u8)
    ensures { map.new ≡ set map.old block byte }
{
    if block < map.len() as u64 {
        let at = block as usize;
        map[at] = byte;
    }
}

pub fn mark_block(map: &mut [u8], block: u64)
    ensures { map.new ≡ update marked block map.old }
{
    let x = cell(map, block);
    put(map, block, with_mark(x));
}

pub fn use_block(map: &mut [u8], block: u64)
    ensures { map.new ≡ update used block map.old }
{
    let x = cell(map, block);
    put(map, block, with_use(x));
}

pub fn own_block(map: &mut [u8], block: u64, kind: u8)
    ensures { map.new ≡ update (owned_by (kind % 16)) block map.old }
{
    let x = cell(map, block);
    put(map, block, with_owner(x, kind));
}

// Bytes past the block count say nothing.
pub fn used_at(map: &[u8], container: Container, block: u64) -> bool
    ensures { result ≡ used_at container map.now block }
{
    if block < container.count {
        is_used(cell(map, block))
    } else {
        false
    }
}

// With no other test than the maximum's, so that many bytes are compared at once.
fn greatest(row: &[u8]) -> u8
    ensures { result ≡ greatest_in itself row.now 0 }
{
    let mut g: u8 = 0;
    for byte in row {
        g = g.max(*byte);
    }
    g
}

pub fn is_zero(row: &[u8]) -> bool
    ensures { result ≡ all_zero row.now }
{
    greatest(row) == 0
}

// Zeroes a row. One that is 0 isn't written: a page never written costs no memory.
fn clear_row(row: &mut [u8])
    ensures { row.new ≡ replicate (length row.old) 0 }
{
    if is_zero(row) {
        return;
    }
    row.fill(0);
}

// Zeroes each block's byte, as far as the map goes.
pub fn clear(map: &mut [u8], count: u64)
    ensures { map.new ≡ cleared (min count (length map.old)) map.old }
{
    let end = count.min(map.len() as u64) as usize;
    let mut at = 0;
    while ROW <= end - at {
        let next = at + ROW;
        clear_row(&mut map[at..next]);
        at = next;
    }
    clear_row(&mut map[at..end]);
}
