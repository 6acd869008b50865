// The whole bytes of a chunk's bitmap whose blocks the container and the map have: none of their bits is refused.
ghost use Rattle.std.specs.Prelude.{◌≡◌, ◌+◌, ◌-◌, ◌*◌, ◌≤◌, length, get_or};
ghost use Rattle.fields.specs.Choice.{pick};
ghost use Rattle.blocks.specs.clauses.Images.{bytes};
ghost use Rattle.block_map.specs.BlockMap.{marked};
ghost use Rattle.audit.specs.clauses.Bits.{bits_on, ones_in, whole_bytes, InMap};

use blocks::Container;
use fields::{BYTE_BITS, least};

// A byte whose bits are all 1.
const ONES: u8 = 0xff;

// Every other bit of a byte, from the lowest.
const EVEN_BITS: u64 = 0x55;

// Every other pair of its bits.
const EVEN_PAIRS: u64 = 0x33;

// Its low four bits.
const LOW_FOUR: u64 = 0x0f;

// How many blocks there are from start to an end.
fn from(start: u64, end: u64) -> u64
    ensures { result ≡ end - start }
{
    if end < start { 0 } else { end - start }
}

pub(crate) fn whole_bytes(
    map: &[u8],
    container: Container,
    bits: &[u8],
    start: u64,
    blocks: u64,
) -> u64
    ensures { result ≡ whole_bytes container.count (bytes map) (bytes bits) start blocks }
{
    let inside = least(from(start, container.count), from(start, map.len() as u64));
    least(least(blocks, inside) / BYTE_BITS, bits.len() as u64)
}

// A block's byte, marked where its bit is set.
fn with_bit(byte: u8, set: bool) -> u8
    ensures { result ≡ pick set (marked byte) byte }
{
    if set {
        block_map::with_mark(byte)
    } else {
        byte
    }
}

// How many bits of a byte are set: neighbours are added, first single bits, then pairs, then fours.
fn ones(byte: u8) -> u64
    ensures { result ≡ ones_in 8 byte }
{
    let x = byte as u64;
    let pairs = x - (x >> 1 & EVEN_BITS);
    let fours = (pairs & EVEN_PAIRS) + (pairs >> 2 & EVEN_PAIRS);
    (fours + (fours >> 4)) & LOW_FOUR
}

// The eight blocks of the byte at a place, with no branch on a bit.
fn mark_eight(map: &mut [u8], bits: &[u8], start: u64, at: u64, byte: u8)
    requires { (start + 8 * at + 8 ≤ length map.old) × (byte ≡ get_or bits.now at 0) }
    ensures { map.new ≡ (bits_on bits start 8 (8 * at) map 0).map }
{
    let first = start + BYTE_BITS * at;
    for k in 0..BYTE_BITS {
        let a = (first + k) as usize;
        map[a] = with_bit(map[a], fields::bit_of(byte, k));
    }
}

// The eight blocks of a byte of the bitmap; answers how many of its bits are 0, after zeros.
// A byte of ones is most of what isn't 0, and is marked as one word where the compiler sees its value.
fn mark_byte(map: &mut [u8], bits: &[u8], start: u64, index: u64, zeros: u64) -> u64
    requires { InMap map.old bits.now start index zeros }
    ensures { record { map = map.exit.now; figures = result } ≡ bits_on bits start 8 (8 * index) map zeros }
{
    let b = bits[index as usize];
    if b == ONES {
        mark_eight(map, bits, start, index, ONES);
        return zeros;
    }
    // Counted first: two ways that begin alike have their first block read before the test, and neither is one word then.
    let after = zeros + (BYTE_BITS - ones(b));
    mark_eight(map, bits, start, index, b);
    after
}

// The first bytes, so many as counted; answers how many bits were 0. A byte 0 touches nothing: a page of the map never written costs
// no memory.
pub(crate) fn mark_bytes(map: &mut [u8], bits: &[u8], start: u64, count: u64) -> u64
    requires { (8 * count ≤ length map.old - start) × (count ≤ length bits.now) }
    ensures { record { map = map.exit.now; figures = result } ≡ bits_on bits start (8 * count) 0 map 0 }
{
    let mut zeros = 0;
    for j in 0..count {
        if bits[j as usize] == 0 {
            zeros += BYTE_BITS;
        } else {
            zeros = mark_byte(map, bits, start, j, zeros);
        }
    }
    zeros
}
