// A chunk's bitmap: its bits marked in the block map, and its zeros counted.
ghost use Rattle.std.specs.Prelude.{◌≡◌, ◌+◌, ◌*◌, ◌^◌, ◌≤◌, ◌<◌, eqb, leb, length};
ghost use Rattle.fields.specs.Choice.{pick};
ghost use Rattle.blocks.specs.clauses.Images.{bytes};
ghost use Rattle.report.specs.clauses.Steps.{Within};
ghost use Rattle.audit.specs.Audit.{mark_set, mark_from, with_counts, tally as tally_of, tally_bitmap, read_bitmap};
ghost use Rattle.audit.specs.clauses.Answers.{Anywhere, AuditsAs, AuditsBlind, Marks, MarksAs, bits_left};

use crate::{Audit, whole};
use blocks::{Container, Refusal};
use fields::BYTE_BITS;
use manager::Chunk;
use report::Cursor;

// A set bit's block marked, where the container has it.
#[inline(never)]
fn mark_set(map: &mut [u8], container: Container, start: u64, bit: u64) -> Result<(), Refusal>
    ensures { Marks map container result (mark_set container start bit) }
{
    let block = blocks::add(start, bit)?;
    if container.count <= block {
        return Err(Refusal::BadBitmap);
    }
    block_map::mark_block(map, block);
    Ok(())
}

// The bits from a cursor on, with the zeros before them: a set one's block is marked, and what isn't set is a zero.
// Neither is inlined, so that a clear bit takes as few steps as can be.
#[inline(never)]
fn mark_rest(
    map: &mut [u8],
    container: Container,
    bits: &[u8],
    start: u64,
    from: Cursor,
    before: u64,
) -> Result<u64, Refusal>
    requires { Within from × (before + from.left < 2 ^ 64) }
    ensures { MarksAs map container before result (bits_left container bits start from) }
{
    let mut ones: u64 = 0;
    for bit in from.next..from.next + from.left {
        if fields::bit_at(bits, bit) {
            mark_set(map, container, start, bit)?;
            ones += 1;
        }
    }
    Ok(before + (from.left - ones))
}

// The bits of so many blocks from start on: a byte at a time where none can be refused, then one by one.
fn mark_bits(
    map: &mut [u8],
    container: Container,
    bits: &[u8],
    start: u64,
    blocks: u64,
) -> Result<u64, Refusal>
    ensures { MarksAs map container 0 result (mark_from container (bytes bits) start blocks 0) }
{
    let n = whole::whole_bytes(map, container, bits, start, blocks);
    let zeros = whole::mark_bytes(map, bits, start, n);
    let next = BYTE_BITS * n;
    let left = blocks - next;
    mark_rest(map, container, bits, start, Cursor { next, left }, zeros)
}

// 1 for a chunk whose free count differs from its zeros.
fn differing(chunk: Chunk, zeros: u64) -> u64
    ensures { result ≡ pick (eqb zeros chunk.free) 0 1 }
{
    if zeros == chunk.free { 0 } else { 1 }
}

fn with_counts(free: u64, wrong: u64, audit: Audit) -> Audit
    ensures { result ≡ with_counts free wrong audit }
{
    Audit {
        free,
        wrong,
        ..audit
    }
}

// A chunk's zeros added to what was counted.
pub(crate) fn tally(chunk: Chunk, audit: Audit, zeros: u64) -> Result<Audit, Refusal>
    ensures { Anywhere audit result (λ s. tally_of chunk s.map audit zeros) }
{
    let free = blocks::add(audit.free, zeros)?;
    let wrong = blocks::add(audit.wrong, differing(chunk, zeros))?;
    Ok(with_counts(free, wrong, audit))
}

// A chunk's bits, and then its zeros.
fn tally_bitmap(
    map: &mut [u8],
    container: Container,
    bits: &[u8],
    chunk: Chunk,
    audit: Audit,
) -> Result<Audit, Refusal>
    ensures { AuditsBlind map container audit result (tally_bitmap container chunk (bytes bits)) }
{
    let zeros = mark_bits(map, container, bits, chunk.start, chunk.blocks)?;
    tally(chunk, audit, zeros)
}

// Whether a bitmap has a bit for each of so many blocks: eight times its length could wrap.
fn has_bits(bits: &[u8], blocks: u64) -> bool
    ensures { result ≡ leb blocks (length (bytes bits) * 8) }
{
    blocks.div_ceil(BYTE_BITS) <= bits.len() as u64
}

// A chunk's bitmap, once its problems are logged.
pub(crate) fn read_bitmap(
    image: &[u8],
    map: &mut [u8],
    container: Container,
    chunk: Chunk,
    audit: Audit,
) -> Result<Audit, Refusal>
    ensures { AuditsAs image map container audit result (λ f. read_bitmap container chunk) }
{
    let bits = blocks::raw_block(image, container, chunk.bitmap)?;
    if !has_bits(bits, chunk.blocks) {
        return Err(Refusal::BadBitmap);
    }
    block_map::use_block(map, chunk.bitmap.0);
    tally_bitmap(map, container, bits, chunk, audit)
}
