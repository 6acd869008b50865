// The superblock that a pass takes: refusals 9 to 11.
ghost use Rattle.std.specs.Prelude.{not, ◌&&◌, ◌||◌, [], ◌∷◌, ◌≡◌, ◌+◌, ◌<◌, ◌^◌, None};
ghost use Rattle.fields.specs.Fields.{bit};
ghost use Rattle.fields.specs.Header.{xid_of};
ghost use Rattle.blocks.specs.Blocks.{block_of};
ghost use Rattle.checkpoint.specs.Superblock.{sound, incompatible};
ghost use Rattle.checkpoint.specs.Checkpoint.{Taken, is_after, is_ahead, best_from, take_superblock, admit as admit_of};
ghost use Rattle.checkpoint.specs.clauses.InPlace.{blocks_from};
ghost use Rattle.blocks.specs.clauses.Images.{bytes};
ghost use Rattle.blocks.specs.clauses.Answers.{outcome, Always};
ghost use Rattle.checkpoint.specs.clauses.Answers.{Takes};

use crate::block_zero::MAGIC;
use crate::chain::Chain;
use crate::{Candidate, Geometry, need, superblock};
use blocks::{Address, Container, Refusal};

const SUPERBLOCK: u64 = 1;

// The bits of incompatible flags 0x1 and 0x100.
const FIRST_FLAG: u64 = 0;

const SECOND_FLAG: u64 = 8;

// Whether the block of the area at this index, of this transaction, comes after the one tried last.
fn is_after(last: Option<Candidate>, xid: u64, index: u64) -> bool
    ensures { result ≡ is_after last xid index }
{
    last.is_none_or(|c| xid < c.xid || xid == c.xid && c.at < index)
}

fn is_ahead(best: Option<Candidate>, xid: u64) -> bool
    ensures { result ≡ is_ahead best xid }
{
    best.is_none_or(|c| c.xid < xid)
}

// Whether a block of the area is to be tried before the best found, and after the last. It is summed last.
fn wins(block: &[u8], last: Option<Candidate>, index: u64, best: Option<Candidate>) -> bool
    ensures { result ≡ (sound block.now && is_after last (xid_of block.now) index && is_ahead best (xid_of block.now)) }
{
    fields::kind(block) == SUPERBLOCK
        && superblock::magic_bytes(block) == MAGIC
        && is_after(last, fields::xid(block), index)
        && is_ahead(best, fields::xid(block))
        && fletcher::verify(block)
}

// The better of the best found and the block of the area at this index.
fn better(
    image: &[u8],
    geometry: Geometry,
    last: Option<Candidate>,
    index: u64,
    best: Option<Candidate>,
) -> Option<Candidate>
    requires { geometry.base + index < 2 ^ 64 }
    ensures { result ≡ best_from last index (block_of (bytes image) geometry.size (geometry.base + index) ∷ []) best }
{
    let block = blocks::block(image, geometry.size, Address(geometry.base + index));
    if wins(block, last, index, best) {
        Some(Candidate {
            at: index,
            xid: fields::xid(block),
        })
    } else {
        best
    }
}

// The next best after the one tried last: the highest xid, equal ones in ring order.
fn next_best(image: &[u8], geometry: Geometry, last: Option<Candidate>) -> Option<Candidate>
    requires { geometry.base + geometry.ring < 2 ^ 64 }
    ensures { result ≡ best_from last 0 (blocks_from (block_of (bytes image) geometry.size) geometry.ring geometry.base) None }
{
    (0..geometry.ring).fold(
        None,
        |best, index| better(image, geometry, last, index, best),
    )
}

// The sound superblock that is taken: a repeated search for the next best, until one's chain loads.
pub fn take_superblock(image: &[u8], geometry: Geometry) -> Result<Address, Refusal>
    requires { geometry.base + geometry.ring < 2 ^ 64 }
    ensures { Takes image geometry result }
{
    let mut last = None;
    let mut left = geometry.ring;
    loop {
        if left == 0 {
            break Err(Refusal::NoCheckpoint);
        }
        let Some(best) = next_best(image, geometry, last) else {
            break Err(Refusal::NoCheckpoint);
        };
        let address = Address(geometry.base + best.at);
        if Chain::of(image, geometry.size, geometry, address).loads() {
            break Ok(address);
        }
        last = Some(best);
        left -= 1;
    }
}

// Whether neither incompatible flag 0x1 nor 0x100 is set.
fn compatible(sb: &[u8]) -> bool
    ensures { result ≡ not (bit 0 (incompatible sb.now) || bit 8 (incompatible sb.now)) }
{
    let flags = superblock::incompatible(sb);
    !(fields::has_bit(flags, FIRST_FLAG) || fields::has_bit(flags, SECOND_FLAG))
}

// What a pass reads from here on, once the superblock sb is taken.
pub fn admit(geometry: Geometry, sb: &[u8]) -> Result<Container, Refusal>
    ensures { (t : Taken) → t.sb ≡ bytes sb → Always (outcome result) (admit_of geometry t) }
{
    need(compatible(sb), Refusal::Incompatible)?;
    let count = superblock::block_count(sb);
    need(count == geometry.count, Refusal::CountDiffers)?;
    Ok(Container {
        size: geometry.size,
        count: geometry.count,
        xid: fields::xid(sb),
    })
}
