// The records of a chunk-info block.
ghost use Rattle.std.specs.Prelude.{◌≡◌, ◌+◌, ◌*◌};
ghost use Rattle.blocks.specs.clauses.Images.{bytes};
ghost use Rattle.manager.specs.Chunks.{chunks_at, chunk_length, chunk_at};
ghost use Rattle.manager.specs.clauses.Lists.{ChunksSeen};

use crate::Chunk;
use blocks::{Address, Refusal};

// Where a chunk-info block counts its records.
pub const COUNT: usize = 36;

const RECORDS: usize = 40;

const RECORD_LENGTH: usize = 32;

// Fields of a record.
const START: usize = 8;

const BLOCKS: usize = 16;

const FREE: usize = 20;

const BITMAP: usize = 24;

// A count keeps its low 20 bits: the others are reserved.
const LOW_20: u64 = 0xfffff;

// Whether a block holds all its records: one test, and not a walk.
pub fn chunks_there(block: &[u8]) -> Result<(), Refusal>
    ensures { ChunksSeen (bytes block) result }
{
    let count = fields::u32_of(block, COUNT) as usize;
    if count == 0 {
        return Ok(());
    }
    if block.len() < RECORDS + RECORD_LENGTH * count {
        return Err(Refusal::OutsideBytes);
    }
    Ok(())
}

// Record index; all zeros past the block's end, as its fields are.
pub fn chunk_at(block: &[u8], index: u64) -> Chunk
    ensures { result ≡ chunk_at (bytes block) (chunks_at + chunk_length * index) }
{
    let whole = (block.len() / RECORD_LENGTH) as u64;
    if whole < index {
        return Chunk {
            start: 0,
            blocks: 0,
            free: 0,
            bitmap: Address(0),
        };
    }
    let e = RECORDS + RECORD_LENGTH * (index as usize);
    Chunk {
        start: fields::u64_of(block, e + START),
        blocks: fields::u32_of(block, e + BLOCKS) & LOW_20,
        free: fields::u32_of(block, e + FREE) & LOW_20,
        bitmap: Address(fields::u64_of(block, e + BITMAP)),
    }
}
