// Refusals 1 to 8: what block 0 says of the container.
ghost use Rattle.std.specs.Prelude.{◌≡◌, ◌&&◌, ◌^◌, ◌-◌, leb, ltb, length, take};
ghost use Rattle.blocks.specs.Reads.{run, no_blocks};
ghost use Rattle.checkpoint.specs.Geometry.{geometry as geometry_of, least_size, size_allowed, allowed as allowed_for, stated as stated_in};
ghost use Rattle.blocks.specs.clauses.Answers.{outcome, Always};

use crate::superblock::TOP_BIT;
use crate::{Geometry, need, superblock};
use blocks::Refusal;

// The bytes NXSB.
pub(crate) const MAGIC: u64 = 0x4253584e;

// How much of block 0 is looked at, whatever the block size.
const LEAST_SIZE: usize = 4096;

const MOST_BLOCKS: u64 = 4294967295;

// A block's size is a power of two from 2^12 to 2^16.
const LEAST_POWER: u64 = 12;

const PAST_POWER: u64 = 17;

pub fn size_allowed(size: u64) -> bool
    ensures { result ≡ size_allowed size }
{
    (LEAST_POWER..PAST_POWER).any(|power| size == 1 << power)
}

fn count_allowed(count: u64) -> bool
    ensures { result ≡ (ltb 0 count && leb count (2 ^ 32 - 1)) }
{
    0 < count && count <= MOST_BLOCKS
}

fn stated(block: &[u8]) -> Geometry
    ensures { result ≡ stated_in block.now }
{
    Geometry {
        size: superblock::block_size(block),
        count: superblock::block_count(block),
        base: superblock::descriptor_base(block),
        ring: superblock::descriptor_blocks(block),
    }
}

fn allowed(len: u64, room: u64, geometry: Geometry) -> Result<Geometry, Refusal>
    ensures { Always (outcome result) (allowed_for len room geometry) }
{
    let Geometry {
        size,
        count,
        base,
        ring,
    } = geometry;
    need(size_allowed(size), Refusal::BlockSize)?;
    need(count_allowed(count), Refusal::BlockCount)?;
    need(count * size <= len, Refusal::MissingBlocks)?;
    need(count <= room, Refusal::ShortMap)?;
    need(ring < TOP_BIT, Refusal::DescriptorLength)?;
    need(fields::fits(count, base, ring), Refusal::DescriptorArea)?;
    Ok(geometry)
}

// The container that block 0 names, where it passes refusals 1 to 8; room is the block map's length.
pub fn geometry(image: &[u8], room: usize) -> Result<Geometry, Refusal>
    ensures { outcome result ≡ run no_blocks (geometry_of (length image.now) (take least_size image.now) room) }
{
    need(LEAST_SIZE <= image.len(), Refusal::ShortImage)?;
    let first = &image[..LEAST_SIZE];
    need(superblock::magic_bytes(first) == MAGIC, Refusal::NoMagic)?;
    allowed(image.len() as u64, room as u64, stated(first))
}
