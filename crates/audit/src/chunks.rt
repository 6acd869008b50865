// Chunk-info blocks, each with its chunks.
ghost use Rattle.audit.specs.Audit.{info_unmarked, audit_bitmap, audit_chunk, enter_info};
ghost use Rattle.audit.specs.clauses.Answers.{AuditsAs, pool_at, chunks_in};

use crate::listed::ListedBlock;
use crate::{Audit, bitmap, problems};
use blocks::{Address, Container, Refusal};
use manager::Chunk;
use pool::PoolPlace;

// A chunk that has a bitmap.
fn audit_bitmap(
    image: &[u8],
    map: &mut [u8],
    container: Container,
    place: PoolPlace,
    chunk: Chunk,
    audit: Audit,
) -> Result<Audit, Refusal>
    ensures { AuditsAs image map container audit result (λ f. audit_bitmap container (pool_at container place f) chunk) }
{
    let audit = problems::audit_use(
        image,
        map,
        container,
        place,
        problems::BITMAP_UNMARKED,
        problems::BITMAP_IN_USE,
        chunk.bitmap.0,
        audit,
    )?;
    bitmap::read_bitmap(image, map, container, chunk, audit)
}

// Bitmap address 0: the whole chunk is free.
fn audit_chunk(
    image: &[u8],
    map: &mut [u8],
    container: Container,
    place: PoolPlace,
    chunk: Chunk,
    audit: Audit,
) -> Result<Audit, Refusal>
    ensures { AuditsAs image map container audit result (λ f. audit_chunk container (pool_at container place f) chunk) }
{
    if chunk.bitmap.0 == 0 {
        return bitmap::tally(chunk, audit, chunk.blocks);
    }
    audit_bitmap(image, map, container, place, chunk, audit)
}

// The chunks of a chunk-info block, whose records are there.
fn audit_chunks(
    image: &[u8],
    map: &mut [u8],
    container: Container,
    place: PoolPlace,
    block: &[u8],
    audit: Audit,
) -> Result<Audit, Refusal>
    ensures { AuditsAs image map container audit result (chunks_in container place block) }
{
    let mut audit = audit;
    for i in 0..fields::u32_of(block, manager::chunks::COUNT) {
        let chunk = manager::chunks::chunk_at(block, i);
        audit = audit_chunk(image, map, container, place, chunk, audit)?;
    }
    Ok(audit)
}

// A chunk-info block: all its records are there before the first is used.
pub(crate) struct InfoBlock;

impl ListedBlock for InfoBlock {
    ghost UNMARKED = { info_unmarked };

    ghost entry = { enter_info };

    const UNMARKED: u8 = problems::INFO_UNMARKED;

    fn enter(
        image: &[u8],
        map: &mut [u8],
        container: Container,
        place: PoolPlace,
        address: Address,
        audit: Audit,
    ) -> Result<Audit, Refusal> {
        let block = blocks::block(image, container.size, address);
        manager::chunks::chunks_there(block)?;
        block_map::use_block(map, address.0);
        audit_chunks(image, map, container, place, block, audit)
    }
}
