// Claims that overlap nothing, as most do: they are made without the log.
ghost use Rattle.std.specs.Prelude.{◌≡◌, ◌-◌, ◌%◌, ◌<◌};
ghost use Rattle.blocks.specs.clauses.Images.{bytes, bytes_lent};
ghost use Rattle.nodes.specs.clauses.Answers.{entry_in};
ghost use Rattle.claims.specs.Claims.{claim as claim_of};
ghost use Rattle.claims.specs.clauses.Answers.{claiming_mapping, claiming_queued};
ghost use Rattle.claims.specs.clauses.Unlogged.{taken_from, owned_from, unlogged_claim, unlogged_mapping, unlogged_queued, ClaimsUnlogged};

use crate::{FREE_QUEUE, VOLUME_SUPERBLOCK, mapped_address, takes};
use blocks::Container;
use nodes::EntryPlace;
use nodes::object_map::is_deleted;

// Whether a claim takes every block from start up to end.
fn takes_all(map: &[u8], kind: u8, start: u64, end: u64) -> bool
    ensures { result ≡ taken_from kind (bytes map) (end - start) start }
{
    (start..end).all(|block| takes(kind, block_map::owner(block_map::cell(map, block))))
}

// Every block from start up to end gets an owner.
fn own_all(map: &mut [u8], kind: u8, start: u64, end: u64)
    ensures { map.new ≡ owned_from (kind % 16) (bytes_lent map) (end - start) start }
{
    for block in start..end {
        block_map::own_block(map, block, kind);
    }
}

// So many blocks from start on, where none of them is another's.
fn claim_unlogged(map: &mut [u8], container: Container, kind: u8, start: u64, len: u64) -> bool
    requires { kind < 16 }
    ensures { ClaimsUnlogged map container result (unlogged_claim container kind start len) (claim_of container kind start len) }
{
    let Ok(sum) = blocks::add(start, len) else {
        return false;
    };
    let end = sum.min(container.count);
    if !takes_all(map, kind, start, end) {
        return false;
    }
    own_all(map, kind, start, end);
    true
}

// A mapping's claim; a deleted one claims nothing, so nothing is left to do.
pub fn claim_mapping(map: &mut [u8], node: &[u8], container: Container, place: EntryPlace) -> bool
    ensures { let e = entry_in (bytes node) place in ClaimsUnlogged map container result (unlogged_mapping container e) (claiming_mapping container e) }
{
    let Some(value) = place.value else {
        return true;
    };
    let Ok(address) = mapped_address(node, place.key, value) else {
        return false;
    };
    if is_deleted(node, value) {
        return true;
    }
    claim_unlogged(map, container, VOLUME_SUPERBLOCK, address, 1)
}

// The claim of an entry of the main queue.
pub fn claim_queued(map: &mut [u8], node: &[u8], container: Container, place: EntryPlace) -> bool
    ensures { let e = entry_in (bytes node) place in ClaimsUnlogged map container result (unlogged_queued container e) (claiming_queued container e) }
{
    let Ok(run) = queue::run_of(node, place) else {
        return false;
    };
    claim_unlogged(map, container, FREE_QUEUE, run.start, run.count)
}
