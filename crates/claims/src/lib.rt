// The claims: who owns each block.
#![tactic(auto)]

ghost use Rattle.std.specs.Prelude.{◌≡◌, ◌||◌, ◌+◌, ◌%◌, ◌<◌, eqb, ◌-◌, IfOk};
ghost use Rattle.blocks.specs.clauses.Images.{bytes};
ghost use Rattle.blocks.specs.clauses.Answers.{outcome, Always};
ghost use Rattle.nodes.specs.clauses.Answers.{part_in, entry_in};
ghost use Rattle.report.specs.clauses.Steps.{Ahead, Within};
ghost use Rattle.totals.specs.Totals.{unowned};
ghost use Rattle.claims.specs.Claims.{claim_block, claim_node, mapped_address, claim as claim_of};
ghost use Rattle.claims.specs.clauses.Answers.{Claims, ClaimsAt, ClaimsTo, Owns, blocks_left, end_of, claiming_mapping, claiming_queued};

use blocks::{Address, Container, Refusal};
use nodes::entries::field_in;
use nodes::object_map::{MAPPING_ADDRESS, MAPPING_ID, MAPPING_XID, is_deleted};
use nodes::{EntryPlace, Part};
use report::{Cursor, Overlap, OverlapLog};
use totals::UNOWNED;

pub mod unlogged;

// Kinds of claimants.
pub const CONTAINER_SUPERBLOCK: u8 = 1;

pub const DESCRIPTOR_AREA: u8 = 2;

pub const DATA_AREA: u8 = 3;

pub const INTERNAL_POOL: u8 = 4;

pub(crate) const POOL_BITMAP_RING: u8 = 5;

pub const OBJECT_MAP: u8 = 6;

pub const OBJECT_MAP_NODE: u8 = 7;

pub(crate) const VOLUME_SUPERBLOCK: u8 = 8;

pub(crate) const FREE_QUEUE: u8 = 9;

pub const EXTENT_NODE: u8 = 10;

pub const SNAPSHOT_NODE: u8 = 11;

// Whether a claim of a kind takes a block: one that nothing claimed, or that its own kind holds.
pub(crate) fn takes(kind: u8, held: u8) -> bool
    ensures { result ≡ (eqb held unowned || eqb held kind) }
{
    held == UNOWNED || held == kind
}

fn claim_block(map: &mut [u8], kind: u8, block: u64, log: OverlapLog) -> Result<OverlapLog, Refusal>
    requires { kind < 16 }
    ensures { ClaimsTo map (block + 1) log result (claim_block kind block) }
{
    let owner = block_map::owner(block_map::cell(map, block));
    if takes(kind, owner) {
        block_map::own_block(map, block, kind);
        return Ok(log);
    }
    let overlap = Overlap {
        block,
        owner,
        claimant: kind,
    };
    report::logs::add_overlap(log, overlap)
}

// Owns the blocks from a cursor on, up to the first that another kind holds; no log is carried along.
fn own_from(map: &mut [u8], kind: u8, from: Cursor) -> Cursor
    requires { (kind < 16) × Within from }
    ensures { Owns map kind from result }
{
    let end = from.next + from.left;
    let mut next = from.next;
    while next < end && takes(kind, block_map::owner(block_map::cell(map, next))) {
        block_map::own_block(map, next, kind);
        next += 1;
    }
    Cursor {
        next,
        left: end - next,
    }
}

// The block at a cursor, whoever holds it, and the cursor past it.
fn claim_next(map: &mut [u8], kind: u8, at: Cursor, log: &mut OverlapLog) -> Result<Cursor, Refusal>
    requires { (kind < 16) × Ahead at }
    ensures claimed { ClaimsAt kind at map.old map.new log.old log.new result }
    ensures past { IfOk result (λ to. to ≡ record { next = at.next + 1; left = at.left - 1 }) }
{
    *log = claim_block(map, kind, at.next, *log)?;
    let next = at.next + 1;
    let left = at.left - 1;
    Ok(Cursor { next, left })
}

// The blocks from a cursor on: the log is looked at only for those that another kind holds.
fn claim_from(
    map: &mut [u8],
    kind: u8,
    from: Cursor,
    mut log: OverlapLog,
) -> Result<OverlapLog, Refusal>
    requires { (kind < 16) × Within from }
    ensures { ClaimsTo map (end_of from) log result (blocks_left kind from) }
{
    let mut at = own_from(map, kind, from);
    while at.left != 0 {
        let past = claim_next(map, kind, at, &mut log)?;
        at = own_from(map, kind, past);
    }
    Ok(log)
}

// A kind is below 16; of any other number the low four bits are taken: the map has room for no more.
// Blocks past the block count are never claimed: the claim ends there, and one that starts past it has no block.
pub fn claim(
    map: &mut [u8],
    container: Container,
    kind: u8,
    start: u64,
    len: u64,
    log: OverlapLog,
) -> Result<OverlapLog, Refusal>
    ensures { Claims map container log result (claim_of container (kind % 16) start len) }
{
    let claimant = block_map::owner(kind);
    let end = blocks::add(start, len)?.min(container.count);
    let next = start.min(end);
    let left = end - next;
    claim_from(map, claimant, Cursor { next, left }, log)
}

// A node of a tree, by the kind of the tree's nodes.
pub fn claim_node(
    map: &mut [u8],
    container: Container,
    kind: u8,
    address: Address,
    log: OverlapLog,
) -> Result<OverlapLog, Refusal>
    ensures { Claims map container log result (λ s. claim_node container (kind % 16) s address) }
{
    claim(map, container, kind, address.0, 1, log)
}

// A mapping's address; its key's fields must exist too.
pub(crate) fn mapped_address(node: &[u8], key: Part, value: Part) -> Result<u64, Refusal>
    ensures { Always (outcome result) (mapped_address (part_in (bytes node) key) (part_in (bytes node) value)) }
{
    field_in(node, key, MAPPING_ID)?;
    field_in(node, key, MAPPING_XID)?;
    field_in(node, value, MAPPING_ADDRESS)
}

// An entry of the object map: a ghost maps nothing, and a deleted mapping holds no block.
pub fn claim_mapping(
    map: &mut [u8],
    node: &[u8],
    container: Container,
    place: EntryPlace,
    log: OverlapLog,
) -> Result<OverlapLog, Refusal>
    ensures { Claims map container log result (claiming_mapping container (entry_in (bytes node) place)) }
{
    match place.value {
        None => Ok(log),
        Some(value) => {
            let address = mapped_address(node, place.key, value)?;
            if is_deleted(node, value) {
                return Ok(log);
            }
            claim(map, container, VOLUME_SUPERBLOCK, address, 1, log)
        }
    }
}

// An entry of the main queue.
pub fn claim_queued(
    map: &mut [u8],
    node: &[u8],
    container: Container,
    place: EntryPlace,
    log: OverlapLog,
) -> Result<OverlapLog, Refusal>
    ensures { Claims map container log result (claiming_queued container (entry_in (bytes node) place)) }
{
    let run = queue::run_of(node, place)?;
    claim(map, container, FREE_QUEUE, run.start, run.count, log)
}
