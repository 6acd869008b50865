// The audit and the claims of a whole pass.
ghost use Rattle.blocks.specs.clauses.Images.{blocks_in};
ghost use Rattle.audit.specs.clauses.Answers.{AuditsOn, AuditsAs};
ghost use Rattle.trees.specs.clauses.Answers.{ClaimsAs, TreeReadAt};
ghost use Rattle.trees.specs.clauses.Read.{NodeRead};
ghost use Rattle.space_check.specs.clauses.Stages.{blocks_of, audit_of, mappings_of, objects_of, trees_of, claims_of, ClaimsOn, RootRead};

use crate::PartsPlace;
use crate::areas::claim_areas;
use audit::{Audit, problems};
use blocks::{Address, ObjectId, Refusal};
use checkpoint::Checkpoint;
use manager::offsets::{MAIN_QUEUE, POOL_QUEUE};
use manager::place;
use nodes::Description;
use pool::PoolPlace;
use report::OverlapLog;

// The main device in the order of its list, then the pool queue.
fn audit_blocks(
    image: &[u8],
    map: &mut [u8],
    checkpoint: Checkpoint,
    parts: PartsPlace,
    audit: Audit,
) -> Result<Audit, Refusal>
    ensures { AuditsAs image map checkpoint.container audit result (blocks_of checkpoint parts) }
{
    let container = checkpoint.container;
    let pool = parts.pool;
    let audit = audit::device::audit_device(image, map, container, pool, audit)?;
    let root = ObjectId(place::u64_of(image, container, pool.manager, POOL_QUEUE));
    trees::queues::audit_queue(image, map, checkpoint, pool, root, audit)
}

// The free ring of the pool's bitmap, then the blocks of the device and of the queue.
pub(crate) fn audit_all(
    image: &[u8],
    map: &mut [u8],
    checkpoint: Checkpoint,
    parts: PartsPlace,
) -> Result<Audit, Refusal>
    ensures { AuditsOn image map checkpoint.container result (audit_of checkpoint parts) }
{
    let container = checkpoint.container;
    let manager = parts.pool.manager;
    let none = problems::nothing_audited();
    let audit = free_ring::audits::audit_ring(image, container, manager, none)?;
    audit_blocks(image, map, checkpoint, parts, audit)
}

// Claim 8, for which no node is read again, and then the volumes' own trees.
fn claim_mappings_and_volumes(
    image: &[u8],
    map: &mut [u8],
    checkpoint: Checkpoint,
    pool: PoolPlace,
    description: Description,
    root: Address,
    log: OverlapLog,
) -> Result<OverlapLog, Refusal>
    requires { TreeReadAt image checkpoint description root }
    ensures { ClaimsAs image map checkpoint.container log result (mappings_of checkpoint description root) }
{
    let log = trees::queues::claim_mappings(image, map, checkpoint, pool, description, root, log)?;
    let container = checkpoint.container;
    let sb = blocks::block(image, container.size, checkpoint.superblock);
    volumes::own_trees::claim_volumes(image, map, container, description, root, sb, log)
}

// Claims 7 and 8: the nodes of the object map's tree, then its mappings; and the own trees of the volumes, 6, 7, 10 and 11.
fn claim_objects(
    image: &[u8],
    map: &mut [u8],
    checkpoint: Checkpoint,
    pool: PoolPlace,
    root: Address,
    log: OverlapLog,
) -> Result<OverlapLog, Refusal>
    requires { NodeRead (blocks_in image checkpoint.container) checkpoint.container root.0 }
    ensures { ClaimsAs image map checkpoint.container log result (objects_of checkpoint root) }
{
    let container = checkpoint.container;
    let node = blocks::block(image, container.size, root);
    let description = nodes::node::describe(node)?;
    let kind = claims::OBJECT_MAP_NODE;
    let log = trees::walks::walk(image, map, container, kind, description, root, log)?;
    claim_mappings_and_volumes(image, map, checkpoint, pool, description, root, log)
}

// Claims 7 to 9: the object map's nodes and mappings, the volumes, then the main queue.
fn claim_trees(
    image: &[u8],
    map: &mut [u8],
    checkpoint: Checkpoint,
    parts: PartsPlace,
    log: OverlapLog,
) -> Result<OverlapLog, Refusal>
    requires { RootRead image checkpoint parts }
    ensures { ClaimsAs image map checkpoint.container log result (trees_of checkpoint parts) }
{
    let container = checkpoint.container;
    let pool = parts.pool;
    let log = claim_objects(image, map, checkpoint, pool, parts.root, log)?;
    let queue = ObjectId(place::u64_of(image, container, pool.manager, MAIN_QUEUE));
    trees::queues::claim_queue(image, map, checkpoint, pool, queue, log)
}

// All claims.
pub(crate) fn claim_all(
    image: &[u8],
    map: &mut [u8],
    checkpoint: Checkpoint,
    parts: PartsPlace,
) -> Result<OverlapLog, Refusal>
    requires { RootRead image checkpoint parts }
    ensures { ClaimsOn image map checkpoint.container result (claims_of checkpoint parts) }
{
    let none = report::logs::no_overlaps();
    let log = claim_areas(image, map, checkpoint, parts.pool.manager, none)?;
    claim_trees(image, map, checkpoint, parts, log)
}
