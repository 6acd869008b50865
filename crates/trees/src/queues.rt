// The trees that a pass scans: the two free queues, and the object map's mappings.
ghost use Rattle.audit.specs.clauses.Answers.{AuditsAs};
ghost use Rattle.claims.specs.Claims.{claim_mappings};
ghost use Rattle.trees.specs.clauses.Visits.{IsQueue};
ghost use Rattle.trees.specs.clauses.Answers.{Visits, ClaimsAs, TreeReadAt, root_scan, queue_scan, audited_queue, claimed_queue};

use crate::Tree;
use crate::scans::scan;
use crate::visitors::{MainQueue, Mappings, PoolQueue, Visitor};
use audit::Audit;
use blocks::{Address, ObjectId, Refusal};
use checkpoint::Checkpoint;
use nodes::Description;
use pool::PoolPlace;
use report::OverlapLog;

// The queue whose root was read from an address.
fn scan_root<V: Visitor>(
    image: &[u8],
    map: &mut [u8],
    checkpoint: Checkpoint,
    visitor: V,
    root: Address,
    figures: V::Figures,
) -> Result<V::Figures, Refusal>
    requires { IsQueue checkpoint (V.plan visitor checkpoint) }
    ensures { Visits image map checkpoint figures result (root_scan checkpoint (V.plan visitor checkpoint) root) }
{
    let node = blocks::block(image, checkpoint.container.size, root);
    let description = nodes::node::describe(node)?;
    let tree = Tree {
        checkpoint,
        description,
    };
    scan(image, map, tree, visitor, root, figures)
}

// The queue whose root has an id; one that isn't mapped is skipped.
fn scan_queue<V: Visitor>(
    image: &[u8],
    map: &mut [u8],
    checkpoint: Checkpoint,
    visitor: V,
    root: ObjectId,
    figures: V::Figures,
) -> Result<V::Figures, Refusal>
    requires { IsQueue checkpoint (V.plan visitor checkpoint) }
    ensures { Visits image map checkpoint figures result (queue_scan checkpoint (V.plan visitor checkpoint) root) }
{
    let Some(mapping) = checkpoint::chain::lookup(image, checkpoint, root) else {
        return Ok(figures);
    };
    nodes::node::read_node(image, checkpoint.container, mapping.address)?;
    scan_root(image, map, checkpoint, visitor, mapping.address, figures)
}

// The entries of the pool queue, audited.
pub fn audit_queue(
    image: &[u8],
    map: &mut [u8],
    checkpoint: Checkpoint,
    pool: PoolPlace,
    root: ObjectId,
    audit: Audit,
) -> Result<Audit, Refusal>
    ensures { AuditsAs image map checkpoint.container audit result (audited_queue checkpoint pool root) }
{
    scan_queue(image, map, checkpoint, PoolQueue(pool), root, audit)
}

// The blocks in the main queue, claimed.
pub fn claim_queue(
    image: &[u8],
    map: &mut [u8],
    checkpoint: Checkpoint,
    _pool: PoolPlace,
    root: ObjectId,
    log: OverlapLog,
) -> Result<OverlapLog, Refusal>
    ensures { ClaimsAs image map checkpoint.container log result (claimed_queue checkpoint root) }
{
    scan_queue(image, map, checkpoint, MainQueue, root, log)
}

// The mappings of the object map whose tree was walked: its description, and the address of its root.
pub fn claim_mappings(
    image: &[u8],
    map: &mut [u8],
    checkpoint: Checkpoint,
    _pool: PoolPlace,
    description: Description,
    root: Address,
    log: OverlapLog,
) -> Result<OverlapLog, Refusal>
    requires { TreeReadAt image checkpoint description root }
    ensures { ClaimsAs image map checkpoint.container log result (λ f. claim_mappings checkpoint.container description (f root.0)) }
{
    let tree = Tree {
        checkpoint,
        description,
    };
    scan(image, map, tree, Mappings, root, log)
}
