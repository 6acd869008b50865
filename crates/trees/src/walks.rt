// A physical walk claims a tree's nodes, parent first and last child first.
ghost use Rattle.std.specs.Prelude.{◌%◌, ◌<◌};
ghost use Rattle.blocks.specs.clauses.Images.{blocks_in};
ghost use Rattle.blocks.specs.clauses.Answers.{Sees};
ghost use Rattle.nodes.specs.Walk.{walk_below, walk as walk_of};
ghost use Rattle.claims.specs.Claims.{claim_node};
ghost use Rattle.trees.specs.clauses.Walks.{next_below};
ghost use Rattle.trees.specs.clauses.Read.{NodeRead};
ghost use Rattle.trees.specs.clauses.Answers.{WalksFrom, ClaimsAs};

use crate::Walked;
use crate::children::{children_there, pointer_at};
use blocks::{Address, Container, Refusal};
use nodes::Description;
use report::OverlapLog;

// The root is the first level.
const MOST_LEVELS: u64 = 33;

// The node at an address is read where one more level and one more node may come: refusal 22 comes before.
fn read_next(
    image: &[u8],
    container: Container,
    address: Address,
    levels: u64,
    left: u64,
) -> Result<&[u8], Refusal>
    ensures { Sees image container result (next_below container levels left address) }
{
    if levels == 0 || left == 0 {
        return Err(Refusal::TooManyNodes);
    }
    nodes::node::read_node(image, container, address)
}

// The node at an address, which was read, and all below it, of at most so many levels: it is claimed, and then its children, the last first.
fn walk_below(
    image: &[u8],
    map: &mut [u8],
    container: Container,
    kind: u8,
    description: Description,
    address: Address,
    levels: u64,
    from: Walked,
) -> Result<Walked, Refusal>
    requires { (0 < levels) × (0 < from.left) × NodeRead (blocks_in image container) container address.0 }
    ensures { WalksFrom image map container from result (walk_below (claim_node container (kind % 16)) container description levels address.0) }
{
    let log = claims::claim_node(map, container, kind, address, from.log)?;
    let left = from.left - 1;
    let mut walked = Walked { left, log };
    let node = blocks::block(image, container.size, address);
    if nodes::node::is_leaf(node) {
        return Ok(walked);
    }
    children_there(node, description)?;
    let below = levels - 1;
    for i in (0..nodes::node::key_count(node)).rev() {
        let child = Address(pointer_at(node, description, i));
        read_next(image, container, child, below, walked.left)?;
        walked = walk_below(
            image,
            map,
            container,
            kind,
            description,
            child,
            below,
            walked,
        )?;
    }
    Ok(walked)
}

// All nodes of the tree whose root is at an address and was read, each claimed by a kind; no more of them than the container has blocks.
pub fn walk(
    image: &[u8],
    map: &mut [u8],
    container: Container,
    kind: u8,
    description: Description,
    root: Address,
    log: OverlapLog,
) -> Result<OverlapLog, Refusal>
    requires { NodeRead (blocks_in image container) container root.0 }
    ensures { ClaimsAs image map container log result (λ f. walk_of (claim_node container (kind % 16)) container description root) }
{
    let left = container.count;
    let from = Walked { left, log };
    let walked = walk_below(
        image,
        map,
        container,
        kind,
        description,
        root,
        MOST_LEVELS,
        from,
    )?;
    Ok(walked.log)
}
