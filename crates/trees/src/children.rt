// The children of a node: their pointers, and the nodes that these name.
ghost use Rattle.std.specs.Prelude.{◌≡◌, ◌-◌, ◌<◌};
ghost use Rattle.blocks.specs.clauses.Images.{bytes};
ghost use Rattle.blocks.specs.clauses.Answers.{there_as, outcome, Always, Finds};
ghost use Rattle.nodes.specs.Scan.{look_at, pointer_past, one_below};
ghost use Rattle.report.specs.clauses.Steps.{Ahead};
ghost use Rattle.trees.specs.clauses.Visits.{child_of};
ghost use Rattle.trees.specs.clauses.Walks.{pointer_of as pointer_in, pointer_at};
ghost use Rattle.trees.specs.clauses.Answers.{FindsPointers, ChildReadAt};

use crate::Tree;
use crate::visitors::Visitor;
use blocks::{Address, Container, Refusal};
use nodes::Description;
use report::Cursor;

// The child pointer of entry index.
pub fn pointer_of(node: &[u8], description: Description, index: u64) -> Result<u64, Refusal>
    ensures { Always (outcome result) (pointer_in description (bytes node) index) }
{
    let entry = nodes::entries::entry(node, description, index)?;
    nodes::entries::pointer(node, entry.value)
}

// The child pointer of entry index where it was read before, and is there.
pub(crate) fn pointer_at(node: &[u8], description: Description, index: u64) -> u64
    ensures { result ≡ pointer_at description (bytes node) index }
{
    pointer_of(node, description, index).unwrap_or(0)
}

// Whether all child pointers of a node are there, before the first child is read.
pub(crate) fn children_there(node: &[u8], description: Description) -> Result<(), Refusal>
    ensures { FindsPointers node description result }
{
    for i in 0..nodes::node::key_count(node) {
        pointer_of(node, description, i)?;
    }
    Ok(())
}

// Whether the entry at a cursor is there, where one is left.
fn look_at(node: &[u8], description: Description, index: u64, left: u64) -> Result<(), Refusal>
    ensures { Always (there_as tt result) (look_at description (bytes node) left index) }
{
    if left == 0 {
        return Ok(());
    }
    nodes::entries::entry(node, description, index)?;
    Ok(())
}

// The pointer of the entry at a cursor: the next entry is looked at before the child is read.
fn pointer_past(node: &[u8], description: Description, at: Cursor) -> Result<u64, Refusal>
    requires { Ahead at }
    ensures { Always (outcome result) (pointer_past description (bytes node) (at.left - 1) at.next) }
{
    let entry = nodes::entries::entry(node, description, at.next)?;
    look_at(node, description, at.next + 1, at.left - 1)?;
    nodes::entries::pointer(node, entry.value)
}

// A child that was read must be one level below its parent.
pub fn one_below(
    image: &[u8],
    container: Container,
    address: Address,
    level: u64,
) -> Result<Address, Refusal>
    ensures { Finds image container result (λ f. one_below level (f address.0)) }
{
    let child = blocks::block(image, container.size, address);
    if nodes::node::level(child) + 1 == level {
        Ok(address)
    } else {
        Err(Refusal::WrongLevel)
    }
}

// The child at a cursor along the entries of an index node of a level.
pub(crate) fn child_at<V: Visitor>(
    image: &[u8],
    tree: Tree,
    visitor: V,
    node: &[u8],
    level: u64,
    at: Cursor,
) -> Result<Address, Refusal>
    requires { Ahead at × ChildReadAt image tree.checkpoint (V.plan visitor tree.checkpoint) tree.description node at.next }
    ensures { Finds image tree.checkpoint.container result (child_of (V.plan visitor tree.checkpoint) tree.description level node at) }
{
    let checkpoint = tree.checkpoint;
    let pointer = pointer_past(node, tree.description, at)?;
    let address = visitor.child(image, checkpoint, pointer)?;
    one_below(image, checkpoint.container, address, level)
}
