// A scan visits a tree's entries from first to last.
ghost use Rattle.report.specs.clauses.Steps.{Within};
ghost use Rattle.trees.specs.clauses.Answers.{Visits, LeafTo, ScanReadAt, leaf_scan, node_scan, tree_scan};

use crate::Tree;
use crate::children::child_at;
use crate::visitors::Visitor;
use blocks::{Address, Refusal};
use report::Cursor;

// The entries of a leaf from a cursor on, up to the first that may log something: the logs would be copied for each.
fn leaf_unlogged<V: Visitor>(
    image: &[u8],
    map: &mut [u8],
    tree: Tree,
    visitor: V,
    node: &[u8],
    from: Cursor,
) -> Cursor
    requires { Within from }
    ensures { LeafTo image map tree.checkpoint (V.plan visitor tree.checkpoint) tree.description node from result }
{
    let mut at = from;
    while at.left != 0 {
        let Ok(entry) = nodes::entries::entry(node, tree.description, at.next) else {
            return at;
        };
        if !visitor.visit_unlogged(image, map, tree.checkpoint, node, entry) {
            return at;
        }
        let next = at.next + 1;
        let left = at.left - 1;
        at = Cursor { next, left };
    }
    at
}

// The entries of a leaf; what follows one that was visited with the figures may log nothing.
fn scan_leaf<V: Visitor>(
    image: &[u8],
    map: &mut [u8],
    tree: Tree,
    visitor: V,
    node: &[u8],
    figures: V::Figures,
) -> Result<V::Figures, Refusal>
    ensures { Visits image map tree.checkpoint figures result (leaf_scan (V.plan visitor tree.checkpoint) tree.description node) }
{
    let n = nodes::node::key_count(node);
    let mut figures = figures;
    let mut at = leaf_unlogged(image, map, tree, visitor, node, Cursor { next: 0, left: n });
    while at.left != 0 {
        let entry = nodes::entries::entry(node, tree.description, at.next)?;
        figures = visitor.visit(image, map, tree.checkpoint, node, entry, figures)?;
        let next = at.next + 1;
        let left = at.left - 1;
        at = leaf_unlogged(image, map, tree, visitor, node, Cursor { next, left });
    }
    Ok(figures)
}

// All entries below the node at an address, of a level: the scan calls itself on each child, one level below.
fn scan_node<V: Visitor>(
    image: &[u8],
    map: &mut [u8],
    tree: Tree,
    visitor: V,
    address: Address,
    level: u64,
    figures: V::Figures,
) -> Result<V::Figures, Refusal>
    requires { ScanReadAt image tree.checkpoint (V.plan visitor tree.checkpoint) tree.description address }
    ensures { Visits image map tree.checkpoint figures result (node_scan (V.plan visitor tree.checkpoint) tree.description level address) }
{
    let container = tree.checkpoint.container;
    let node = blocks::block(image, container.size, address);
    if nodes::node::is_leaf(node) {
        return scan_leaf(image, map, tree, visitor, node, figures);
    }
    let n = nodes::node::key_count(node);
    let mut figures = figures;
    for i in 0..n {
        let at = Cursor {
            next: i,
            left: n - i,
        };
        let child = child_at(image, tree, visitor, node, level, at)?;
        figures = scan_node(image, map, tree, visitor, child, level - 1, figures)?;
    }
    Ok(figures)
}

// All entries of the tree whose root is at an address.
pub(crate) fn scan<V: Visitor>(
    image: &[u8],
    map: &mut [u8],
    tree: Tree,
    visitor: V,
    root: Address,
    figures: V::Figures,
) -> Result<V::Figures, Refusal>
    requires { ScanReadAt image tree.checkpoint (V.plan visitor tree.checkpoint) tree.description root }
    ensures { Visits image map tree.checkpoint figures result (tree_scan (V.plan visitor tree.checkpoint) tree.description root) }
{
    let container = tree.checkpoint.container;
    let level = nodes::node::level(blocks::block(image, container.size, root));
    scan_node(image, map, tree, visitor, root, level, figures)
}
