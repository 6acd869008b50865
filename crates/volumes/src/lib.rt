// The volumes of a container: their superblocks, found by the object map (omap.rs, btree.rs `lookup_le`), and the claims of their own trees.
#![tactic(auto)]

use blocks::{Address, Container};
use nodes::{Description, EntryPlace};

mod lookup;
pub mod own_trees;
mod superblocks;

// The container's object map: the root of its tree, and what that says of the tree.
#[derive(Clone, Copy)]
pub(crate) struct ObjectMap {
    pub container: Container,
    pub description: Description,
    pub root: Address,
}

// Where a lookup goes from a node: to no entry, to one of its own, or down to a child.
#[derive(Clone, Copy)]
pub(crate) enum Turn {
    Nothing,
    At(EntryPlace),
    Down(Address),
}

// An entry of a leaf: the leaf's block, and the entry's place in it.
#[derive(Clone, Copy)]
pub(crate) struct LeafEntry {
    pub node: Address,
    pub place: EntryPlace,
}
