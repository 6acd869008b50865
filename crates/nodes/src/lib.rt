// Nodes of trees (btree.rs) and the object map (omap.rs).
#![tactic(auto)]

pub mod entries;
pub mod node;
pub mod object_map;

// What a root says of its tree.
#[derive(Clone, Copy)]
pub struct Description {
    pub flags: u64,
    pub key: u64,
    pub value: u64,
}

// One row of a node's table: where a key and its value stand, and how long they are.
#[derive(Clone, Copy)]
pub struct Slot {
    pub koff: u64,
    pub klen: u64,
    pub voff: u64,
    pub vlen: u64,
}

// A part of a node: where it begins, and how long it is.
#[derive(Clone, Copy)]
pub struct Part {
    pub at: u64,
    pub len: u64,
}

// Where an entry's key and value stand in their node; a ghost has no value.
#[derive(Clone, Copy)]
pub struct EntryPlace {
    pub key: Part,
    pub value: Option<Part>,
}
