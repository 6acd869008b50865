// Nodes built to order (btree_write.rs), whole from their entries.
#![tactic(auto)]

ghost use Rattle.std.specs.Prelude.{◌≡◌};
ghost use Rattle.node_build.specs.Asked.{built_number};

use blocks::{Refusal, number_of};

pub mod build;
mod layout;
mod regions;
mod request;

// A node begins with its checksum, which has so many bytes.
pub(crate) const CHECKSUM: usize = 8;

// A tree's description.
pub(crate) const DESCRIPTION: usize = 40;

// The sizes of keys and values: one for all, as the tree's description states them, or each its own.
#[derive(Clone, Copy)]
pub enum Sizes {
    Fixed(u32, u32),
    Variable,
}

// What a node's headers say besides what follows from its entries; `obj_type` is the whole type, of which a kind is the low half.
#[derive(Clone, Copy)]
pub struct NodeHeader {
    pub oid: u64,
    pub xid: u64,
    pub obj_type: u32,
    pub subtype: u32,
    pub level: u16,
    pub root: bool,
}

// What a caller asks for: the tree's description, the entries' bytes, and a key's and a value's length in turn.
#[derive(Clone, Copy)]
pub(crate) struct Asked<'a> {
    pub header: NodeHeader,
    pub sizes: Sizes,
    pub info: &'a [u8],
    pub parts: &'a [u8],
    pub lengths: &'a [u64],
}

// The bytes of all keys and of all values, with their padding.
#[derive(Clone, Copy)]
pub(crate) struct Measured {
    pub keys: u64,
    pub values: u64,
}

// How a node is laid out: padded or not, the space for table, keys and values, the slots reserved, and the bytes of the three.
#[derive(Clone, Copy)]
pub(crate) struct Plan {
    pub packed: bool,
    pub room: u64,
    pub reserved: u64,
    pub table: u64,
    pub keys: u64,
    pub values: u64,
}

// Why a node isn't built.
#[derive(Clone, Copy)]
pub enum BuildError {
    OutsideBytes,
    NoRoom,
}

// The number of a refusal that only a builder gives.
const NO_ROOM: u32 = 26;

// An answer's number: 0 where the node is built.
pub fn built_number(built: Result<(), BuildError>) -> u32
    ensures { result ≡ built_number built }
{
    match built {
        Ok(()) => 0,
        Err(BuildError::OutsideBytes) => number_of(Refusal::OutsideBytes) as u32,
        Err(BuildError::NoRoom) => NO_ROOM,
    }
}
