// The container that block 0 names, the checkpoint that a pass takes, and its map (nx.rs).
#![tactic(auto)]

ghost use Rattle.std.specs.Prelude.{◌≡◌, true, false, OnOk, IfErr};

use blocks::{Address, Container, ObjectId, Refusal};

pub mod block_zero;
pub mod chain;
pub mod choice;
pub mod superblock;

// What block 0 says: block size and count, and where the descriptor area lies.
#[derive(Clone, Copy)]
pub struct Geometry {
    pub size: u64,
    pub count: u64,
    pub base: u64,
    pub ring: u64,
}

// The checkpoint that a pass takes: its container, the descriptor area that block 0 names, and where its superblock stands.
#[derive(Clone, Copy)]
pub struct Checkpoint {
    pub container: Container,
    pub geometry: Geometry,
    pub superblock: Address,
}

// A sound superblock: its place in the descriptor area, and its transaction.
#[derive(Clone, Copy)]
pub struct Candidate {
    pub at: u64,
    pub xid: u64,
}

// An entry of the checkpoint map: the only passage from an object's id to its address.
#[derive(Clone, Copy)]
pub struct Mapping {
    pub id: ObjectId,
    pub size: u64,
    pub address: Address,
}

// A test, and the refusal where it fails.
pub(crate) fn need(holds: bool, why: Refusal) -> Result<(), Refusal>
    ensures held { OnOk result (holds ≡ true) }
    ensures failed { IfErr result (λ e. (holds ≡ false) × (e ≡ why)) }
{
    if holds { Ok(()) } else { Err(why) }
}
