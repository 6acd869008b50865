// The space manager: its bytes over the data area, its lists, those of address blocks, and the records of chunks (spaceman.rs).
#![tactic(auto)]

use blocks::{Address, Refusal};

pub mod addresses;
pub mod chunks;
pub mod lists;
pub mod load;
pub mod offsets;
pub mod place;

// A run of blocks with one bitmap.
#[derive(Clone, Copy)]
pub struct Chunk {
    pub start: u64,
    pub blocks: u64,
    pub free: u64,
    pub bitmap: Address,
}

// Where a manager stands: the data area's base and its length as stored, the mapped address, and the manager's bytes.
#[derive(Clone, Copy)]
pub struct Manager {
    pub base: u64,
    pub blocks: u64,
    pub at: Address,
    pub size: u64,
}

// What holds a list of addresses: the manager, or one block.
#[derive(Clone, Copy)]
pub enum Holder {
    InManager(Manager),
    InBlock(Address),
}

// A list of addresses: what holds it, from which byte on it stands there, and how many it has.
#[derive(Clone, Copy)]
pub struct AddressList {
    pub holder: Holder,
    pub at: u64,
    pub count: u64,
}
