// The free ring of the pool's bitmap: the blocks of the ring that the manager lists as unused.
#![tactic(auto)]

pub mod audits;
mod sets;
mod walks;

// A bit for each index of 16 bits.
pub(crate) const SET_BYTES: usize = 8192;

// The list of unused blocks as a manager has it: its first and last index, where the table that leads along it stands, and how
// many blocks the ring has, for each of which the table has an entry.
#[derive(Clone, Copy)]
pub(crate) struct FreeList {
    pub head: u64,
    pub tail: u64,
    pub table: u64,
    pub blocks: u64,
}

// How a walk along the list ends: at its tail, again at an index, or at one that the ring doesn't have.
#[derive(Clone, Copy)]
pub enum RingEnd {
    Tail,
    Again(u64),
    Outside,
}

// How a walk ended, and how many indices it visited.
#[derive(Clone, Copy)]
pub(crate) struct Walked {
    pub ending: RingEnd,
    pub count: u64,
}
