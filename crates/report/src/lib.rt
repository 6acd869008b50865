// What a pass answers: logs, the report, and how it ended.
#![tactic(auto)]

use blocks::Refusal;

pub mod answers;
pub mod logs;

// How many problems and overlaps a report names.
pub const LOGGED: usize = 10;
// How many kinds of claimants there are.
pub const KINDS: usize = 11;

// Something wrong with a block of the internal pool, or of the ring of its bitmap.
#[derive(Clone, Copy)]
pub struct Problem {
    pub kind: u8,
    pub block: u64,
}

// All problems counted, and the first ones.
#[derive(Clone, Copy)]
pub struct ProblemLog {
    pub total: u64,
    pub first: [Problem; LOGGED],
}

// A block that one kind owns and a later one claimed.
#[derive(Clone, Copy)]
pub struct Overlap {
    pub block: u64,
    pub owner: u8,
    pub claimant: u8,
}

// All overlaps counted by the kind that came second, and the first ones.
#[derive(Clone, Copy)]
pub struct OverlapLog {
    pub claimants: [u64; KINDS],
    pub first: [Overlap; LOGGED],
}

// Blocks that a kind owns and no bitmap marks, and the lowest of them.
#[derive(Clone, Copy)]
pub struct Lost {
    pub count: u64,
    pub first: u64,
}

// Where a step along blocks, bits or entries has come to: the next of them, and how many are left.
#[derive(Clone, Copy)]
pub struct Cursor {
    pub next: u64,
    pub left: u64,
}

// What a pass finds. Unfilled places are 0.
#[derive(Clone, Copy)]
pub struct Report {
    pub xid: u64,
    pub pool_used: u64,
    pub pool_unused: u64,
    pub free_ring: u64,
    pub problems: ProblemLog,
    pub free: u64,
    pub wrong_chunks: u64,
    pub device_free: u64,
    pub overlaps: OverlapLog,
    pub lost: [Lost; KINDS],
    pub leaked: u64,
    pub verdict: u8,
}

// How a pass ended, and its report: all zero where it was refused.
#[derive(Clone, Copy)]
pub struct Answer {
    pub ending: Result<(), Refusal>,
    pub report: Report,
}
