// The audit of the bitmaps, and of what the pool is used for.
#![tactic(auto)]

use report::ProblemLog;

mod bitmap;
mod chunks;
pub mod device;
mod listed;
pub mod problems;
pub mod queued;
pub mod unlogged;
mod whole;

// What the audit has counted: ring is how many different indices the free list of the pool bitmap's ring has.
#[derive(Clone, Copy)]
pub struct Audit {
    pub problems: ProblemLog,
    pub free: u64,
    pub wrong: u64,
    pub ring: u64,
}
