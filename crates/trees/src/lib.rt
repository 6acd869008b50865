// Trees scanned for their entries and walked for their nodes (btree.rs).
#![tactic(auto)]

use checkpoint::Checkpoint;
use nodes::Description;
use report::OverlapLog;

pub mod children;
pub mod queues;
mod scans;
mod visitors;
pub mod walks;

// A tree to scan.
#[derive(Clone, Copy)]
pub(crate) struct Tree {
    pub checkpoint: Checkpoint,
    pub description: Description,
}

// Where a walk has come: how many nodes may still come, and the claims' log.
#[derive(Clone, Copy)]
pub(crate) struct Walked {
    pub left: u64,
    pub log: OverlapLog,
}
