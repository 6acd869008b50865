// The logs: all that was met is counted, and the first ten are kept.
ghost use Rattle.std.specs.Prelude.{◌≡◌, ◌-◌, ◌^◌, ◌<◌, min};
ghost use Rattle.blocks.specs.clauses.Answers.{outcome, Always};
ghost use Rattle.report.specs.Report.{no_problems, no_overlaps, sum_of, count_claimant, add_problem, add_overlap};

use crate::{KINDS, LOGGED, Overlap, OverlapLog, Problem, ProblemLog};
use blocks::Refusal;

pub fn no_problems() -> ProblemLog
    ensures { result ≡ no_problems }
{
    let none = Problem { kind: 0, block: 0 };
    let first = [none; LOGGED];
    ProblemLog { total: 0, first }
}

pub fn no_overlaps() -> OverlapLog
    ensures { result ≡ no_overlaps }
{
    let none = Overlap {
        block: 0,
        owner: 0,
        claimant: 0,
    };
    let claimants = [0; KINDS];
    let first = [none; LOGGED];
    OverlapLog { claimants, first }
}

pub fn add_problem(log: ProblemLog, problem: Problem) -> Result<ProblemLog, Refusal>
    ensures { Always (outcome result) (add_problem problem log) }
{
    let problems = log.total;
    let total = blocks::add(problems, 1)?;
    let mut first = log.first;
    if problems < LOGGED as u64 {
        let i = problems as usize;
        first[i] = problem;
    }
    Ok(ProblemLog { total, first })
}

// Overlaps in all, by the counts of all kinds; 2^64 − 1 where there are more.
pub fn overlap_total(claimants: [u64; KINDS]) -> u64
    ensures { result ≡ min (sum_of claimants) (2 ^ 64 - 1) }
{
    let mut total: u64 = 0;
    for count in &claimants {
        total = total.saturating_add(*count);
    }
    total
}

// One more for the kind that came second. A number above the last kind counts for none, and 0 as 1.
fn count_claimant(claimants: [u64; KINDS], kind: u8) -> [u64; KINDS]
    requires { sum_of claimants < 2 ^ 64 - 1 }
    ensures { result ≡ count_claimant kind claimants }
{
    let mut next = claimants;
    let place = kind.saturating_sub(1) as usize;
    if place < KINDS {
        let count = next[place];
        next[place] = count + 1;
    }
    next
}

pub fn add_overlap(log: OverlapLog, overlap: Overlap) -> Result<OverlapLog, Refusal>
    ensures { Always (outcome result) (add_overlap overlap log) }
{
    let overlaps = overlap_total(log.claimants);
    blocks::add(overlaps, 1)?;
    let mut first = log.first;
    if overlaps < LOGGED as u64 {
        let i = overlaps as usize;
        first[i] = overlap;
    }
    let claimants = count_claimant(log.claimants, overlap.claimant);
    Ok(OverlapLog { claimants, first })
}
