// An answer as numbers in a row.
ghost use mathlib.Core.List.{map, flat_map};
ghost use Rattle.std.specs.Prelude.{◌≡◌, ◌+◌, ◌*◌, ◌-◌, ◌≤◌, ◌<◌, ◌^◌, length, set};
ghost use Rattle.std.proofs.Math.Seq.{slice};
ghost use Rattle.report.specs.Report.{logged, kinds, ending_number};
ghost use Rattle.interface.specs.Places.{overlaps_at, answer_figures};
ghost use Rattle.interface.specs.Figures.{problem_figures, overlap_figures, lost_figures};
ghost use Rattle.interface.specs.Figures.{audit_figures, claim_figures, base_figures, later_figures, written};
ghost use Rattle.interface.specs.clauses.Stored.{lost_number, Stores, later_at};

use blocks::{Refusal, number_of};
use report::logs::overlap_total;
use report::{Answer, KINDS, LOGGED, Lost, Overlap, Problem, Report};

// How many numbers a problem and an overlap have.
const PROBLEM_FIGURES: usize = 2;

const OVERLAP_FIGURES: usize = 3;

// Where the parts begin.
const PROBLEM: usize = 5;

const FREE: usize = 25;

const OVERLAPS: usize = 28;

const OVERLAP: usize = 29;

const LOST: usize = 59;

const LEAKED: usize = 77;

const LATER: usize = 79;

const CLAIMANTS: usize = 83;

const FREE_RING: usize = 94;

// Kinds whose numbers stand among the base's; those of later kinds follow at the end.
const BASE_KINDS: usize = 9;

fn ending_number(ending: Result<(), Refusal>) -> u64
    ensures { result ≡ ending_number ending }
{
    match ending {
        Ok(()) => 0,
        Err(r) => number_of(r) as u64,
    }
}

// Past the end nothing changes.
fn put(figures: &mut [u64], at: usize, figure: u64)
    ensures { figures.new ≡ set figures.old at figure }
{
    if at < figures.len() {
        figures[at] = figure;
    }
}

// Those that pass the end are left out.
fn put_all(figures: &mut [u64], at: usize, xs: &[u64])
    requires { at < 2 ^ 32 }
    ensures { Stores figures.old figures.new at (at + length xs.now) xs.now }
{
    for (i, &figure) in xs.iter().enumerate() {
        put(figures, at + i, figure);
    }
}

fn put_problems(figures: &mut [u64], at: usize, problems: [Problem; LOGGED])
    requires { at < answer_figures }
    ensures { Stores figures.old figures.new at (at + 2 * logged) (flat_map problem_figures problems) }
{
    for (i, problem) in problems.iter().enumerate() {
        let numbers = [problem.kind as u64, problem.block];
        put_all(figures, at + PROBLEM_FIGURES * i, &numbers);
    }
}

fn put_overlaps(figures: &mut [u64], at: usize, overlaps: [Overlap; LOGGED])
    requires { at < answer_figures }
    ensures { Stores figures.old figures.new at (at + 3 * logged) (flat_map overlap_figures overlaps) }
{
    for (i, overlap) in overlaps.iter().enumerate() {
        let numbers = [overlap.block, overlap.owner as u64, overlap.claimant as u64];
        put_all(figures, at + OVERLAP_FIGURES * i, &numbers);
    }
}

fn put_claimants(figures: &mut [u64], at: usize, claimants: [u64; KINDS])
    requires { at < answer_figures }
    ensures { Stores figures.old figures.new at (at + kinds) claimants }
{
    put_all(figures, at, &claimants);
}

// How many blocks of a kind are lost, or the first of them.
fn lost_number(lost: Lost, first: bool) -> u64
    ensures { result ≡ lost_number first lost }
{
    if first { lost.first } else { lost.count }
}

// Kinds by their places in a report, from one up to another.
fn put_numbers(
    figures: &mut [u64],
    at: usize,
    lost: [Lost; KINDS],
    from: usize,
    to: usize,
    first: bool,
)
    requires { (at < 2 ^ 32) × (from ≤ to) × (to ≤ kinds) }
    ensures { Stores figures.old figures.new at (at + (to - from)) (map (lost_number first) (slice from to lost)) }
{
    for i in from..to {
        let l = lost[i];
        put(figures, at + (i - from), lost_number(l, first));
    }
}

// How many of each, then the first of each.
fn put_lost(figures: &mut [u64], at: usize, lost: [Lost; KINDS], from: usize, to: usize)
    requires { (at ≤ answer_figures) × (from ≤ to) × (to ≤ kinds) }
    ensures { Stores figures.old figures.new at (at + 2 * (to - from)) (lost_figures (slice from to lost)) }
{
    put_numbers(figures, at, lost, from, to, false);
    put_numbers(figures, at + (to - from), lost, from, to, true);
}

// The refusal's number, or 0, the xid, and what the bitmaps say.
fn write_audit(answer: Answer, figures: &mut [u64])
    ensures { Stores figures.old figures.new 0 overlaps_at (audit_figures answer) }
{
    let ending = answer.ending;
    let report = answer.report;
    let problems = report.problems;
    let head = [
        ending_number(ending),
        report.xid,
        report.pool_used,
        report.pool_unused,
        problems.total,
    ];
    put_all(figures, 0, &head);
    let first = problems.first;
    put_problems(figures, PROBLEM, first);
    let counted = [report.free, report.wrong_chunks, report.device_free];
    put_all(figures, FREE, &counted);
}

// What the claims say against them.
fn write_claims(report: Report, figures: &mut [u64])
    ensures { Stores figures.old figures.new overlaps_at later_at (claim_figures report) }
{
    let overlaps = report.overlaps;
    let claimants = overlaps.claimants;
    put(figures, OVERLAPS, overlap_total(claimants));
    let first = overlaps.first;
    put_overlaps(figures, OVERLAP, first);
    let lost = report.lost;
    put_lost(figures, LOST, lost, 0, BASE_KINDS);
    let totals = [report.leaked, report.verdict as u64];
    put_all(figures, LEAKED, &totals);
}

fn write_base(answer: Answer, figures: &mut [u64])
    ensures { Stores figures.old figures.new 0 later_at (base_figures answer) }
{
    write_audit(answer, figures);
    let report = answer.report;
    write_claims(report, figures);
}

// What came after the base, at the end, so that an array of the base's numbers has them as before.
fn write_later(report: Report, figures: &mut [u64])
    ensures { Stores figures.old figures.new later_at answer_figures (later_figures report) }
{
    let lost = report.lost;
    put_lost(figures, LATER, lost, BASE_KINDS, KINDS);
    let overlaps = report.overlaps;
    let claimants = overlaps.claimants;
    put_claimants(figures, CLAIMANTS, claimants);
    put(figures, FREE_RING, report.free_ring);
}

// Writes the numbers: as many of them as the array has places.
pub(crate) fn write_figures(answer: Answer, figures: &mut [u64])
    ensures { figures.new ≡ written answer figures.old }
{
    write_base(answer, figures);
    let report = answer.report;
    write_later(report, figures);
}
