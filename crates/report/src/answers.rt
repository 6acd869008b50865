// What a pass answers.
ghost use Rattle.std.specs.Prelude.{◌≡◌};
ghost use Rattle.report.specs.Report.{zero_report, refusal as refusal_answer, reported as reported_answer};

use crate::logs::{no_overlaps, no_problems};
use crate::{Answer, KINDS, Lost, Report};
use blocks::Refusal;

pub fn zero_report() -> Report
    ensures { result ≡ zero_report }
{
    let problems = no_problems();
    let overlaps = no_overlaps();
    let none = Lost { count: 0, first: 0 };
    let lost = [none; KINDS];
    Report {
        xid: 0,
        pool_used: 0,
        pool_unused: 0,
        free_ring: 0,
        problems,
        free: 0,
        wrong_chunks: 0,
        device_free: 0,
        overlaps,
        lost,
        leaked: 0,
        verdict: 0,
    }
}

// A refusal's report is all zero.
pub fn refusal(why: Refusal) -> Answer
    ensures { result ≡ refusal_answer why }
{
    let report = zero_report();
    let ending = Err(why);
    Answer { ending, report }
}

pub fn reported(report: Report) -> Answer
    ensures { result ≡ reported_answer report }
{
    let ending = Ok(());
    Answer { ending, report }
}
