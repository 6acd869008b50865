// The listing of an answer. A new line is a call in `put_report`, where `reportLines` has it.
ghost use Rattle.std.specs.Prelude.{◌≡◌, min, take};
ghost use mathlib.Core.List.{flat_map};
ghost use Rattle.report.specs.Report.{logged, kinds};
ghost use Rattle.listing_text.specs.Listing.{claimant_if, claimants_from, claimant_line_of, places_by_name, lost_kind_line_of, lost_total, report_lines, answer_lines};
ghost use Rattle.listing_text.specs.clauses.Writing.{Puts, Adds};

use crate::page::Page;
use blocks::number_of;
use report::logs::overlap_total;
use report::{Answer, KINDS, LOGGED, Lost, Report};

// No line has more bytes.
const LINE_BYTES: usize = 160;
// The lines that always stand in a report.
const ALWAYS: usize = 7;
// No listing has more bytes.
pub const MOST_BYTES: usize = (ALWAYS + 2 * LOGGED + 2 * KINDS) * LINE_BYTES;
// The number of the first kind of claimants.
const FIRST_KIND: u64 = 1;
// Places of the kinds in a report, in the order of their names.
const PLACES_BY_NAME: [usize; KINDS] = [2, 1, 0, 9, 8, 3, 4, 5, 6, 10, 7];

// How many of those met a log names.
fn named(total: u64) -> usize
    ensures { result ≡ min total logged }
{
    total.min(LOGGED as u64) as usize
}

fn lost_total(lost: &[Lost; KINDS]) -> u64
    ensures { result ≡ lost_total lost.now }
{
    lost.iter().fold(0, |sum: u64, l| sum.wrapping_add(l.count))
}

impl Page<'_> {
    // A kind that never came second has no line.
    fn claimant(&mut self, kind: u64, count: u64)
        ensures { Adds self.old self.new (flat_map claimant_line_of (claimant_if kind count)) }
    {
        if count != 0 {
            self.claimant_line(kind, count);
        }
    }

    // By the kinds' numbers, and not by their names as lost lines are.
    fn claimant_lines(&mut self, claimants: &[u64; KINDS])
        ensures { Adds self.old self.new (flat_map claimant_line_of (claimants_from 1 (take kinds claimants.now))) }
    {
        for (i, &count) in claimants.iter().enumerate() {
            self.claimant(i as u64 + FIRST_KIND, count);
        }
    }

    // A kind that lost no block has no line.
    fn lost_kind(&mut self, lost: &[Lost; KINDS], place: usize)
        ensures { Adds self.old self.new (lost_kind_line_of lost.now place) }
    {
        if let Some(l) = lost.get(place)
            && l.count != 0
        {
            self.lost_kind_line(place as u64 + FIRST_KIND, l.count, l.first);
        }
    }

    fn lost_lines(&mut self, lost: &[Lost; KINDS])
        ensures { Adds self.old self.new (flat_map (lost_kind_line_of lost.now) places_by_name) }
    {
        for place in PLACES_BY_NAME {
            self.lost_kind(lost, place);
        }
    }

    fn put_report(&mut self, report: &Report)
        ensures { Adds self.old self.new (report_lines report.now) }
    {
        let problems = &report.problems;
        let overlaps = &report.overlaps;
        let total = overlap_total(overlaps.claimants);
        self.title_line(report.xid);
        self.pool_line(report.pool_used, report.pool_unused, problems.total);
        self.put_each(&problems.first[..named(problems.total)]);
        self.bitmaps_line(report.free, report.wrong_chunks, report.device_free);
        self.overlaps_line(total);
        self.claimant_lines(&overlaps.claimants);
        self.put_each(&overlaps.first[..named(total)]);
        self.lost_line(lost_total(&report.lost));
        self.lost_lines(&report.lost);
        self.leaked_line(report.leaked);
        self.result_line(report.verdict);
    }

    fn put_ending(&mut self, answer: &Answer)
        ensures { Adds self.old self.new (answer_lines answer.now.ending answer.now.report) }
    {
        match answer.ending {
            Ok(()) => self.put_report(&answer.report),
            Err(r) => self.refused_line(number_of(r)),
        }
    }
}

// The listing from the buffer's start on; its length, or the buffer's length + 1 where there was no room for all of it.
pub fn put_answer(out: &mut [u8], answer: Answer) -> usize
    ensures { Puts out 0 result (answer_lines answer.ending answer.report) }
{
    let mut page = Page { out, at: 0 };
    page.put_ending(&answer);
    page.at
}
