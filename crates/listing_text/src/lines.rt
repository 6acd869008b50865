// The lines of the listing.
ghost use Rattle.listing_text.specs.Lines.{title_line, pool_line, bitmaps_line, overlaps_line, claimant_line, lost_line, lost_kind_line, leaked_line, result_line, refused_line};
ghost use Rattle.listing_text.specs.Listing.{problem_line_of, overlap_line_of};
ghost use Rattle.listing_text.specs.clauses.Writing.{Adds};

use crate::names::problem_format;
use crate::page::{Line, Page};
use report::{Overlap, Problem};

const CONSISTENT: u8 = 1;

// The last of the Rust's problems.
const LAST_FORMAT: u8 = 5;

// The Rust's problems have a text each, others a number.
impl Line for Problem {
    ghost line = { problem_line_of };

    fn put_on(&self, page: &mut Page<'_>) {
        if self.kind <= LAST_FORMAT {
            page.put_line(problem_format(self.kind), &[self.block]);
            page.put(b"\n");
        } else {
            page.put_line(b"  problem # at 0x@\n", &[self.kind as u64, self.block]);
        }
    }
}

impl Line for Overlap {
    ghost line = { overlap_line_of };

    fn put_on(&self, page: &mut Page<'_>) {
        page.put_line(
            b"  block 0x@: $ and $\n",
            &[self.block, self.owner as u64, self.claimant as u64],
        );
    }
}

impl Page<'_> {
    pub(crate) fn title_line(&mut self, xid: u64)
        ensures { Adds self.old self.new (title_line xid) }
    {
        self.put_line(b"space check  stdin  xid #\n", &[xid]);
    }

    pub(crate) fn pool_line(&mut self, used: u64, unused: u64, problems: u64)
        ensures { Adds self.old self.new (pool_line used unused problems) }
    {
        self.put_line(
            b"internal pool  # blocks in use, # marked but unused, # problems\n",
            &[used, unused, problems],
        );
    }

    pub(crate) fn bitmaps_line(&mut self, free: u64, wrong_chunks: u64, device_free: u64)
        ensures { Adds self.old self.new (bitmaps_line free wrong_chunks device_free) }
    {
        self.put_line(
            b"bitmaps    # blocks free; chunks with a wrong free count: #; device free count # ",
            &[free, wrong_chunks, device_free],
        );
        if free == device_free {
            self.put(b"(matches)\n");
        } else {
            self.put(b"(DOES NOT MATCH)\n");
        }
    }

    pub(crate) fn overlaps_line(&mut self, overlaps: u64)
        ensures { Adds self.old self.new (overlaps_line overlaps) }
    {
        self.put_line(
            b"overlaps   # blocks claimed by two different things\n",
            &[overlaps],
        );
    }

    pub(crate) fn claimant_line(&mut self, kind: u64, count: u64)
        ensures { Adds self.old self.new (claimant_line kind count) }
    {
        self.put_line(b"  $: #\n", &[kind, count]);
    }

    pub(crate) fn lost_line(&mut self, lost: u64)
        ensures { Adds self.old self.new (lost_line lost) }
    {
        self.put_line(b"in use but marked free: # blocks\n", &[lost]);
    }

    pub(crate) fn lost_kind_line(&mut self, kind: u64, count: u64, first: u64)
        ensures { Adds self.old self.new (lost_kind_line kind count first) }
    {
        self.put_line(b"  $: # (first at 0x@)\n", &[kind, count, first]);
    }

    pub(crate) fn leaked_line(&mut self, leaked: u64)
        ensures { Adds self.old self.new (leaked_line leaked) }
    {
        self.put_line(b"allocated but unused (leaked): # blocks\n", &[leaked]);
    }

    pub(crate) fn result_line(&mut self, verdict: u8)
        ensures { Adds self.old self.new (result_line verdict) }
    {
        self.put(b"result     ");
        if verdict == CONSISTENT {
            self.put(b"consistent: nothing in use is marked free, nothing is claimed twice\n");
        } else {
            self.put(b"inconsistent\n");
        }
    }

    pub(crate) fn refused_line(&mut self, number: u8)
        ensures { Adds self.old self.new (refused_line number) }
    {
        self.put_line(b"refused #\n", &[number as u64]);
    }
}
