// The figures that are counted on the final block map, and the verdict on them.
#![tactic(auto)]

ghost use Rattle.std.specs.Prelude.{◌≡◌, ◌-◌, ◌^◌, ◌<◌, eqb, length, take};
ghost use Rattle.totals.specs.Totals.{is_leaked, lost_in, verdict_of};
ghost use Rattle.totals.specs.clauses.Counting.{first_kind, lost_kind, one_more, lost_after, totals_of, counts_in, Room};

use block_map::{is_marked, is_used, is_zero, owner};
use fields::part_of;
use report::{KINDS, Lost};

// The owner of the first kind of claimants.
const FIRST_KIND: u8 = 1;

// The owner of a block that nothing claimed.
pub const UNOWNED: u8 = 0;

const CONSISTENT: u8 = 1;

const INCONSISTENT: u8 = 2;

// How many bytes are counted together: few enough for a u8.
const ROW: usize = 128;

// Of a row: blocks used, blocks leaked, and the greatest kind that lost one, or UNOWNED.
#[derive(Clone, Copy)]
struct Counts {
    used: u8,
    leaked: u8,
    lost: u8,
}

#[derive(Clone, Copy)]
pub struct Totals {
    pub used: u64,
    pub leaked: u64,
    pub lost: [Lost; KINDS],
}

fn is_leaked(byte: u8) -> bool
    ensures { result ≡ is_leaked byte }
{
    owner(byte) == UNOWNED && is_marked(byte)
}

// The kind that lost the block of a byte, or UNOWNED.
fn lost_kind(byte: u8) -> u8
    ensures { result ≡ lost_kind byte }
{
    if is_marked(byte) {
        UNOWNED
    } else {
        owner(byte)
    }
}

// With no branch, so that many bytes are counted at once.
fn counts_in(row: &[u8]) -> Counts
    requires { length row.now < 256 }
    ensures { result ≡ counts_in row.now }
{
    let mut used: u8 = 0;
    let mut leaked: u8 = 0;
    let mut lost: u8 = UNOWNED;
    for byte in row {
        used += is_used(*byte) as u8;
        leaked += is_leaked(*byte) as u8;
        lost = lost.max(lost_kind(*byte));
    }
    Counts { used, leaked, lost }
}

// A row that is all 0 counts for nothing.
fn counts_of(row: &[u8]) -> Counts
    requires { length row.now < 256 }
    ensures { result ≡ counts_in row.now }
{
    if is_zero(row) {
        return Counts {
            used: 0,
            leaked: 0,
            lost: UNOWNED,
        };
    }
    counts_in(row)
}

// The first block stays: the count tells whether there is one, since it may be block 0.
fn one_more(lost: Lost, block: u64) -> Lost
    requires { lost.count < 2 ^ 64 - 1 }
    ensures { result ≡ one_more block lost }
{
    let first = if lost.count == 0 { block } else { lost.first };
    Lost {
        count: lost.count + 1,
        first,
    }
}

// The lost blocks of a row whose first byte is block start's, after those of before.
fn lost_in(row: &[u8], start: u64, before: [Lost; KINDS]) -> [Lost; KINDS]
    requires { Room row.now start before }
    ensures { result ≡ lost_after row.now start first_kind before }
{
    let mut lost = before;
    for (i, byte) in row.iter().enumerate() {
        let kind = lost_kind(*byte);
        if kind != UNOWNED {
            let place = (kind - FIRST_KIND) as usize;
            // A number above the last kind counts for none.
            if place < KINDS {
                let l = lost[place];
                lost[place] = one_more(l, start + i as u64);
            }
        }
    }
    lost
}

// Bytes are looked at one by one only in a row that has a lost block.
fn totals_of(cells: &[u8]) -> Totals
    ensures { result ≡ totals_of cells.now }
{
    let none = Lost { count: 0, first: 0 };
    let mut lost = [none; KINDS];
    let mut used: u64 = 0;
    let mut leaked: u64 = 0;
    let mut at: u64 = 0;
    for row in cells.chunks(ROW) {
        let counts = counts_of(row);
        used += counts.used as u64;
        leaked += counts.leaked as u64;
        if counts.lost != UNOWNED {
            let next = lost_in(row, at, lost);
            lost = next;
        }
        at += row.len() as u64;
    }
    Totals { used, leaked, lost }
}

// One walk over the bytes of the container's blocks.
pub fn count_blocks(map: &[u8], blocks: u64) -> Totals
    ensures { result ≡ totals_of (take blocks map.now) }
{
    totals_of(part_of(map, 0, blocks as usize))
}

// The sum of the counts may pass 2^64, so it is not made.
fn none_lost(lost: [Lost; KINDS]) -> bool
    ensures { result ≡ eqb (lost_in lost 0) 0 }
{
    lost.iter().all(|l| l.count == 0)
}

pub fn verdict(lost: [Lost; KINDS], overlaps: u64, problems: u64) -> u8
    ensures { result ≡ verdict_of lost overlaps problems }
{
    if overlaps != 0 || problems != 0 {
        return INCONSISTENT;
    }
    if none_lost(lost) {
        CONSISTENT
    } else {
        INCONSISTENT
    }
}
