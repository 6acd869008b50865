// Fletcher-64 over 32-bit little-endian words, modulo 2^32 - 1 (checksum.rs).
#![tactic(auto)]

ghost use Rattle.std.specs.Prelude.{[], ◌++◌, ◌≡◌, ◌+◌, ◌%◌, ◌≤◌, ◌<◌, ◌^◌, length};
ghost use Rattle.fletcher.specs.Fletcher.{seal as seal_of, checksum as checksum_of, verifies};
ghost use Rattle.fletcher.specs.clauses.Pieces.{word_at, Reduced, Added, Plus, Halves};

use fields::wide;

const M: u64 = 4294967295;

// Two words for each of two halves.
const UNIT: usize = 16;

// At most so many bytes are summed between two reductions: whole units.
const BLOCK: usize = 4096;

// s is the sum of the words, t the sum of the running sums.
#[derive(Clone, Copy)]
pub struct Sums {
    pub s: u64,
    pub t: u64,
}

fn word_at(bytes: &[u8], at: usize) -> u64
    requires { at + 4 ≤ length bytes.now }
    ensures { (result ≡ word_at bytes.now at) × (result < 2 ^ 32) }
{
    wide(bytes[at])
        + wide(bytes[at + 1]) * 256
        + wide(bytes[at + 2]) * 65536
        + wide(bytes[at + 3]) * 16777216
}

impl Sums {
    // Modulo M: sums count modulo M alone.
    fn reduced(self) -> Sums
        ensures { Added [] self result }
    {
        Sums {
            s: self.s % M,
            t: self.t % M,
        }
    }

    // The word at a place, added.
    fn plus(self, bytes: &[u8], at: usize) -> Sums
        requires { (at + 4 ≤ length bytes.now) × (self.s < 2 ^ 62) × (self.t < 2 ^ 62) }
        ensures { Plus bytes.now at self result }
    {
        let s = self.s + word_at(bytes, at);
        Sums { s, t: self.t + s }
    }
}

// Two halves at once, so that neither's sums wait for the other's. The first's sum counts once more for each word of the second.
fn add_halves(first: &[u8], second: &[u8], sums: Sums) -> Sums
    requires { Halves first.now second.now × Reduced sums }
    ensures { Added (first.now ++ second.now) sums result }
{
    let mut a = sums;
    let mut b = Sums { s: 0, t: 0 };
    let mut at = 0;
    while at != first.len() {
        a = a.plus(first, at);
        b = b.plus(second, at);
        a = a.plus(first, at + 4);
        b = b.plus(second, at + 4);
        at += 8;
    }
    let words = (at / 4) as u64;
    let s = a.s + b.s;
    let t = a.t + (words * a.s + b.t);
    Sums { s, t }.reduced()
}

fn add_block(block: &[u8], sums: Sums) -> Sums
    requires { (length block.now % 16 ≡ 0) × (length block.now ≤ 4096) × Reduced sums }
    ensures { Added block.now sums result }
{
    let half = block.len() / 2;
    add_halves(&block[..half], &block[half..], sums)
}

// What is left after the blocks.
fn add_rest(rest: &[u8], sums: Sums) -> Sums
    requires { (length rest.now < 16) × Reduced sums }
    ensures { Added rest.now sums result }
{
    let mut sums = sums;
    let mut at = 0;
    while at + 4 <= rest.len() {
        sums = sums.plus(rest, at);
        at += 4;
    }
    sums.reduced()
}

// The sums after the words of a piece; one to three bytes at its end that make no word aren't looked at.
pub fn add(piece: &[u8], sums: Sums) -> Sums
    ensures { Added piece.now sums result }
{
    let (blocks, rest) = piece.split_at(piece.len() / UNIT * UNIT);
    let mut sums = sums.reduced();
    for block in blocks.chunks(BLOCK) {
        sums = add_block(block, sums);
    }
    add_rest(rest, sums)
}

// What bytes 0 to 7 should hold, from the sums.
pub fn seal(sums: Sums) -> u64
    ensures { result ≡ seal_of sums.s sums.t }
{
    let sums = sums.reduced();
    let low = M - (sums.s + sums.t) % M;
    let high = M - (sums.s + low) % M;
    high * 4294967296 + low
}

pub fn checksum(object: &[u8]) -> u64
    ensures { result ≡ checksum_of object.now }
{
    let none = Sums { s: 0, t: 0 };
    if object.len() < 8 {
        return seal(none);
    }
    seal(add(&object[8..], none))
}

// Whether bytes 0 to 7 of an object hold its checksum.
pub fn verify(object: &[u8]) -> bool
    ensures { result ≡ verifies object.now }
{
    let n = object.len();
    if n < 32 {
        return false;
    }
    if n % 4 != 0 {
        return false;
    }
    fields::stored_checksum(object) == checksum(object)
}
