// Writers beside the readers of `fields`: each puts bytes at a place of a lent slice that has room, and answers the place after.
#![tactic(auto)]

ghost use Rattle.std.specs.Prelude.{◌≡◌, ◌+◌, ◌%◌, ◌≤◌, length, replicate};
ghost use Rattle.writers.specs.Bytes.{le_bytes};
ghost use Rattle.writers.specs.clauses.Wrote.{Wrote};

const BYTE_VALUES: u64 = 256;

const WORD: usize = 8;

// From so many bytes on a piece is a long one.
const MANY: usize = 4 * WORD;

// A number in width bytes, lowest first; what doesn't fit them is dropped.
pub fn put(out: &mut [u8], at: usize, width: usize, number: u64) -> usize
    requires { at + width ≤ length out.old }
    ensures { Wrote (le_bytes width number) at out.old out.new result × (result ≡ at + width) }
{
    let end = at + width;
    let mut rest = number;
    for byte in out[at..end].iter_mut() {
        *byte = (rest % BYTE_VALUES) as u8;
        rest /= BYTE_VALUES;
    }
    end
}

// Whole words, each with one load and one store.
fn put_words(out: &mut [u8], at: usize, words: &[u8]) -> usize
    requires { (at + length words.now ≤ length out.old) × (length words.now % 8 ≡ 0) }
    ensures { Wrote words.now at out.old out.new result }
{
    let mut end = at;
    for k in 0..words.len() / WORD {
        end = put(out, end, WORD, fields::u64_of(words, k * WORD));
    }
    end
}

fn put_each(out: &mut [u8], at: usize, bytes: &[u8]) -> usize
    requires { at + length bytes.now ≤ length out.old }
    ensures { Wrote bytes.now at out.old out.new result }
{
    for (i, byte) in bytes.iter().enumerate() {
        out[at + i] = *byte;
    }
    at + bytes.len()
}

// A long piece byte by byte, of which the compiler does many at once; a shorter one by its words first. Not by `memmove`, which a
// caller in C would have to bring.
pub fn put_bytes(out: &mut [u8], at: usize, bytes: &[u8]) -> usize
    requires { at + length bytes.now ≤ length out.old }
    ensures { Wrote bytes.now at out.old out.new result }
{
    if MANY <= bytes.len() {
        return put_each(out, at, bytes);
    }
    let (words, rest) = bytes.split_at(bytes.len() / WORD * WORD);
    let end = put_words(out, at, words);
    put_each(out, end, rest)
}

// Bytes that are two words, each with one load and one store.
pub fn put_pair(out: &mut [u8], at: usize, bytes: &[u8]) -> usize
    requires { (length bytes.now ≡ 16) × (at + 16 ≤ length out.old) }
    ensures { Wrote bytes.now at out.old out.new result }
{
    let first = fields::u64_of(bytes, 0);
    let second = fields::u64_of(bytes, WORD);
    let end = put(out, at, WORD, first);
    put(out, end, WORD, second)
}

pub fn put_zeros(out: &mut [u8], at: usize, count: usize) -> usize
    requires { at + count ≤ length out.old }
    ensures { Wrote (replicate count 0) at out.old out.new result × (result ≡ at + count) }
{
    let end = at + count;
    out[at..end].fill(0);
    end
}
