// What is handed over: the entries' bytes in one slice, a key's and a value's length in turn in another.
ghost use Rattle.std.specs.Prelude.{◌≡◌, ◌<◌, ◌^◌};
ghost use Rattle.blocks.specs.clauses.Images.{bytes};
ghost use Rattle.node_build.specs.Asked.{taken};
ghost use Rattle.node_build.specs.clauses.Lengths.{Pairs, Weighs, WeighsAll};

use crate::{Asked, DESCRIPTION, Measured, layout};

// The length of a value that isn't there.
pub(crate) const GHOST: u64 = 0xffff_ffff_ffff_ffff;

// An entry has so many lengths: its key's, and its value's.
pub(crate) const ENTRY: usize = 2;

// The bytes that a value of a length takes.
pub(crate) fn value_length(stated: u64) -> u64
    ensures { result ≡ taken stated }
{
    if stated == GHOST { 0 } else { stated }
}

// The bytes of all keys and of all values, where those that are stated are there.
fn measure(packed: bool, lengths: &[u64], parts: u64) -> Option<Measured>
    requires { Pairs lengths.now × (parts < 2 ^ 63) }
    ensures { Weighs packed (bytes lengths) parts result }
{
    let mut left = parts;
    let mut keys = 0;
    let mut values = 0;
    for entry in lengths.chunks_exact(ENTRY) {
        let key = entry[0];
        if left < key {
            return None;
        }
        let value = value_length(entry[1]);
        if left - key < value {
            return None;
        }
        left = left - key - value;
        keys = keys + layout::padded_length(packed, key);
        values = values + layout::padded_length(packed, value);
    }
    Some(Measured { keys, values })
}

// The same, where the slices are a description and a list of entries.
pub(crate) fn measure_all(packed: bool, asked: Asked) -> Option<Measured>
    ensures { WeighsAll packed asked.entry.info.now asked.entry.parts.now asked.entry.lengths.now result }
{
    if asked.info.len() < DESCRIPTION {
        return None;
    }
    if asked.lengths.len() % ENTRY != 0 {
        return None;
    }
    measure(packed, asked.lengths, asked.parts.len() as u64)
}
