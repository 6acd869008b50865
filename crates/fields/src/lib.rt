// Little-endian fields of a part of an image (bytes.rs), the header of an object (obj.rs), and bits.
#![tactic(auto)]

ghost use Rattle.std.specs.Prelude.{◌≡◌, ◌+◌, ◌%◌, ◌<◌, ◌≤◌, min, leb, length, take, drop};
ghost use Rattle.fields.specs.clauses.Numbers.{NumberAt, FieldOf};
ghost use Rattle.fields.specs.Fields.{bit, bit_at};
ghost use Rattle.fields.specs.Header.{stored_checksum, xid_of, kind_of};

// Offsets in an object's header.
const CHECKSUM: usize = 0;

const XID: usize = 16;

const TYPE: usize = 24;

// A type's low 16 bits.
const KIND: u64 = 0xffff;

// The widest field.
const WIDEST: u64 = 8;

pub const BYTE_BITS: u64 = 8;

const NUMBER_BITS: u64 = 64;

pub fn least(one: u64, other: u64) -> u64
    ensures { result ≡ min one other }
{
    if one < other { one } else { other }
}

pub fn wide(byte: u8) -> u64
    ensures { (result ≡ byte) × (result < 256) }
{
    byte as u64
}

// Whether the width bytes from at on lie inside len bytes: their end could wrap.
pub fn fits(len: u64, at: u64, width: u64) -> bool
    ensures { result ≡ leb (at + width) len }
{
    if len < at {
        return false;
    }
    width <= len - at
}

// The number in width bytes that lie inside, lowest first. Where width is a constant, compilers make one load of this loop.
fn inside(bytes: &[u8], at: usize, width: usize) -> u64
    requires { (width ≤ 8) × (at + width ≤ length bytes.now) }
    ensures { NumberAt width bytes.now at result }
{
    let mut v: u64 = 0;
    let mut k = 0;
    while k < width {
        v = v + (wide(bytes[at + k]) << (8 * k));
        k += 1;
    }
    v
}

// The number in so many bytes from at on, of which there are at most eight; bytes past the end count 0.
pub fn number(bytes: &[u8], at: usize, width: usize) -> u64
    ensures { NumberAt (min width 8) bytes.now at result }
{
    let n = bytes.len();
    if n <= at {
        return 0;
    }
    let left = n - at;
    let most = least(width as u64, WIDEST) as usize;
    if left < most {
        return inside(bytes, at, left);
    }
    inside(bytes, at, most)
}

pub fn u16_of(bytes: &[u8], at: usize) -> u64
    ensures { NumberAt 2 bytes.now at result }
{
    number(bytes, at, 2)
}

pub fn u32_of(bytes: &[u8], at: usize) -> u64
    ensures { NumberAt 4 bytes.now at result }
{
    number(bytes, at, 4)
}

pub fn u64_of(bytes: &[u8], at: usize) -> u64
    ensures { NumberAt 8 bytes.now at result }
{
    number(bytes, at, 8)
}

// The field of width bytes from at on; None where it isn't wholly inside its bytes.
fn field_at(bytes: &[u8], at: usize, width: usize) -> Option<u64>
    requires { width ≤ 8 }
    ensures { FieldOf width bytes.now at result }
{
    let n = bytes.len();
    if width <= n {
        if at <= n - width {
            return Some(inside(bytes, at, width));
        }
    }
    None
}

fn u64_at(bytes: &[u8], at: usize) -> Option<u64>
    ensures { FieldOf 8 bytes.now at result }
{
    field_at(bytes, at, 8)
}

// The part from start on, len bytes long; shorter where the bytes end before.
pub fn part_of(bytes: &[u8], start: usize, len: usize) -> &[u8]
    ensures { result.now ≡ take len (drop start bytes.now) }
{
    let n = bytes.len();
    if n <= start {
        return &bytes[n..n];
    }
    if n - start <= len {
        return &bytes[start..n];
    }
    let end = start + len;
    &bytes[start..end]
}

// The field of eight bytes from at on in a part: in a key, or a value, cut from the middle of its node.
pub fn u64_in(bytes: &[u8], start: usize, len: usize, at: usize) -> Option<u64>
    ensures { FieldOf 8 (take len (drop start bytes.now)) at result }
{
    let cut = part_of(bytes, start, len);
    u64_at(cut, at)
}

pub fn stored_checksum(object: &[u8]) -> u64
    ensures { result ≡ stored_checksum object.now }
{
    u64_of(object, CHECKSUM)
}

pub fn xid(object: &[u8]) -> u64
    ensures { result ≡ xid_of object.now }
{
    u64_of(object, XID)
}

pub fn kind(object: &[u8]) -> u64
    ensures { result ≡ kind_of object.now }
{
    u32_of(object, TYPE) & KIND
}

// A bit of a number, the lowest at place 0.
pub fn has_bit(number: u64, place: u64) -> bool
    ensures { result ≡ bit (place % 64) number }
{
    number >> (place % NUMBER_BITS) & 1 == 1
}

// A bit of a byte of a bitmap, the lowest at place 0.
pub fn bit_of(byte: u8, place: u64) -> bool
    ensures { result ≡ bit (place % 8) byte }
{
    let shift = (place % BYTE_BITS) as u8;
    byte >> shift & 1 == 1
}

// A bit of a bitmap, the lowest bit of a byte first; bits past the end are 0.
pub fn bit_at(bitmap: &[u8], place: u64) -> bool
    ensures { result ≡ bit_at bitmap.now place }
{
    let j = (place / BYTE_BITS) as usize;
    if bitmap.len() <= j {
        return false;
    }
    bit_of(bitmap[j], place)
}
