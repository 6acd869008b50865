// The regions of a node, each written from left to right over whatever stood there; only the values go from right to left.
ghost use Rattle.std.specs.Prelude.{false, ◌≡◌, ◌+◌, ◌≤◌, length, take, drop};
ghost use Rattle.fields.specs.Choice.{pick};
ghost use Rattle.blocks.specs.clauses.Images.{bytes, bytes_lent};
ghost use Rattle.nodes.specs.Node.{description_length};
ghost use Rattle.node_build.specs.Build.{padded_length, padded, slot_width, slot_bytes, fixed_flag, flags as flags_of};
ghost use Rattle.node_build.specs.Build.{object_header, shape, areas, description};
ghost use Rattle.node_build.specs.clauses.Lengths.{Counted, Entries, offset_for};
ghost use Rattle.node_build.specs.clauses.Regions.{Fills, SlotsFill, slots_end, TableFill, Tabled, PairsRoom, PairsFill};
ghost use Rattle.node_build.specs.clauses.Regions.{free_of, Holds, headers_of, Laid, space_of};

use crate::{CHECKSUM, DESCRIPTION, NodeHeader, Plan, Sizes, layout, request};
use nodes::Slot;

const GHOST_OFFSET: u64 = 0xffff;

// Offset 0xffff and length 0, twice.
const NO_LISTS: u64 = 0x0000_ffff_0000_ffff;

// A node's flags.
const ROOT: u64 = 1;

const LEAF: u64 = 2;

const FIXED: u64 = 4;

// Padding ends at a multiple of this.
const WORD: usize = 8;

// The length that keys have in object maps and queues.
const PAIR: usize = 16;

fn put_object_header(node: &mut [u8], at: usize, header: NodeHeader) -> usize
    requires { at + 24 ≤ length node.old }
    ensures { Fills node at (object_header header) result × (result ≡ at + 24) }
{
    let xid = writers::put(node, at, 8, header.oid);
    let obj_type = writers::put(node, xid, 8, header.xid);
    let subtype = writers::put(node, obj_type, 4, header.obj_type as u64);
    writers::put(node, subtype, 4, header.subtype as u64)
}

fn flag(set: bool, n: u64) -> u64
    ensures { (result ≡ pick set n 0) × (result ≤ n) }
{
    if set { n } else { 0 }
}

fn fixed_flag(sizes: Sizes) -> u64
    ensures { (result ≡ fixed_flag sizes) × (result ≤ 4) }
{
    match sizes {
        Sizes::Fixed(_, _) => FIXED,
        Sizes::Variable => 0,
    }
}

fn flags(header: NodeHeader, sizes: Sizes) -> u64
    ensures { result ≡ flags_of header sizes }
{
    let root = flag(header.root, ROOT);
    let leaf = flag(layout::is_leaf(header), LEAF);
    root + leaf + fixed_flag(sizes)
}

// Flags, level, key count.
fn put_shape(node: &mut [u8], at: usize, header: NodeHeader, sizes: Sizes, count: u64) -> usize
    requires { at + 8 ≤ length node.old }
    ensures { Fills node at (shape header sizes count) result × (result ≡ at + 8) }
{
    let level = writers::put(node, at, 2, flags(header, sizes));
    let keys = writers::put(node, level, 2, header.level as u64);
    writers::put(node, keys, 4, count)
}

// Table, free space, and two empty free lists.
fn put_areas(node: &mut [u8], at: usize, table: u64, used: u64, free: u64) -> usize
    requires { at + 16 ≤ length node.old }
    ensures { Fills node at (areas table used free) result × (result ≡ at + 16) }
{
    let a = writers::put(node, at, 2, 0);
    let b = writers::put(node, a, 2, table);
    let c = writers::put(node, b, 2, used);
    let d = writers::put(node, c, 2, free);
    writers::put(node, d, 8, NO_LISTS)
}

fn put_slot(node: &mut [u8], at: usize, sizes: Sizes, slot: Slot) -> usize
    requires { at + slot_width sizes ≤ length node.old }
    ensures { Fills node at (slot_bytes sizes slot.koff slot.klen slot.voff slot.vlen) result }
{
    match sizes {
        Sizes::Fixed(_, _) => {
            let value = writers::put(node, at, 2, slot.koff);
            writers::put(node, value, 2, slot.voff)
        }
        Sizes::Variable => {
            let a = writers::put(node, at, 2, slot.koff);
            let b = writers::put(node, a, 2, slot.klen);
            let c = writers::put(node, b, 2, slot.voff);
            writers::put(node, c, 2, slot.vlen)
        }
    }
}

// What a slot says of a value that begins so far before the value end, by the length that is stated.
fn offset_for(stated: u64, next: u64) -> u64
    ensures { result ≡ offset_for stated next }
{
    if stated == request::GHOST {
        GHOST_OFFSET
    } else {
        next
    }
}

fn put_slots(node: &mut [u8], at: usize, sizes: Sizes, packed: bool, lengths: &[u64]) -> usize
    requires { Counted lengths.now × (slots_end sizes at lengths.now ≤ length node.old) }
    ensures { SlotsFill node at sizes packed lengths result × (result ≡ slots_end sizes at (bytes lengths)) }
{
    let mut end = at;
    let mut koff = 0;
    let mut last = 0;
    for entry in lengths.chunks_exact(request::ENTRY) {
        let klen = entry[0];
        let vlen = request::value_length(entry[1]);
        let next = last + layout::padded_length(packed, vlen);
        let voff = offset_for(entry[1], next);
        let slot = Slot {
            koff,
            klen,
            voff,
            vlen,
        };
        end = put_slot(node, end, sizes, slot);
        koff += layout::padded_length(packed, klen);
        last = next;
    }
    end
}

// Bytes, and zeros up to a multiple of eight: the last word is cleared, and the bytes are put over most of it.
fn put_in_eights(node: &mut [u8], at: usize, piece: &[u8]) -> usize
    requires { at + padded_length false (length piece.now) ≤ length node.old }
    ensures { Fills node at (padded false (bytes piece)) result }
{
    let n = piece.len();
    if n == 0 {
        return at;
    }
    if n == PAIR {
        return writers::put_pair(node, at, piece);
    }
    let end = at + layout::in_eights(n as u64) as usize;
    writers::put(node, end - WORD, WORD, 0);
    writers::put_bytes(node, at, piece);
    end
}

// Bytes with their padding.
fn put_padded(node: &mut [u8], at: usize, packed: bool, piece: &[u8]) -> usize
    requires { at + padded_length packed (length piece.now) ≤ length node.old }
    ensures { Fills node at (padded packed (bytes piece)) result }
{
    if packed {
        return writers::put_bytes(node, at, piece);
    }
    put_in_eights(node, at, piece)
}

// A key or a value, which is there.
fn piece_at(parts: &[u8], at: usize, len: usize) -> &[u8]
    requires { at + len ≤ length parts.now }
    ensures { result.now ≡ take len (drop at (bytes parts)) }
{
    let end = at + len;
    &parts[at..end]
}

// Keys from their place on, values from the value end back.
fn put_pairs(
    node: &mut [u8],
    at: usize,
    end: usize,
    packed: bool,
    parts: &[u8],
    lengths: &[u64],
) -> usize
    requires { Entries parts.now lengths.now × PairsRoom packed parts.now lengths.now at end (length node.old) }
    ensures { PairsFill packed (bytes parts) (bytes lengths) at end (bytes_lent node) node.new result }
{
    let mut first = at;
    let mut last = end;
    let mut p = 0;
    for entry in lengths.chunks_exact(request::ENTRY) {
        let k = entry[0] as usize;
        let n = request::value_length(entry[1]) as usize;
        let key = piece_at(parts, p, k);
        first = put_padded(node, first, packed, key);
        let value = piece_at(parts, p + k, n);
        last = last - layout::padded_length(packed, n as u64) as usize;
        put_padded(node, last, packed, value);
        p = p + k + n;
    }
    first
}

// All slots that are reserved: those of the entries, and zeros.
fn put_table(node: &mut [u8], at: usize, sizes: Sizes, plan: Plan, lengths: &[u64]) -> usize
    requires { Counted lengths.now × Tabled sizes plan lengths.now × (at + plan.table ≤ length node.old) }
    ensures { TableFill node at sizes plan lengths result × (result ≡ at + plan.table) }
{
    let end = put_slots(node, at, sizes, plan.packed, lengths);
    writers::put_zeros(node, end, at + plan.table as usize - end)
}

// What is between keys and values.
fn free_length(plan: Plan) -> u64
    requires { Holds plan }
    ensures { result ≡ free_of plan }
{
    plan.room - plan.table - plan.keys - plan.values
}

// Everything before the table but the checksum.
pub(crate) fn put_headers(
    node: &mut [u8],
    header: NodeHeader,
    sizes: Sizes,
    count: u64,
    plan: Plan,
) -> usize
    requires { Holds plan × (56 ≤ length node.old) }
    ensures { Fills node 8 (headers_of header sizes count plan) result × (result ≡ 56) }
{
    let free = free_length(plan);
    let shape = put_object_header(node, CHECKSUM, header);
    let areas = put_shape(node, shape, header, sizes, count);
    put_areas(node, areas, plan.table, plan.keys, free)
}

// Table, keys, free space and values.
pub(crate) fn put_entries(
    node: &mut [u8],
    at: usize,
    sizes: Sizes,
    parts: &[u8],
    lengths: &[u64],
    plan: Plan,
) -> usize
    requires { Laid sizes parts.now lengths.now plan × (at + plan.room ≤ length node.old) }
    ensures { Fills node at (space_of sizes (bytes parts) (bytes lengths) plan) result × (result ≡ at + plan.room) }
{
    let free = free_length(plan);
    let keys = put_table(node, at, sizes, plan, lengths);
    let end = at + plan.room as usize;
    let zeros = put_pairs(node, keys, end, plan.packed, parts, lengths);
    writers::put_zeros(node, zeros, free as usize);
    end
}

// A root ends with the tree's description.
pub(crate) fn put_description(node: &mut [u8], at: usize, root: bool, info: &[u8]) -> usize
    requires { (description_length ≤ length info.now) × (at + pick root description_length 0 ≤ length node.old) }
    ensures { Fills node at (description root (bytes info)) result }
{
    if root {
        let whole = fields::part_of(info, 0, DESCRIPTION);
        return writers::put_bytes(node, at, whole);
    }
    at
}
