// How a node is laid out (`layout`, `toc_slots`, `data_space`).
ghost use Rattle.std.specs.Prelude.{◌≡◌, ◌+◌, ◌*◌, ◌/◌, ◌^◌, ◌≤◌, ◌<◌, max};
ghost use Rattle.fields.specs.Choice.{pick};
ghost use Rattle.node_build.specs.Build.{in_eights, is_packed, padded_length, leaf_level, space as space_of, slots as slots_of, slot_width};
ghost use Rattle.node_build.specs.clauses.Layouts.{Admitted, LaidOut, holds};

use crate::{Measured, NodeHeader, Plan, Sizes};

// Slots of the table are reserved in eights, and padding is up to eights.
const EIGHT: u64 = 8;

// The bit of a description's flags by which keys and values aren't padded.
const PACKED: u64 = 6;

// A child pointer.
const POINTER_SIZE: u64 = 8;

const HEADER: u64 = 56;

const DESCRIPTION: u64 = 40;

// A row of the table: two offsets where sizes are fixed, else each with its length.
const FIXED_ROW: u64 = 4;

const VARIABLE_ROW: u64 = 8;

// Where sizes vary, a table has at least these.
const LEAST_SLOTS: u64 = 16;

pub(crate) fn is_packed(info: &[u8]) -> bool
    ensures { result ≡ is_packed info.now }
{
    fields::has_bit(fields::u32_of(info, 0), PACKED)
}

pub(crate) fn in_eights(n: u64) -> u64
    requires { n + 7 < 2 ^ 64 }
    ensures { (result ≡ in_eights n) × (n ≤ result) × (result ≤ n + 7) }
{
    (n + (EIGHT - 1)) / EIGHT * EIGHT
}

pub(crate) fn padded_length(packed: bool, n: u64) -> u64
    requires { n + 7 < 2 ^ 64 }
    ensures { (result ≡ padded_length packed n) × (n ≤ result) × (result ≤ n + 7) }
{
    if packed { n } else { in_eights(n) }
}

pub(crate) fn is_leaf(header: NodeHeader) -> bool
    ensures { result ≡ leaf_level header }
{
    header.level == 0
}

fn space(root: bool, size: u64) -> u64
    requires { 96 ≤ size }
    ensures { (result ≡ space_of root size) × (result ≤ size) }
{
    if root {
        size - HEADER - DESCRIPTION
    } else {
        size - HEADER
    }
}

// An index node's values are child pointers, whatever is stated.
fn value_size(leaf: bool, stated: u64) -> u64
    requires { stated < 2 ^ 32 }
    ensures { (result ≡ pick leaf stated 8) × (result < 2 ^ 32) }
{
    if leaf { stated } else { POINTER_SIZE }
}

// How many pieces of a size there is room for.
fn pieces(room: u64, size: u64) -> u64
    requires { 0 < size }
    ensures { (result ≡ room / size) × (result ≤ room) }
{
    room / size
}

fn fixed_slots(key: u64, value: u64, leaf: bool, room: u64) -> u64
    requires { (key < 2 ^ 32) × (value < 2 ^ 32) × (room ≤ 65536) }
    ensures { (result ≡ in_eights (room / (4 + key + pick leaf value 8))) × (result ≤ 65543) }
{
    let size = FIXED_ROW + key + value_size(leaf, value);
    in_eights(pieces(room, size))
}

fn variable_slots(count: u64) -> u64
    requires { count < 2 ^ 60 }
    ensures { (result ≡ max (in_eights count) 16) × (result < 2 ^ 60 + 16) }
{
    let n = in_eights(count);
    if n < LEAST_SLOTS { LEAST_SLOTS } else { n }
}

fn slots(sizes: Sizes, leaf: bool, room: u64, count: u64) -> u64
    requires { (room ≤ 65536) × (count < 2 ^ 60) }
    ensures { (result ≡ slots_of sizes leaf room count) × (result < 2 ^ 60 + 16) }
{
    match sizes {
        Sizes::Fixed(k, v) => fixed_slots(k as u64, v as u64, leaf, room),
        Sizes::Variable => variable_slots(count),
    }
}

// The bytes of all slots that are reserved.
fn table_length(sizes: Sizes, reserved: u64) -> u64
    requires { reserved < 2 ^ 60 + 16 }
    ensures { result ≡ reserved * slot_width sizes }
{
    match sizes {
        Sizes::Fixed(_, _) => reserved * FIXED_ROW,
        Sizes::Variable => reserved * VARIABLE_ROW,
    }
}

pub(crate) fn lay_out(
    size: u64,
    header: NodeHeader,
    sizes: Sizes,
    packed: bool,
    count: u64,
    measured: Measured,
) -> Plan
    requires { Admitted size count }
    ensures { LaidOut size header sizes packed count measured result }
{
    let room = space(header.root, size);
    let reserved = slots(sizes, is_leaf(header), room, count);
    let table = table_length(sizes, reserved);
    Plan {
        packed,
        room,
        reserved,
        table,
        keys: measured.keys,
        values: measured.values,
    }
}

// Whether so many entries have slots, and all have room.
pub(crate) fn fits(count: u64, plan: Plan) -> bool
    ensures { result ≡ holds count plan }
{
    if plan.reserved < count {
        return false;
    }
    if plan.room < plan.table {
        return false;
    }
    let left = plan.room - plan.table;
    if left < plan.keys {
        return false;
    }
    plan.values <= left - plan.keys
}
