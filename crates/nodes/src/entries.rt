// A node's table and its entries, as places in the node.
ghost use Rattle.std.specs.Prelude.{◌≡◌, ◌+◌};
ghost use Rattle.fields.specs.Choice.{pick};
ghost use Rattle.blocks.specs.Blocks.{field, part};
ghost use Rattle.blocks.specs.clauses.Images.{bytes};
ghost use Rattle.blocks.specs.clauses.Answers.{outcome, outcome_by, Always};
ghost use Rattle.nodes.specs.Node.{is_leaf, keys_at, fixed_slot, variable_slot, value_of, slot as slot_of, entry as entry_of, pointer as pointer_of};
ghost use Rattle.nodes.specs.clauses.Answers.{part_in, value_in, entry_in};

use crate::node::{is_fixed, is_leaf, keys_at, table_at, value_end};
use crate::{Description, EntryPlace, Part, Slot};
use blocks::Refusal;
use fields::fits;

// A row of the table: two offsets where sizes are fixed, else each with its length.
const FIXED_ROW: u64 = 4;

const VARIABLE_ROW: u64 = 8;

// How far apart a row's fields are.
const STEP: usize = 2;

// A child pointer, and where it stands in its value.
const POINTER_SIZE: u64 = 8;

const POINTER: usize = 0;

// The value offset of an entry without value.
const GHOST: u64 = 0xffff;

// How long a value is where sizes are fixed: an index node's are child pointers.
fn fixed_value(node: &[u8], description: Description) -> u64
    ensures { result ≡ pick (is_leaf (bytes node)) description.value 8 }
{
    if is_leaf(node) {
        description.value
    } else {
        POINTER_SIZE
    }
}

// The row at byte at, where sizes are fixed.
fn fixed_slot(node: &[u8], description: Description, at: u64) -> Result<Slot, Refusal>
    ensures { Always (outcome result) (fixed_slot description (bytes node) at) }
{
    if !fits(node.len() as u64, at, FIXED_ROW) {
        return Err(Refusal::OutsideBytes);
    }
    let e = at as usize;
    let koff = fields::u16_of(node, e);
    let voff = fields::u16_of(node, e + STEP);
    let vlen = fixed_value(node, description);
    Ok(Slot {
        koff,
        klen: description.key,
        voff,
        vlen,
    })
}

// The row at byte at, where sizes vary.
fn variable_slot(node: &[u8], at: u64) -> Result<Slot, Refusal>
    ensures { Always (outcome result) (variable_slot (bytes node) at) }
{
    if !fits(node.len() as u64, at, VARIABLE_ROW) {
        return Err(Refusal::OutsideBytes);
    }
    let e = at as usize;
    let koff = fields::u16_of(node, e);
    let klen = fields::u16_of(node, e + STEP);
    let voff = fields::u16_of(node, e + 2 * STEP);
    let vlen = fields::u16_of(node, e + 3 * STEP);
    Ok(Slot {
        koff,
        klen,
        voff,
        vlen,
    })
}

// Row index of the table. A row that would begin past the node's end is tested first, so that no sum wraps.
fn slot(node: &[u8], description: Description, index: u64) -> Result<Slot, Refusal>
    ensures { Always (outcome result) (slot_of description (bytes node) index) }
{
    let n = node.len() as u64;
    let table = table_at(node);
    if is_fixed(node) {
        if n / FIXED_ROW < index {
            return Err(Refusal::OutsideBytes);
        }
        return fixed_slot(node, description, table + index * FIXED_ROW);
    }
    if n / VARIABLE_ROW < index {
        return Err(Refusal::OutsideBytes);
    }
    variable_slot(node, table + index * VARIABLE_ROW)
}

// The len bytes of a node from at on, which must all be there.
fn cut(node: &[u8], at: u64, len: u64) -> Result<Part, Refusal>
    ensures { Always (outcome_by (part_in (bytes node)) result) (part len (bytes node) at) }
{
    if !fits(node.len() as u64, at, len) {
        return Err(Refusal::OutsideBytes);
    }
    Ok(Part { at, len })
}

// A row's key. An offset past the node's end is tested first, so that no sum wraps.
fn key_of(node: &[u8], slot: Slot) -> Result<Part, Refusal>
    ensures { Always (outcome_by (part_in (bytes node)) result) (part slot.klen (bytes node) (keys_at (bytes node) + slot.koff)) }
{
    let keys = keys_at(node);
    if (node.len() as u64) < slot.koff {
        return Err(Refusal::OutsideBytes);
    }
    cut(node, keys + slot.koff, slot.klen)
}

// A row's value, counted back from the value end.
fn value_of(node: &[u8], slot: Slot) -> Result<Option<Part>, Refusal>
    ensures { Always (outcome_by (value_in (bytes node)) result) (value_of (bytes node) slot) }
{
    if slot.voff == GHOST {
        return Ok(None);
    }
    let end = value_end(node);
    if end < slot.voff {
        return Err(Refusal::OutsideBytes);
    }
    let value = cut(node, end - slot.voff, slot.vlen)?;
    Ok(Some(value))
}

// Entry index of a node: each key and value is a part cut from the node's middle.
pub fn entry(node: &[u8], description: Description, index: u64) -> Result<EntryPlace, Refusal>
    ensures { Always (outcome_by (entry_in (bytes node)) result) (entry_of description (bytes node) index) }
{
    let row = slot(node, description, index)?;
    let key = key_of(node, row)?;
    let value = value_of(node, row)?;
    Ok(EntryPlace { key, value })
}

// The field of eight bytes from at on in a part of a node.
pub fn field_in(node: &[u8], part: Part, at: usize) -> Result<u64, Refusal>
    ensures { Always (outcome result) (field 8 (part_in (bytes node) part) at) }
{
    fields::u64_in(node, part.at as usize, part.len as usize, at).ok_or(Refusal::OutsideBytes)
}

// The child pointer, address or id that a value begins with.
pub fn pointer(node: &[u8], value: Option<Part>) -> Result<u64, Refusal>
    ensures { Always (outcome result) (pointer_of (value_in (bytes node) value)) }
{
    let part = value.ok_or(Refusal::OutsideBytes)?;
    field_in(node, part, POINTER)
}
