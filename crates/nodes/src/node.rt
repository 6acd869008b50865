// A node's header, and which nodes are taken.
ghost use Rattle.std.specs.Prelude.{◌≡◌, ◌-◌, ◌^◌, ◌<◌, ◌≤◌, length};
ghost use Rattle.blocks.specs.clauses.Images.{bytes};
ghost use Rattle.blocks.specs.clauses.Answers.{there_as, outcome, Always, Sees};
ghost use Rattle.nodes.specs.Node.{is_root, is_leaf, is_fixed, is_hashed, level_of, key_count, table_at, keys_at, description_length, value_end};
ghost use Rattle.nodes.specs.Node.{read_node, parse as parse_of, describe as describe_of};
ghost use Rattle.nodes.specs.clauses.Answers.{is_node, is_plain, is_sound};

use crate::Description;
use blocks::{Address, Container, Refusal};

const ROOT_NODE: u64 = 2;

const NODE: u64 = 3;

// Offsets in a node.
const FLAGS: usize = 32;

const LEVEL: usize = 34;

const KEY_COUNT: usize = 36;

const TABLE_OFFSET: usize = 40;

const TABLE_LENGTH: usize = 42;

// The table's offset is counted from the header's end.
const HEADER: u64 = 56;

// Bits of a node's flags.
const ROOT: u64 = 0;

const LEAF: u64 = 1;

const FIXED: u64 = 2;

const HASHED: u64 = 3;

const DEEPEST: u64 = 32;

// The tree description at a root's end, and offsets in it.
const DESCRIPTION: usize = 40;

const KEY_SIZE: usize = 8;

const VALUE_SIZE: usize = 12;

fn is_root(node: &[u8]) -> bool
    ensures { result ≡ is_root (bytes node) }
{
    fields::has_bit(fields::u16_of(node, FLAGS), ROOT)
}

pub fn is_leaf(node: &[u8]) -> bool
    ensures { result ≡ is_leaf (bytes node) }
{
    fields::has_bit(fields::u16_of(node, FLAGS), LEAF)
}

pub(crate) fn is_fixed(node: &[u8]) -> bool
    ensures { result ≡ is_fixed (bytes node) }
{
    fields::has_bit(fields::u16_of(node, FLAGS), FIXED)
}

fn is_hashed(node: &[u8]) -> bool
    ensures { result ≡ is_hashed (bytes node) }
{
    fields::has_bit(fields::u16_of(node, FLAGS), HASHED)
}

pub fn level(node: &[u8]) -> u64
    ensures { (result ≡ level_of (bytes node)) × (result < 2 ^ 16) }
{
    fields::u16_of(node, LEVEL)
}

pub fn key_count(node: &[u8]) -> u64
    ensures { (result ≡ key_count (bytes node)) × (result < 2 ^ 32) }
{
    fields::u32_of(node, KEY_COUNT)
}

pub(crate) fn table_at(node: &[u8]) -> u64
    ensures { (result ≡ table_at (bytes node)) × (result < 2 ^ 17) }
{
    HEADER + fields::u16_of(node, TABLE_OFFSET)
}

pub(crate) fn keys_at(node: &[u8]) -> u64
    ensures { (result ≡ keys_at (bytes node)) × (result < 2 ^ 18) }
{
    table_at(node) + fields::u16_of(node, TABLE_LENGTH)
}

// Where a root's tree description begins.
fn description_at(node: &[u8]) -> usize
    ensures { result ≡ length (bytes node) - description_length }
{
    let len = node.len();
    if len < DESCRIPTION {
        0
    } else {
        len - DESCRIPTION
    }
}

// Where the values end: they are counted back from here.
pub(crate) fn value_end(node: &[u8]) -> u64
    ensures { (result ≡ value_end (bytes node)) × (result ≤ length (bytes node)) }
{
    let whole = node.len() as u64;
    let less = description_at(node) as u64;
    if is_root(node) { less } else { whole }
}

fn is_node(node: &[u8]) -> bool
    ensures { result ≡ is_node (bytes node) }
{
    let kind = fields::kind(node);
    kind == ROOT_NODE || kind == NODE
}

// Whether bytes are a node of a kind that is taken: a hashed node's is not.
fn is_plain(node: &[u8]) -> bool
    ensures { result ≡ is_plain (bytes node) }
{
    is_node(node) && !is_hashed(node)
}

// Whether the key area begins before the values end, or where they do, and the level is one that a tree may have.
fn is_sound(node: &[u8]) -> bool
    ensures { result ≡ is_sound (bytes node) }
{
    keys_at(node) <= value_end(node) && level(node) <= DEEPEST
}

// Whether bytes are a node that can be taken apart.
fn parse(node: &[u8]) -> Result<(), Refusal>
    ensures { Always (there_as (bytes node) result) (parse_of (bytes node)) }
{
    let plain = is_plain(node);
    let sound = is_sound(node);
    if !plain {
        return Err(Refusal::WrongKind);
    }
    if !sound {
        return Err(Refusal::BadNode); // of a plain one alone
    }
    Ok(())
}

// The node at an address, whole.
pub fn read_node(image: &[u8], container: Container, address: Address) -> Result<&[u8], Refusal>
    ensures { Sees image container result (read_node container address) }
{
    let node = blocks::object_block(image, container, address)?;
    parse(node)?;
    Ok(node)
}

// What a root says of its tree; no other node says it.
pub fn describe(node: &[u8]) -> Result<Description, Refusal>
    ensures { Always (outcome result) (describe_of (bytes node)) }
{
    if !is_root(node) {
        return Err(Refusal::BadNode); // whatever else it is
    }
    let at = description_at(node);
    let flags = fields::u32_of(node, at);
    let key = fields::u32_of(node, at + KEY_SIZE);
    let value = fields::u32_of(node, at + VALUE_SIZE);
    Ok(Description { flags, key, value })
}
