// A manager's bytes, read where they stand: nothing is copied, and a field may straddle two blocks of the ring.
ghost use Rattle.std.specs.Prelude.{◌≡◌, ◌+◌, ◌/◌, ◌%◌, ◌<◌, ◌≤◌, get_or};
ghost use Rattle.fields.specs.clauses.Numbers.{NumberAt};
ghost use Rattle.blocks.specs.clauses.Images.{blocks_in};
ghost use Rattle.manager.specs.Manager.{ring_length};
ghost use Rattle.manager.specs.clauses.Place.{ring_index, address_in, manager_on};

use crate::Manager;
use blocks::{Address, Container};
use checkpoint::superblock;

// How many values a byte has.
const BYTE_VALUES: u64 = 256;

// A length of 0 counts as 1, so that there is a remainder.
fn ring_length(stored: u64) -> u64
    ensures { result ≡ ring_length stored }
{
    superblock::without_top_bit(stored).max(1)
}

// A remainder; most numbers are below the divisor already, and need no division.
fn remainder(number: u64, divisor: u64) -> u64
    requires { 0 < divisor }
    ensures { result ≡ number % divisor }
{
    if number < divisor {
        number
    } else {
        number % divisor
    }
}

fn quotient(number: u64, divisor: u64) -> u64
    requires { 0 < divisor }
    ensures { result ≡ number / divisor }
{
    if number < divisor {
        0
    } else {
        number / divisor
    }
}

// Each part is reduced first, so that the sum does not wrap.
pub(crate) fn ring_index(manager: Manager, index: u64) -> u64
    ensures { result ≡ ring_index manager index }
{
    let ring = ring_length(manager.blocks);
    let offset = manager.at.0.saturating_sub(manager.base);
    remainder(remainder(offset, ring) + remainder(index, ring), ring)
}

// Block index after a base; empty where its number passes 2^64, since no image has such a block.
pub fn block_after(image: &[u8], container: Container, base: u64, index: u64) -> &[u8]
    ensures { result.now ≡ blocks_in image.entry container (base + index) }
{
    match base.checked_add(index) {
        Some(n) => blocks::block(image, container.size, Address(n)),
        None => &[],
    }
}

// The manager's block index.
pub(crate) fn ring_block(image: &[u8], container: Container, manager: Manager, index: u64) -> &[u8]
    ensures { result.now ≡ blocks_in image.entry container (address_in manager index) }
{
    let k = ring_index(manager, index);
    block_after(image, container, manager.base, k)
}

// The byte index places after off, or 0 past the manager's end.
fn byte_in(image: &[u8], container: Container, manager: Manager, off: u64, index: u64) -> u64
    ensures { (result ≡ get_or (manager_on image container manager) (off + index) 0) × (result < 256) }
{
    let size = container.size;
    if manager.size.saturating_sub(off) <= index {
        return 0;
    }
    if size == 0 {
        return 0;
    }
    let j = off + index;
    let block = ring_block(image, container, manager, j / size);
    fields::wide(block.get((j % size) as usize).copied().unwrap_or(0))
}

// The number in the width bytes from off on, read byte by byte, wherever each stands.
fn number_across(image: &[u8], container: Container, manager: Manager, off: u64, width: u64) -> u64
    requires { width ≤ 8 }
    ensures { NumberAt width (manager_on image container manager) off result }
{
    let mut v: u64 = 0;
    for k in (0..width).rev() {
        v = v * BYTE_VALUES + byte_in(image, container, manager, off, k);
    }
    v
}

// The number in the width bytes from off on, lowest first; bytes past the end count 0. Most fields lie in one block.
pub(crate) fn number(
    image: &[u8],
    container: Container,
    manager: Manager,
    off: u64,
    width: u64,
) -> u64
    requires { width ≤ 8 }
    ensures { NumberAt width (manager_on image container manager) off result }
{
    let size = container.size;
    if size == 0 {
        return number_across(image, container, manager, off, width);
    }
    let block = ring_block(image, container, manager, quotient(off, size));
    let at = remainder(off, size);
    if fields::fits(manager.size, off, width) && fields::fits(block.len() as u64, at, width) {
        return fields::number(block, at as usize, width as usize);
    }
    number_across(image, container, manager, off, width)
}

pub fn u16_of(image: &[u8], container: Container, manager: Manager, at: u64) -> u64
    ensures { NumberAt 2 (manager_on image container manager) at result }
{
    number(image, container, manager, at, 2)
}

pub fn u32_of(image: &[u8], container: Container, manager: Manager, at: u64) -> u64
    ensures { NumberAt 4 (manager_on image container manager) at result }
{
    number(image, container, manager, at, 4)
}

pub fn u64_of(image: &[u8], container: Container, manager: Manager, at: u64) -> u64
    ensures { NumberAt 8 (manager_on image container manager) at result }
{
    number(image, container, manager, at, 8)
}
