// Lists read in place: whether one lies wholly inside its bytes, and its entries; the indices of the pool's bitmap blocks, and the
// table of the free ones.
ghost use Rattle.std.specs.Prelude.{◌≡◌, List, ℕ, ◌+◌, ◌*◌, ◌^◌, ◌<◌, ◌≤◌, length, SomeIff};
ghost use Rattle.fields.specs.clauses.Numbers.{NumberAt};
ghost use Rattle.manager.specs.clauses.Place.{manager_on};
ghost use Rattle.manager.specs.clauses.Lists.{FieldsSeen, IndexList, IndicesSeen, FreeNextSeen, IndexRead};

use crate::offsets::{FREE_NEXT_AT, POOL_BITMAPS, POOL_INDICES_AT, POOL_RING_BLOCKS};
use crate::{Manager, place};
use blocks::{Container, Refusal};

// How wide an index of the pool bitmap's ring is.
const POOL_INDEX_WIDTH: u64 = 2;

// Where entry index of a list stands, or none past 2^64, where nothing stands.
pub(crate) fn entry_at(at: u64, width: u64, index: u64) -> Option<u64>
    ensures { SomeIff result (at + width * index < 2 ^ 64) (at + width * index) }
{
    at.checked_add(width.checked_mul(index)?)
}

// Whether count fields of width bytes from at on lie inside size bytes: one test, and not a walk.
pub(crate) fn list_there(size: u64, width: u64, at: u64, count: u64) -> Result<(), Refusal>
    ensures { (sm : List ℕ) → length sm ≡ size → FieldsSeen width sm count at result }
{
    if count == 0 {
        return Ok(());
    }
    let end = entry_at(at, width, count).ok_or(Refusal::OutsideBytes)?;
    if size < end {
        return Err(Refusal::OutsideBytes);
    }
    Ok(())
}

// Whether a list of ring indices may be read whole, by the fields that have its count and its offset.
fn indices_there(
    image: &[u8],
    container: Container,
    manager: Manager,
    counted: u64,
    offset: u64,
) -> Result<(), Refusal>
    ensures { IndexList (manager_on image container manager) counted offset result }
{
    let count = place::u32_of(image, container, manager, counted);
    let at = place::u32_of(image, container, manager, offset);
    list_there(manager.size, POOL_INDEX_WIDTH, at, count)
}

// Whether the indices of the pool's bitmap blocks may all be read.
pub fn pool_indices(image: &[u8], container: Container, manager: Manager) -> Result<(), Refusal>
    ensures { IndicesSeen (manager_on image container manager) result }
{
    indices_there(image, container, manager, POOL_BITMAPS, POOL_INDICES_AT)
}

// Whether the table that leads along the ring's free list may be read whole.
pub fn free_next(image: &[u8], container: Container, manager: Manager) -> Result<(), Refusal>
    ensures { FreeNextSeen (manager_on image container manager) result }
{
    indices_there(image, container, manager, POOL_RING_BLOCKS, FREE_NEXT_AT)
}

// Entry index of the list at an offset; one past the manager's end counts 0.
pub(crate) fn entry(
    image: &[u8],
    container: Container,
    manager: Manager,
    width: u64,
    at: u64,
    index: u64,
) -> u64
    requires { width ≤ 8 }
    ensures { NumberAt width (manager_on image container manager) (at + width * index) result }
{
    match entry_at(at, width, index) {
        Some(off) => place::number(image, container, manager, off, width),
        None => 0,
    }
}

// Entry index of the list of ring indices at an offset.
pub fn index_at(image: &[u8], container: Container, manager: Manager, at: u64, index: u64) -> u64
    ensures { IndexRead (manager_on image container manager) at index result }
{
    entry(image, container, manager, POOL_INDEX_WIDTH, at, index)
}
