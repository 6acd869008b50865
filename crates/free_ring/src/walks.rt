// The walk along the free list.
ghost use Rattle.std.specs.Prelude.{◌≡◌, ◌^◌, ◌<◌};
ghost use Rattle.manager.specs.clauses.Place.{manager_on};
ghost use Rattle.free_ring.specs.clauses.Walks.{free_list_in, table_on, Entry, Walks};

use crate::sets::set_bit;
use crate::{FreeList, RingEnd, SET_BYTES, Walked};
use blocks::Container;
use manager::{Manager, lists, offsets, place};

// The list that a manager's fields name.
pub(crate) fn free_list(image: &[u8], container: Container, manager: Manager) -> FreeList
    ensures { (result ≡ free_list_in (manager_on image container manager)) × (result.head < 2 ^ 16) }
{
    FreeList {
        head: place::u16_of(image, container, manager, offsets::FREE_HEAD),
        tail: place::u16_of(image, container, manager, offsets::FREE_TAIL),
        table: place::u32_of(image, container, manager, offsets::FREE_NEXT_AT),
        blocks: place::u32_of(image, container, manager, offsets::POOL_RING_BLOCKS),
    }
}

// What the table has after an index; 0 past its end.
pub(crate) fn next_index(
    image: &[u8],
    container: Container,
    manager: Manager,
    list: FreeList,
    index: u64,
) -> u64
    ensures { Entry (table_on image container manager list) index result }
{
    if list.blocks <= index {
        return 0;
    }
    lists::index_at(image, container, manager, list.table, index)
}

// From the head on: one step for each index, since one that was seen ends the walk.
pub(crate) fn walk(image: &[u8], container: Container, manager: Manager, list: FreeList) -> Walked
    requires { list.head < 2 ^ 16 }
    ensures { Walks (table_on image container manager list) list.head list.tail result }
{
    let mut seen = [0u8; SET_BYTES];
    let mut i = list.head;
    let mut count = 0;
    let ending = loop {
        if list.blocks <= i {
            break RingEnd::Outside;
        }
        if fields::bit_at(&seen, i) {
            break RingEnd::Again(i);
        }
        set_bit(&mut seen, i);
        count += 1;
        if i == list.tail {
            break RingEnd::Tail;
        }
        i = next_index(image, container, manager, list, i);
    };
    Walked { ending, count }
}
