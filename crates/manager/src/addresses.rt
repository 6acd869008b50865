// Lists of addresses, in place: the main device's in the manager, and that of an address block.
ghost use Rattle.std.specs.Prelude.{◌≡◌, ◌+◌, ◌*◌, length};
ghost use Rattle.fields.specs.clauses.Numbers.{NumberAt};
ghost use Rattle.blocks.specs.clauses.Images.{bytes, blocks_in};
ghost use Rattle.manager.specs.Manager.{has_address_blocks, listed_count};
ghost use Rattle.manager.specs.clauses.Place.{manager_on};
ghost use Rattle.manager.specs.clauses.Lists.{held_on, listed_in, addresses_in, AddressesSeen, AddressRead};

use crate::offsets::{ADDRESS_BLOCKS, CHUNK_INFO_COUNT, LISTED_AT};
use crate::{AddressList, Holder, Manager, lists, place};
use blocks::{Address, Container, Refusal};

// How wide an address is.
const WIDTH: u64 = 8;

// Where an address block counts its addresses, and where they begin.
const COUNT: usize = 36;

const ADDRESSES: u64 = 40;

// Whether the main device has address blocks above its chunk-info blocks.
pub fn has_address_blocks(image: &[u8], container: Container, manager: Manager) -> bool
    ensures { result ≡ has_address_blocks (manager_on image container manager) }
{
    0 < place::u32_of(image, container, manager, ADDRESS_BLOCKS)
}

fn listed_count(image: &[u8], container: Container, manager: Manager) -> u64
    ensures { result ≡ listed_count (manager_on image container manager) }
{
    if has_address_blocks(image, container, manager) {
        return place::u32_of(image, container, manager, ADDRESS_BLOCKS);
    }
    place::u32_of(image, container, manager, CHUNK_INFO_COUNT)
}

// The main device's list: of its address blocks, or else of its chunk-info blocks.
pub fn listed(image: &[u8], container: Container, manager: Manager) -> AddressList
    ensures { result ≡ listed_in (manager_on image container manager) manager }
{
    let at = place::u32_of(image, container, manager, LISTED_AT);
    let count = listed_count(image, container, manager);
    let holder = Holder::InManager(manager);
    AddressList { holder, at, count }
}

// The list of an address block.
pub fn addresses_of(image: &[u8], container: Container, address: Address) -> AddressList
    ensures { result ≡ addresses_in (blocks_in image.entry container address.0) address }
{
    let block = blocks::block(image, container.size, address);
    let count = fields::u32_of(block, COUNT);
    let holder = Holder::InBlock(address);
    AddressList {
        holder,
        at: ADDRESSES,
        count,
    }
}

// How many bytes there are where a list stands.
fn bytes_held(image: &[u8], container: Container, holder: Holder) -> u64
    ensures { result ≡ length (held_on image container holder) }
{
    match holder {
        Holder::InManager(m) => m.size,
        Holder::InBlock(a) => {
            let block = blocks::block(image, container.size, a);
            block.len() as u64
        }
    }
}

// Whether the addresses of a list may all be read.
pub fn addresses_there(image: &[u8], container: Container, list: AddressList) -> Result<(), Refusal>
    ensures { AddressesSeen image container list result }
{
    let size = bytes_held(image, container, list.holder);
    lists::list_there(size, WIDTH, list.at, list.count)
}

// Entry index of the list at an offset of a block; one past the block's end counts 0.
fn block_entry(block: &[u8], at: u64, index: u64) -> u64
    ensures { NumberAt 8 (bytes block) (at + 8 * index) result }
{
    match lists::entry_at(at, WIDTH, index) {
        Some(off) => fields::u64_of(block, off as usize),
        None => 0,
    }
}

// Entry index of a list.
pub fn address_at(image: &[u8], container: Container, list: AddressList, index: u64) -> Address
    ensures { AddressRead image container list index result.0 }
{
    match list.holder {
        Holder::InManager(m) => Address(lists::entry(image, container, m, WIDTH, list.at, index)),
        Holder::InBlock(a) => {
            let block = blocks::block(image, container.size, a);
            Address(block_entry(block, list.at, index))
        }
    }
}
