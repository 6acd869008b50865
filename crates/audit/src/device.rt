// The main device: its address blocks, each with the chunk-info blocks that it lists, or else its chunk-info blocks alone.
ghost use Rattle.audit.specs.Audit.{address_unmarked, enter_address};
ghost use Rattle.audit.specs.clauses.Answers.{AuditsAs, listed_of, device_in};

use crate::chunks::InfoBlock;
use crate::listed::{ListedBlock, audit_each};
use crate::{Audit, problems};
use blocks::{Address, Container, Refusal};
use manager::{AddressList, addresses};
use pool::PoolPlace;

// An address block: its list is there before the first of its chunk-info blocks is audited.
struct AddressBlock;

impl ListedBlock for AddressBlock {
    ghost UNMARKED = { address_unmarked };

    ghost entry = { enter_address };

    const UNMARKED: u8 = problems::ADDRESS_UNMARKED;

    fn enter(
        image: &[u8],
        map: &mut [u8],
        container: Container,
        place: PoolPlace,
        address: Address,
        audit: Audit,
    ) -> Result<Audit, Refusal> {
        let infos = addresses::addresses_of(image, container, address);
        addresses::addresses_there(image, container, infos)?;
        block_map::use_block(map, address.0);
        audit_each::<InfoBlock>(image, map, container, place, infos, audit)
    }
}

// The blocks of the main device's list, which is there.
fn audit_listed(
    image: &[u8],
    map: &mut [u8],
    container: Container,
    place: PoolPlace,
    list: AddressList,
    audit: Audit,
) -> Result<Audit, Refusal>
    ensures { AuditsAs image map container audit result (listed_of container place list) }
{
    if addresses::has_address_blocks(image, container, place.manager) {
        return audit_each::<AddressBlock>(image, map, container, place, list, audit);
    }
    audit_each::<InfoBlock>(image, map, container, place, list, audit)
}

// The main device: its list is read whole before the first of its blocks.
pub fn audit_device(
    image: &[u8],
    map: &mut [u8],
    container: Container,
    place: PoolPlace,
    audit: Audit,
) -> Result<Audit, Refusal>
    ensures { AuditsAs image map container audit result (device_in container place) }
{
    let list = addresses::listed(image, container, place.manager);
    addresses::addresses_there(image, container, list)?;
    audit_listed(image, map, container, place, list, audit)
}
