// The blocks that a list names, each audited as its sort is.
ghost use Rattle.std.specs.Prelude.{ℕ, ◌<◌};
ghost use Rattle.audit.specs.clauses.Answers.{AuditsAs, BlockEntry, pool_at, entry_of, read_by, audit_by, each_in};

use crate::{Audit, problems};
use blocks::{Address, Container, Refusal};
use manager::{AddressList, addresses};
use pool::PoolPlace;

// A sort of block that a list names.
pub(crate) trait ListedBlock {
    ghost UNMARKED: { ℕ };

    ghost entry: { BlockEntry };

    // The problem of one that the pool's bitmap doesn't mark.
    const UNMARKED: u8;

    // One that the container has: all that it names is there before the first of it is audited.
    fn enter(
        image: &[u8],
        map: &mut [u8],
        container: Container,
        place: PoolPlace,
        address: Address,
        audit: Audit,
    ) -> Result<Audit, Refusal>
        requires { address.0 < container.count }
        ensures { AuditsAs image map container audit result (entry_of entry container place address) };
}

// A block, once its problem is logged.
fn read_block<B: ListedBlock>(
    image: &[u8],
    map: &mut [u8],
    container: Container,
    place: PoolPlace,
    address: Address,
    audit: Audit,
) -> Result<Audit, Refusal>
    ensures { AuditsAs image map container audit result (λ f. read_by B.entry container (pool_at container place f) address) }
{
    blocks::raw_block(image, container, address)?;
    B::enter(image, map, container, place, address, audit)
}

// A block named again is no problem.
fn audit_block<B: ListedBlock>(
    image: &[u8],
    map: &mut [u8],
    container: Container,
    place: PoolPlace,
    address: Address,
    audit: Audit,
) -> Result<Audit, Refusal>
    ensures { AuditsAs image map container audit result (λ f. audit_by B.UNMARKED B.entry container (pool_at container place f) address) }
{
    let audit = problems::audit_mark(image, container, place, B::UNMARKED, address.0, audit)?;
    read_block::<B>(image, map, container, place, address, audit)
}

// The blocks of a list that is there.
pub(crate) fn audit_each<B: ListedBlock>(
    image: &[u8],
    map: &mut [u8],
    container: Container,
    place: PoolPlace,
    list: AddressList,
    audit: Audit,
) -> Result<Audit, Refusal>
    ensures { AuditsAs image map container audit result (each_in (audit_by B.UNMARKED B.entry) container place list) }
{
    let mut audit = audit;
    for i in 0..list.count {
        let address = addresses::address_at(image, container, list, i);
        audit = audit_block::<B>(image, map, container, place, address, audit)?;
    }
    Ok(audit)
}
