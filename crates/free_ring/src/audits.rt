// The audit of the free list: its indices in use, and how the walk along it ended.
ghost use Rattle.std.specs.Prelude.{◌^◌, ◌<◌};
ghost use Rattle.manager.specs.clauses.Place.{manager_on};
ghost use Rattle.audit.specs.clauses.Answers.{Anywhere};
ghost use Rattle.free_ring.specs.FreeRing.{ring_problem, audit_index, audit_end, close_ring, audit_ring};
ghost use Rattle.free_ring.specs.clauses.Walks.{table_on};
ghost use Rattle.free_ring.specs.clauses.Answers.{AuditsSteps, free_on, table_audit};

use crate::sets::in_use;
use crate::{FreeList, RingEnd, SET_BYTES, walks};
use audit::{Audit, problems};
use blocks::{Container, Refusal};
use manager::{Manager, lists};
use pool::PoolPlace;

// The head of an empty list.
const NO_HEAD: u64 = 0xffff;

// A problem with the ring's block index, whose number is summed only here.
fn ring_problem(kind: u8, base: u64, index: u64, audit: Audit) -> Result<Audit, Refusal>
    ensures { Anywhere audit result (ring_problem kind base index) }
{
    problems::unless(false, kind, blocks::add(base, index)?, audit)
}

// An index visited, by whether it is in use.
fn audit_index(base: u64, used: bool, index: u64, audit: Audit) -> Result<Audit, Refusal>
    ensures { Anywhere audit result (audit_index base used index) }
{
    if !used {
        return Ok(audit);
    }
    ring_problem(problems::FREE_IN_USE, base, index, audit)
}

// The first steps from the head on, by the set of indices in use. They are gone along again: no list of them is kept.
fn audit_visited(
    image: &[u8],
    container: Container,
    place: PoolPlace,
    list: FreeList,
    steps: u64,
    used: &[u8],
    audit: Audit,
) -> Result<Audit, Refusal>
    requires { list.head < 2 ^ 16 }
    ensures { AuditsSteps used audit result place.ring (table_on image container place.manager list) steps list.head }
{
    let mut audit = audit;
    let mut i = list.head;
    for _ in 0..steps {
        audit = audit_index(place.ring, fields::bit_at(used, i), i, audit)?;
        i = walks::next_index(image, container, place.manager, list, i);
    }
    Ok(audit)
}

// What the end of a walk says.
fn audit_end(base: u64, end: RingEnd, audit: Audit) -> Result<Audit, Refusal>
    ensures { Anywhere audit result (audit_end base end) }
{
    match end {
        RingEnd::Tail => Ok(audit),
        RingEnd::Again(i) => ring_problem(problems::FREE_REPEATED, base, i, audit),
        RingEnd::Outside => Err(Refusal::RingIndex),
    }
}

// The end of a walk that visited so many indices, which are then counted.
fn close_ring(base: u64, end: RingEnd, count: u64, audit: Audit) -> Result<Audit, Refusal>
    ensures { Anywhere audit result (close_ring base end count) }
{
    let audit = audit_end(base, end, audit)?;
    Ok(problems::with_ring(count, audit))
}

// The list, once its table is known to be whole.
fn audit_free(
    image: &[u8],
    container: Container,
    place: PoolPlace,
    list: FreeList,
    audit: Audit,
) -> Result<Audit, Refusal>
    requires { list.head < 2 ^ 16 }
    ensures { Anywhere audit result (free_on image container place list) }
{
    if list.head == NO_HEAD {
        return Ok(problems::with_ring(0, audit));
    }
    let walked = walks::walk(image, container, place.manager, list);
    let mut used = [0u8; SET_BYTES];
    in_use(image, container, place, &mut used);
    let audit = audit_visited(image, container, place, list, walked.count, &used, audit)?;
    close_ring(place.ring, walked.ending, walked.count, audit)
}

// The list of a manager whose table is whole. The indices in use are asked for again, though the pool's loading has read them, so
// that nothing is required.
fn audit_table(
    image: &[u8],
    container: Container,
    manager: Manager,
    audit: Audit,
) -> Result<Audit, Refusal>
    ensures { Anywhere audit result (table_audit (manager_on image container manager)) }
{
    lists::pool_indices(image, container, manager)?;
    let place = pool::pool_place(image, container, manager);
    let list = walks::free_list(image, container, manager);
    audit_free(image, container, place, list, audit)
}

// The free ring of a manager's pool: the table is read whole first, for an empty list too.
pub fn audit_ring(
    image: &[u8],
    container: Container,
    manager: Manager,
    audit: Audit,
) -> Result<Audit, Refusal>
    ensures { Anywhere audit result (audit_ring (manager_on image container manager)) }
{
    lists::free_next(image, container, manager)?;
    audit_table(image, container, manager, audit)
}
