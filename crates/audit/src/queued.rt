// The blocks in the pool queue: each must be marked, and used by nothing else.
ghost use Rattle.std.specs.Prelude.{◌≡◌, ◌+◌, ◌<◌, ◌≤◌, leb};
ghost use Rattle.audit.specs.Audit.{audit_queued_block};
ghost use Rattle.audit.specs.clauses.Answers.{AuditsAs, pool_at, queued_left, queued_in, run_blocks};

use crate::{Audit, problems};
use blocks::{Container, Refusal};
use nodes::EntryPlace;
use pool::PoolPlace;
use queue::Run;

// A queued block: unmarked, and then in use; it is used from here on.
fn audit_block(
    image: &[u8],
    map: &mut [u8],
    container: Container,
    place: PoolPlace,
    block: u64,
    audit: Audit,
) -> Result<Audit, Refusal>
    requires { block < container.count }
    ensures { AuditsAs image map container audit result (λ f. audit_queued_block container (pool_at container place f) block) }
{
    let audit = problems::audit_use(
        image,
        map,
        container,
        place,
        problems::QUEUED_UNMARKED,
        problems::QUEUED_IN_USE,
        block,
        audit,
    )?;
    block_map::use_block(map, block);
    Ok(audit)
}

// The blocks of a run that the container has.
fn audit_run(
    image: &[u8],
    map: &mut [u8],
    container: Container,
    place: PoolPlace,
    run: Run,
    audit: Audit,
) -> Result<Audit, Refusal>
    requires { run.start + run.count ≤ container.count }
    ensures { AuditsAs image map container audit result (queued_left container place (run_blocks run)) }
{
    let mut audit = audit;
    for block in run.start..run.start + run.count {
        audit = audit_block(image, map, container, place, block, audit)?;
    }
    Ok(audit)
}

// Whether the container has all blocks of a run, whose end could wrap.
pub(crate) fn has_run(container: Container, run: Run) -> bool
    ensures { result ≡ leb (run.start + run.count) container.count }
{
    fields::fits(container.count, run.start, run.count)
}

// The blocks that an entry of the pool queue names, the entry by its place in its node.
pub fn audit_queued(
    image: &[u8],
    map: &mut [u8],
    node: &[u8],
    container: Container,
    place: PoolPlace,
    entry: EntryPlace,
    audit: Audit,
) -> Result<Audit, Refusal>
    ensures { AuditsAs image map container audit result (queued_in container place node entry) }
{
    let run = queue::run_of(node, entry)?;
    if !has_run(container, run) {
        return Err(Refusal::Overflow);
    }
    audit_run(image, map, container, place, run, audit)
}
