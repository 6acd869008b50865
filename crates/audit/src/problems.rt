// What the audit counts, and the problems that it meets.
ghost use Rattle.std.specs.Prelude.{◌≡◌};
ghost use Rattle.pool.specs.clauses.Place.{pool_on};
ghost use Rattle.audit.specs.Audit.{no_audit, with_problems, with_ring, unless as unless_of, audit_mark, audit_use};
ghost use Rattle.audit.specs.clauses.Answers.{Anywhere, AuditsStill, pool_at};

use crate::Audit;
use blocks::{Container, Refusal};
use pool::PoolPlace;
use report::{Problem, ProblemLog, logs};

pub(crate) const INFO_UNMARKED: u8 = 1;

pub(crate) const BITMAP_UNMARKED: u8 = 2;

pub(crate) const BITMAP_IN_USE: u8 = 3;

pub(crate) const QUEUED_UNMARKED: u8 = 4;

pub(crate) const QUEUED_IN_USE: u8 = 5;

pub(crate) const ADDRESS_UNMARKED: u8 = 6;

pub const FREE_IN_USE: u8 = 7;

pub const FREE_REPEATED: u8 = 8;

pub fn nothing_audited() -> Audit
    ensures { result ≡ no_audit }
{
    Audit {
        problems: logs::no_problems(),
        free: 0,
        wrong: 0,
        ring: 0,
    }
}

fn with_problems(problems: ProblemLog, audit: Audit) -> Audit
    ensures { result ≡ with_problems problems audit }
{
    Audit { problems, ..audit }
}

pub fn with_ring(ring: u64, audit: Audit) -> Audit
    ensures { result ≡ with_ring ring audit }
{
    Audit { ring, ..audit }
}

// A problem with a block, unless the test holds. The map is left as it is.
pub fn unless(ok: bool, kind: u8, block: u64, audit: Audit) -> Result<Audit, Refusal>
    ensures { Anywhere audit result (unless_of ok kind block) }
{
    if ok {
        return Ok(audit);
    }
    let problems = logs::add_problem(audit.problems, Problem { kind, block })?;
    Ok(with_problems(problems, audit))
}

// A problem unless the pool's bitmap marks the block: the same test for every sort of block.
pub(crate) fn audit_mark(
    image: &[u8],
    container: Container,
    place: PoolPlace,
    unmarked: u8,
    block: u64,
    audit: Audit,
) -> Result<Audit, Refusal>
    ensures { Anywhere audit result (audit_mark (pool_on image container place) unmarked block) }
{
    let marked = pool::pool_marked(image, container, place, block);
    unless(marked, unmarked, block, audit)
}

// The mark of the block, and then whether it is used already, each a problem of its own.
pub(crate) fn audit_use(
    image: &[u8],
    map: &[u8],
    container: Container,
    place: PoolPlace,
    unmarked: u8,
    in_use: u8,
    block: u64,
    audit: Audit,
) -> Result<Audit, Refusal>
    ensures { AuditsStill image map container audit result (λ f. audit_use container (pool_at container place f) unmarked in_use block) }
{
    let audit = audit_mark(image, container, place, unmarked, block, audit)?;
    let used = block_map::used_at(map, container, block);
    unless(!used, in_use, block, audit)
}
