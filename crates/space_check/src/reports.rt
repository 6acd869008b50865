// The report, made in one place from what a pass counted and from the block map that it left.
ghost use Rattle.std.specs.Prelude.{◌≡◌};
ghost use Rattle.blocks.specs.clauses.Images.{bytes, Holds};
ghost use Rattle.space_check.specs.clauses.Stages.{report_on, reports_of, pass_of, body_of, Passes, RootRead};

use crate::PartsPlace;
use crate::audits::{audit_all, claim_all};
use crate::load::load;
use audit::Audit;
use blocks::{Container, Refusal};
use checkpoint::Checkpoint;
use manager::offsets::DEVICE_FREE;
use manager::place;
use pool::PoolPlace;
use report::logs::overlap_total;
use report::{OverlapLog, Report};

fn report_of(
    image: &[u8],
    map: &[u8],
    container: Container,
    pool: PoolPlace,
    audit: Audit,
    overlaps: OverlapLog,
) -> Report
    ensures { result ≡ report_on image container pool audit overlaps (bytes map) }
{
    let m = pool.manager;
    let totals = totals::count_blocks(map, container.count);
    let lost = totals.lost;
    let problems = audit.problems;
    let claimants = overlaps.claimants;
    Report {
        xid: container.xid,
        pool_used: totals.used,
        pool_unused: pool::unused(image, map, container, pool),
        free_ring: audit.ring,
        problems,
        free: audit.free,
        wrong_chunks: audit.wrong,
        device_free: place::u64_of(image, container, m, DEVICE_FREE),
        overlaps,
        lost,
        leaked: totals.leaked,
        verdict: totals::verdict(lost, overlap_total(claimants), problems.total),
    }
}

// The claims, once the audit is made, and the report.
fn claim_and_report(
    image: &[u8],
    map: &mut [u8],
    checkpoint: Checkpoint,
    parts: PartsPlace,
    audit: Audit,
) -> Result<Report, Refusal>
    requires { RootRead image checkpoint parts }
    ensures { Passes image map checkpoint result (reports_of checkpoint parts audit) }
{
    let log = claim_all(image, map, checkpoint, parts)?;
    let container = checkpoint.container;
    Ok(report_of(image, map, container, parts.pool, audit, log))
}

// The audit, the claims and the report, once all is loaded.
fn audit_and_claim(
    image: &[u8],
    map: &mut [u8],
    checkpoint: Checkpoint,
    parts: PartsPlace,
) -> Result<Report, Refusal>
    requires { RootRead image checkpoint parts }
    ensures { Passes image map checkpoint result (pass_of checkpoint parts) }
{
    let audit = audit_all(image, map, checkpoint, parts)?;
    claim_and_report(image, map, checkpoint, parts, audit)
}

// What follows the choice of the superblock, from a map that was cleared.
pub(crate) fn body(image: &[u8], map: &mut [u8], checkpoint: Checkpoint) -> Result<Report, Refusal>
    requires { Holds image.now checkpoint.container }
    ensures { Passes image map checkpoint result (body_of checkpoint) }
{
    let parts = load(image, checkpoint)?;
    audit_and_claim(image, map, checkpoint, parts)
}
