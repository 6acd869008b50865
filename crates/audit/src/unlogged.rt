// An entry of the pool queue that logs nothing, as nearly every one does, is audited without the figures: to pass them by value
// copies their logs.
ghost use Rattle.std.specs.Prelude.{◌≡◌, ◌+◌, ◌^◌, ◌<◌};
ghost use Rattle.blocks.specs.clauses.Images.{bytes, bytes_lent};
ghost use Rattle.pool.specs.clauses.Place.{pool_on};
ghost use Rattle.audit.specs.clauses.Unlogged.{all_unused, used_from, unlogged_on, AuditsUnlogged};

use crate::queued::has_run;
use blocks::Container;
use nodes::EntryPlace;
use pool::PoolPlace;
use queue::Run;

// Whether each block of a run is unused, and marked in the pool's bitmap. The bitmap's block with the first of their bits is found
// once, since it nearly always has all of them.
fn all_unused(image: &[u8], map: &[u8], container: Container, place: PoolPlace, run: Run) -> bool
    requires { run.start + run.count < 2 ^ 64 }
    ensures { result ≡ all_unused container (pool_on image container place) (bytes map) run.count run.start }
{
    let size = container.size;
    let k = pool::block_of_bit(size, pool::pool_index(run.start, place.base));
    let part = pool::bitmap_block(image, container, place, k);
    let first = k * size;
    for block in run.start..run.start + run.count {
        if block_map::used_at(map, container, block) {
            return false;
        }
        if !pool::marked_near(image, container, place, part, first, block) {
            return false;
        }
    }
    true
}

fn use_run(map: &mut [u8], run: Run)
    requires { run.start + run.count < 2 ^ 64 }
    ensures { map.new ≡ used_from run.count run.start (bytes_lent map) }
{
    for block in run.start..run.start + run.count {
        block_map::use_block(map, block);
    }
}

// Whether the entry's blocks log nothing: they are used then. Where one would, or the entry is refused, the map is left as it is.
pub fn audit_unlogged(
    image: &[u8],
    map: &mut [u8],
    node: &[u8],
    container: Container,
    place: PoolPlace,
    entry: EntryPlace,
) -> bool
    ensures { (result ≡ unlogged_on image map container place node entry) × AuditsUnlogged image map container place node entry result }
{
    let Ok(run) = queue::run_of(node, entry) else {
        return false;
    };
    if !has_run(container, run) {
        return false;
    }
    if !all_unused(image, map, container, place, run) {
        return false;
    }
    use_run(map, run);
    true
}
