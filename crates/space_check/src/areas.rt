// Claims 1 to 6: areas that the superblock and the manager name.
ghost use Rattle.std.specs.Prelude.{◌≡◌};
ghost use Rattle.blocks.specs.clauses.Images.{bytes};
ghost use Rattle.manager.specs.clauses.Place.{manager_on};
ghost use Rattle.trees.specs.clauses.Answers.{ClaimsAs};
ghost use Rattle.space_check.specs.clauses.Stages.{superblock_area, pool_area, area_of, areas_of};

use crate::Area;
use blocks::{Container, Refusal};
use checkpoint::{Checkpoint, superblock};
use manager::{Manager, offsets, place};
use report::OverlapLog;

// The descriptor area and the data area.
fn superblock_area(sb: &[u8], kind: u8) -> Area
    ensures { result ≡ superblock_area (bytes sb) kind }
{
    if kind == claims::DESCRIPTOR_AREA {
        return Area {
            start: superblock::descriptor_base(sb),
            len: superblock::without_top_bit(superblock::descriptor_blocks(sb)),
        };
    }
    Area {
        start: superblock::data_base(sb),
        len: superblock::without_top_bit(superblock::data_blocks(sb)),
    }
}

// The pool, and the ring of its bitmap.
fn pool_area(image: &[u8], container: Container, manager: Manager, kind: u8) -> Area
    ensures { result ≡ pool_area (manager_on image container manager) kind }
{
    if kind == claims::INTERNAL_POOL {
        return Area {
            start: place::u64_of(image, container, manager, offsets::POOL_BASE),
            len: place::u64_of(image, container, manager, offsets::POOL_BLOCKS),
        };
    }
    Area {
        start: place::u64_of(image, container, manager, offsets::POOL_RING),
        len: place::u32_of(image, container, manager, offsets::POOL_RING_BLOCKS),
    }
}

fn area_of(image: &[u8], container: Container, sb: &[u8], manager: Manager, kind: u8) -> Area
    ensures { result ≡ area_of (bytes sb) (manager_on image container manager) kind }
{
    if kind == claims::CONTAINER_SUPERBLOCK {
        return Area { start: 0, len: 1 };
    }
    if kind == claims::OBJECT_MAP {
        let a = superblock::object_map_address(sb);
        return Area { start: a.0, len: 1 };
    }
    if kind <= claims::DATA_AREA {
        return superblock_area(sb, kind);
    }
    pool_area(image, container, manager, kind)
}

// Claims 1 to 6, in order.
pub(crate) fn claim_areas(
    image: &[u8],
    map: &mut [u8],
    checkpoint: Checkpoint,
    manager: Manager,
    log: OverlapLog,
) -> Result<OverlapLog, Refusal>
    ensures { ClaimsAs image map checkpoint.container log result (areas_of checkpoint manager) }
{
    let container = checkpoint.container;
    let sb = blocks::block(image, container.size, checkpoint.superblock);
    let mut log = log;
    for kind in claims::CONTAINER_SUPERBLOCK..=claims::OBJECT_MAP {
        let area = area_of(image, container, sb, manager, kind);
        log = claims::claim(map, container, kind, area.start, area.len, log)?;
    }
    Ok(log)
}
