// What a pass loads before it audits.
ghost use Rattle.std.specs.Prelude.{◌≡◌};
ghost use Rattle.blocks.specs.clauses.Images.{Holds};
ghost use Rattle.space_check.specs.clauses.Stages.{Loads, pool_of, manager_of, load_of};

use crate::PartsPlace;
use blocks::{Address, Container, Refusal};
use checkpoint::{Checkpoint, superblock};
use manager::Manager;

// The pool of a manager that was loaded.
fn load_pool(
    image: &[u8],
    checkpoint: Checkpoint,
    root: Address,
    manager: Manager,
) -> Result<PartsPlace, Refusal>
    requires { Holds image.now checkpoint.container }
    ensures { Loads image checkpoint.container result (pool_of checkpoint root manager) }
{
    let container = checkpoint.container;
    pool::load(image, container, manager)?;
    let pool = pool::pool_place(image, container, manager);
    Ok(PartsPlace { root, pool })
}

// The manager, by what the checkpoint map has for its id, and its pool.
fn load_manager(image: &[u8], checkpoint: Checkpoint, root: Address) -> Result<PartsPlace, Refusal>
    requires { Holds image.now checkpoint.container }
    ensures { Loads image checkpoint.container result (manager_of checkpoint root) }
{
    let container = checkpoint.container;
    let at = checkpoint.superblock;
    let sb = blocks::block(image, container.size, at);
    let id = superblock::manager_id(sb);
    let mapped = checkpoint::chain::lookup(image, checkpoint, id);
    let manager = manager::load::load(image, container, sb, mapped)?;
    load_pool(image, checkpoint, root, manager)
}

// The object map with its root comes first, then the manager, then the pool.
pub(crate) fn load(image: &[u8], checkpoint: Checkpoint) -> Result<PartsPlace, Refusal>
    requires { Holds image.now checkpoint.container }
    ensures { Loads image checkpoint.container result (load_of checkpoint) }
{
    let container = checkpoint.container;
    let at = checkpoint.superblock;
    let sb = blocks::block(image, container.size, at);
    let map = superblock::object_map_address(sb);
    let root = nodes::object_map::load_object_map(image, container, map)?;
    load_manager(image, checkpoint, root)
}
