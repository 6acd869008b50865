// The claims of the volumes' own trees: object map, extent references, snapshots.
ghost use Rattle.std.specs.Prelude.{◌≡◌, ◌%◌};
ghost use Rattle.blocks.specs.Reads.{run};
ghost use Rattle.blocks.specs.clauses.Images.{bytes, blocks_in};
ghost use Rattle.blocks.specs.clauses.Answers.{outcome};
ghost use Rattle.trees.specs.clauses.Answers.{ClaimsAs};
ghost use Rattle.volumes.specs.Volumes.{claim_tree, read_map, claim_snapshots, claim_volume};
ghost use Rattle.volumes.specs.clauses.Answers.{claims_place, claims_places, claims_volumes};

use crate::ObjectMap;
use blocks::{Address, Container, ObjectId, Refusal};
use checkpoint::superblock::{volume_id, volume_places};
use nodes::Description;
use nodes::object_map::TREE_ROOT;
use report::OverlapLog;

// Offsets in a volume's superblock.
const MAP: usize = 128;

const EXTENTS: usize = 144;

const SNAPSHOTS: usize = 152;

// The nodes of the tree with its root at an address, each claimed by a kind, by what the root says of its tree.
fn claim_tree(
    image: &[u8],
    map: &mut [u8],
    container: Container,
    kind: u8,
    root: Address,
    log: OverlapLog,
) -> Result<OverlapLog, Refusal>
    ensures { ClaimsAs image map container log result (λ f. claim_tree container (kind % 16) root) }
{
    let node = nodes::node::read_node(image, container, root)?;
    let description = nodes::node::describe(node)?;
    trees::walks::walk(image, map, container, kind, description, root, log)
}

// The root of a volume's object map, whose block is read as it is.
fn read_map(image: &[u8], container: Container, address: Address) -> Result<Address, Refusal>
    ensures { outcome result ≡ run (blocks_in image.entry container) (read_map container address) }
{
    if address.0 == 0 {
        return Err(Refusal::PastContainer);
    }
    let object = blocks::raw_block(image, container, address)?;
    Ok(Address(fields::u64_of(object, TREE_ROOT)))
}

// The snapshot tree's nodes, where there is one.
fn claim_snapshots(
    image: &[u8],
    map: &mut [u8],
    container: Container,
    volume: &[u8],
    log: OverlapLog,
) -> Result<OverlapLog, Refusal>
    ensures { ClaimsAs image map container log result (λ f. claim_snapshots container (bytes volume)) }
{
    let root = fields::u64_of(volume, SNAPSHOTS);
    if root == 0 {
        return Ok(log);
    }
    claim_tree(
        image,
        map,
        container,
        claims::SNAPSHOT_NODE,
        Address(root),
        log,
    )
}

// A volume, by its superblock: its object map, whose block is claimed before it is read for its root, and its trees.
fn claim_volume(
    image: &[u8],
    map: &mut [u8],
    container: Container,
    volume: &[u8],
    log: OverlapLog,
) -> Result<OverlapLog, Refusal>
    ensures { ClaimsAs image map container log result (λ f. claim_volume container (bytes volume)) }
{
    let at = fields::u64_of(volume, MAP);
    let log = claims::claim(map, container, claims::OBJECT_MAP, at, 1, log)?;
    let root = read_map(image, container, Address(at))?;
    let log = claim_tree(image, map, container, claims::OBJECT_MAP_NODE, root, log)?;
    let extents = Address(fields::u64_of(volume, EXTENTS));
    let log = claim_tree(image, map, container, claims::EXTENT_NODE, extents, log)?;
    claim_snapshots(image, map, container, volume, log)
}

// The volume of a place, unless its id is 0. It is looked up again, and its superblock, which was read before, taken as it is.
fn claim_place(
    image: &[u8],
    map: &mut [u8],
    objects: ObjectMap,
    id: ObjectId,
    log: OverlapLog,
) -> Result<OverlapLog, Refusal>
    ensures { ClaimsAs image map objects.container log result (claims_place objects id) }
{
    if id.0 == 0 {
        return Ok(log);
    }
    let at = objects.address_for(image, id)?;
    let volume = blocks::block(image, objects.container.size, at);
    claim_volume(image, map, objects.container, volume, log)
}

// Volume by volume, in the places of the container superblock sb.
fn claim_each(
    image: &[u8],
    map: &mut [u8],
    objects: ObjectMap,
    sb: &[u8],
    log: OverlapLog,
) -> Result<OverlapLog, Refusal>
    ensures { ClaimsAs image map objects.container log result (claims_places objects sb) }
{
    let mut log = log;
    for place in 0..volume_places(sb) {
        log = claim_place(image, map, objects, volume_id(sb, place), log)?;
    }
    Ok(log)
}

// All volumes' superblocks are read first; then each volume is claimed.
pub fn claim_volumes(
    image: &[u8],
    map: &mut [u8],
    container: Container,
    description: Description,
    root: Address,
    sb: &[u8],
    log: OverlapLog,
) -> Result<OverlapLog, Refusal>
    ensures { ClaimsAs image map container log result (claims_volumes container description root sb) }
{
    let objects = ObjectMap {
        container,
        description,
        root,
    };
    objects.volumes_there(image, sb)?;
    claim_each(image, map, objects, sb, log)
}
