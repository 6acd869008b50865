// The greatest key not above a target, from a tree's root down (btree.rs `lookup_le`).
ghost use Rattle.std.specs.Prelude.{◌≡◌};
ghost use Rattle.blocks.specs.clauses.Images.{bytes};
ghost use Rattle.blocks.specs.clauses.Answers.{outcome, Always, Finds};
ghost use Rattle.nodes.specs.clauses.Answers.{part_in};
ghost use Rattle.volumes.specs.Lookup.{is_above, above, above_at, search as search_of, child_at};
ghost use Rattle.volumes.specs.clauses.Answers.{TurnAt, Reaches};

use crate::{LeafEntry, ObjectMap, Turn};
use blocks::{Address, Container, ObjectId, Refusal};
use nodes::entries::field_in;
use nodes::object_map::{MAPPING_ID, MAPPING_XID};
use nodes::{Description, Part};

// Whether a key's id and xid are above the target's.
fn is_above(id: ObjectId, xid: u64, key_id: u64, key_xid: u64) -> bool
    ensures { result ≡ is_above id xid key_id key_xid }
{
    id.0 < key_id || key_id == id.0 && xid < key_xid
}

// Whether a key is above the target: both its fields are read before they are compared.
fn above(node: &[u8], key: Part, id: ObjectId, xid: u64) -> Result<bool, Refusal>
    ensures { Always (outcome result) (above id xid (part_in (bytes node) key)) }
{
    let key_id = field_in(node, key, MAPPING_ID)?;
    let key_xid = field_in(node, key, MAPPING_XID)?;
    Ok(is_above(id, xid, key_id, key_xid))
}

// The same of the key of entry index.
fn above_at(
    node: &[u8],
    description: Description,
    id: ObjectId,
    xid: u64,
    index: u64,
) -> Result<bool, Refusal>
    ensures { Always (outcome result) (above_at description id xid (bytes node) index) }
{
    let entry = nodes::entries::entry(node, description, index)?;
    above(node, entry.key, id, xid)
}

// How many keys come before the first above the target, as halving finds it.
fn search(node: &[u8], description: Description, id: ObjectId, xid: u64) -> Result<u64, Refusal>
    ensures { Always (outcome result) (search_of description id xid (bytes node)) }
{
    let mut lo = 0;
    let mut hi = nodes::node::key_count(node);
    while lo < hi {
        let mid = (lo + hi) / 2;
        if above_at(node, description, id, xid, mid)? {
            hi = mid;
        } else {
            lo = mid + 1;
        }
    }
    Ok(lo)
}

// The child of entry index of a node of a level.
fn child_at(
    image: &[u8],
    container: Container,
    description: Description,
    node: &[u8],
    level: u64,
    index: u64,
) -> Result<Address, Refusal>
    ensures { Finds image container result (λ f. child_at container description level (bytes node) index) }
{
    let child = Address(trees::children::pointer_of(node, description, index)?);
    nodes::node::read_node(image, container, child)?;
    trees::children::one_below(image, container, child, level)
}

// Where a lookup goes from the node at an address, below which so many levels lie.
fn turn(
    image: &[u8],
    container: Container,
    description: Description,
    id: ObjectId,
    at: Address,
    level: u64,
) -> Result<Turn, Refusal>
    ensures { TurnAt image container description id at level result }
{
    let node = blocks::block(image, container.size, at);
    let n = search(node, description, id, container.xid)?;
    if n == 0 {
        return Ok(Turn::Nothing);
    }
    if nodes::node::is_leaf(node) {
        let place = nodes::entries::entry(node, description, n - 1)?;
        return Ok(Turn::At(place));
    }
    let child = child_at(image, container, description, node, level, n - 1)?;
    Ok(Turn::Down(child))
}

impl ObjectMap {
    // The entry with the greatest key not above the id at the checkpoint's xid, from the root down.
    pub(crate) fn lookup(self, image: &[u8], id: ObjectId) -> Result<Option<LeafEntry>, Refusal>
        ensures { Reaches image self id result }
    {
        let container = self.container;
        let mut at = self.root;
        let levels = nodes::node::level(blocks::block(image, container.size, at)) + 1;
        for level in (0..levels).rev() {
            match turn(image, container, self.description, id, at, level)? {
                Turn::Nothing => return Ok(None),
                Turn::At(place) => return Ok(Some(LeafEntry { node: at, place })),
                Turn::Down(child) => at = child,
            }
        }
        Err(Refusal::WrongLevel)
    }
}
