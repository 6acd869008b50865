// The object map: its header, the root of its tree, and what a mapping says of itself.
ghost use Rattle.std.specs.Prelude.{◌≡◌, ◌&&◌, eqb};
ghost use Rattle.fields.specs.Fields.{bit};
ghost use Rattle.blocks.specs.Reads.{run};
ghost use Rattle.blocks.specs.clauses.Images.{bytes, blocks_in};
ghost use Rattle.blocks.specs.clauses.Answers.{outcome, Always};
ghost use Rattle.nodes.specs.ObjectMap.{read_object_map, describe_map, load_object_map, is_deleted};
ghost use Rattle.nodes.specs.clauses.Answers.{part_in};

use crate::node::{describe, read_node};
use crate::{Description, Part};
use blocks::{Address, Container, Refusal};

const OBJECT_MAP: u64 = 11;

// Offsets in an object map.
const TREE_TYPE: usize = 40;

pub const TREE_ROOT: usize = 48;

// A type's top two bits tell how its objects are stored.
const STORAGE: u64 = 30;

const PHYSICAL: u64 = 1;

// What an object map's tree is like: a bit of its flags, and the size of its keys and of its values.
const PHYSICAL_TREE: u64 = 4;

const PAIR_SIZE: u64 = 16;

// Fields of a mapping: the id and the transaction in its key, the flags and the address in its value.
pub const MAPPING_ID: usize = 0;

pub const MAPPING_XID: usize = 8;

const MAPPING_FLAGS: usize = 0;

pub const MAPPING_ADDRESS: usize = 8;

// The flag of a deleted one.
const DELETED: u64 = 0;

// The address of the tree's root.
fn read_object_map(image: &[u8], container: Container, address: Address) -> Result<Address, Refusal>
    ensures { outcome result ≡ run (blocks_in image.entry container) (read_object_map container address) }
{
    let object = blocks::object_block(image, container, address)?;
    if fields::kind(object) != OBJECT_MAP {
        return Err(Refusal::WrongKind);
    }
    if fields::u32_of(object, TREE_TYPE) >> STORAGE != PHYSICAL {
        return Err(Refusal::WrongKind);
    }
    Ok(Address(fields::u64_of(object, TREE_ROOT)))
}

// Whether a tree is such as an object map has.
fn is_map(description: Description) -> bool
    ensures { result ≡ (bit 4 description.flags && eqb description.key 16 && eqb description.value 16) }
{
    if !fields::has_bit(description.flags, PHYSICAL_TREE) {
        return false;
    }
    description.key == PAIR_SIZE && description.value == PAIR_SIZE
}

// What a root says of its tree, which must be an object map's.
fn describe_map(node: &[u8]) -> Result<Description, Refusal>
    ensures { Always (outcome result) (describe_map (bytes node)) }
{
    let description = describe(node)?;
    if !is_map(description) {
        return Err(Refusal::BadNode);
    }
    Ok(description)
}

// The address of the tree's root, once the root is read and says what tree it has.
pub fn load_object_map(
    image: &[u8],
    container: Container,
    address: Address,
) -> Result<Address, Refusal>
    ensures { outcome result ≡ run (blocks_in image.entry container) (load_object_map container address) }
{
    let root = read_object_map(image, container, address)?;
    let node = read_node(image, container, root)?;
    describe_map(node)?;
    Ok(root)
}

// Whether a mapping was deleted, by the flags that its value begins with.
pub fn is_deleted(node: &[u8], value: Part) -> bool
    ensures { result ≡ is_deleted (part_in (bytes node) value) }
{
    let bytes = fields::part_of(node, value.at as usize, value.len as usize);
    fields::has_bit(fields::u32_of(bytes, MAPPING_FLAGS), DELETED)
}
