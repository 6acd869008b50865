// Loads the manager: its blocks are looked for, its bytes verified in place, its length tested. The answer is where it stands.
ghost use Rattle.std.specs.Prelude.{◌≡◌, ◌%◌, ◌<◌, ◌≤◌};
ghost use Rattle.fletcher.specs.Fletcher.{seal, checksum, verifies};
ghost use Rattle.blocks.specs.clauses.Images.{bytes, Holds};
ghost use Rattle.manager.specs.Manager.{blocks_for, accepted, manager_at, manager_by};
ghost use Rattle.manager.specs.clauses.Place.{place_of, manager_on};
ghost use Rattle.manager.specs.clauses.Answers.{Loads};
ghost use Rattle.manager.specs.clauses.Load.{BlockSeen, BlocksSeen, Stands, Piece};

use crate::{Manager, place};
use blocks::{Container, Refusal};
use checkpoint::{Mapping, superblock};
use fletcher::Sums;

// The least length of an object that verifies, and of a manager.
const LEAST_OBJECT: u64 = 32;

const LEAST_MANAGER: u64 = 344;

// An object is whole words; its checksum comes first, and the rest is summed.
const WORD: u64 = 4;

const CHECKSUM: u64 = 0;

const SUMMED_FROM: u64 = 8;

// Where a mapping says that the manager stands, in the data area that the superblock names.
fn place_of(sb: &[u8], mapping: Mapping) -> Manager
    ensures { result ≡ place_of (bytes sb) mapping }
{
    Manager {
        base: superblock::data_base(sb),
        blocks: superblock::data_blocks(sb),
        at: mapping.address,
        size: mapping.size,
    }
}

// How many blocks the manager takes: rounded up without a sum that could wrap.
fn blocks_for(container: Container, length: u64) -> u64
    requires { 0 < container.size }
    ensures { result ≡ blocks_for container length }
{
    length.div_ceil(container.size)
}

// Whether block index may be read.
fn block_there(container: Container, manager: Manager, index: u64) -> Result<(), Refusal>
    ensures { BlockSeen container manager index result }
{
    let at = manager.at.0;
    if at < manager.base {
        return Err(Refusal::Overflow);
    }
    blocks::add(at - manager.base, index)?;
    let address = blocks::add(manager.base, place::ring_index(manager, index))?;
    if container.count <= address {
        return Err(Refusal::PastContainer);
    }
    Ok(())
}

// Whether the first blocks may be read: no byte is looked at before all may.
fn blocks_there(container: Container, manager: Manager, blocks: u64) -> Result<(), Refusal>
    ensures { BlocksSeen container manager blocks result }
{
    for i in 0..blocks {
        block_there(container, manager, i)?;
    }
    Ok(())
}

// The manager's bytes from pos on, to its end or the block's.
fn piece_at(image: &[u8], container: Container, manager: Manager, pos: u64) -> &[u8]
    requires { Stands image.now container manager × (pos < manager.size) × (pos % 4 ≡ 0) × (manager.size % 4 ≡ 0) }
    ensures { Piece (manager_on image container manager) pos result.now }
{
    let size = container.size;
    let start = pos % size;
    let room = size - start;
    let left = manager.size - pos;
    let block = place::ring_block(image, container, manager, pos / size);
    let len = room.min(left);
    fields::part_of(block, start as usize, len as usize)
}

// The sums over the manager's bytes after its checksum, piece by piece.
fn sums_of(image: &[u8], container: Container, manager: Manager) -> Sums
    requires { Stands image.now container manager × (32 ≤ manager.size) × (manager.size % 4 ≡ 0) }
    ensures { seal result.s result.t ≡ checksum (manager_on image container manager) }
{
    let mut sums = Sums { s: 0, t: 0 };
    let mut pos = SUMMED_FROM;
    while pos < manager.size {
        let piece = piece_at(image, container, manager, pos);
        sums = fletcher::add(piece, sums);
        pos += piece.len() as u64;
    }
    sums
}

// Whether the manager verifies as one object.
fn verify(image: &[u8], container: Container, manager: Manager) -> bool
    requires { Stands image.now container manager }
    ensures { result ≡ verifies (manager_on image container manager) }
{
    if manager.size < LEAST_OBJECT {
        return false;
    }
    if manager.size % WORD != 0 {
        return false;
    }
    let sums = sums_of(image, container, manager);
    place::u64_of(image, container, manager, CHECKSUM) == fletcher::seal(sums)
}

// The tests of a manager whose blocks are there.
fn accept(image: &[u8], container: Container, manager: Manager) -> Result<Manager, Refusal>
    requires { Stands image.now container manager }
    ensures { Loads image container result (accepted (manager_on image container manager)) }
{
    if !verify(image, container, manager) {
        return Err(Refusal::BadChecksum);
    }
    if manager.size < LEAST_MANAGER {
        return Err(Refusal::OutsideBytes);
    }
    Ok(manager)
}

// The manager that a mapping names.
fn load_at(
    image: &[u8],
    container: Container,
    sb: &[u8],
    mapping: Mapping,
) -> Result<Manager, Refusal>
    requires { Holds image.now container }
    ensures { Loads image container result (manager_at container (bytes sb) mapping) }
{
    let manager = place_of(sb, mapping);
    blocks_there(container, manager, blocks_for(container, manager.size))?;
    accept(image, container, manager)
}

// The manager's place, or the first refusal: an id that isn't mapped comes before all else.
pub fn load(
    image: &[u8],
    container: Container,
    sb: &[u8],
    mapped: Option<Mapping>,
) -> Result<Manager, Refusal>
    requires { Holds image.now container }
    ensures { Loads image container result (manager_by container (bytes sb) mapped) }
{
    let mapping = mapped.ok_or(Refusal::Unmapped)?;
    load_at(image, container, sb, mapping)
}
