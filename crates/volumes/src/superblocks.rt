// The volumes' superblocks: all of them are there before the first volume is claimed.
ghost use Rattle.std.specs.Prelude.{◌≡◌};
ghost use Rattle.blocks.specs.clauses.Images.{bytes};
ghost use Rattle.blocks.specs.clauses.Answers.{outcome, Always, Sees};
ghost use Rattle.nodes.specs.clauses.Answers.{part_in};
ghost use Rattle.volumes.specs.Volumes.{live_address, is_volume, read_volume};
ghost use Rattle.volumes.specs.clauses.Answers.{MapsTo, AddressIn, SeesVolume, SeesPlace, SeesVolumes};

use crate::ObjectMap;
use blocks::{Address, Container, ObjectId, Refusal};
use checkpoint::superblock::{volume_id, volume_places};
use nodes::entries::field_in;
use nodes::object_map::{MAPPING_ADDRESS, MAPPING_ID, is_deleted};
use nodes::{EntryPlace, Part};

// A volume superblock's kind, and the bytes APSB at their offset.
const VOLUME: u64 = 13;

const MAGIC_BYTES: usize = 32;

const MAGIC: u64 = 0x42535041;

// The address in a mapping's value, unless the mapping was deleted.
fn live_address(node: &[u8], value: Part) -> Result<Address, Refusal>
    ensures { Always (outcome result) (live_address (part_in (bytes node) value)) }
{
    let address = field_in(node, value, MAPPING_ADDRESS)?;
    if is_deleted(node, value) {
        Err(Refusal::VolumeUnmapped)
    } else {
        Ok(Address(address))
    }
}

// The address of an id, by the mapping that its lookup has reached.
fn mapped_by(node: &[u8], place: EntryPlace, id: ObjectId) -> Result<Address, Refusal>
    ensures { MapsTo node place id result }
{
    let value = place.value.ok_or(Refusal::VolumeUnmapped)?;
    if field_in(node, place.key, MAPPING_ID)? == id.0 {
        live_address(node, value)
    } else {
        Err(Refusal::VolumeUnmapped)
    }
}

fn is_volume(object: &[u8]) -> bool
    ensures { result ≡ is_volume (bytes object) }
{
    fields::kind(object) == VOLUME && fields::u32_of(object, MAGIC_BYTES) == MAGIC
}

// The volume's superblock at an address.
fn read_volume(image: &[u8], container: Container, address: Address) -> Result<&[u8], Refusal>
    ensures { Sees image container result (read_volume container address) }
{
    let object = blocks::object_block(image, container, address)?;
    if is_volume(object) {
        Ok(object)
    } else {
        Err(Refusal::NotVolume)
    }
}

impl ObjectMap {
    // The address of an id at the checkpoint's xid.
    pub(crate) fn address_for(self, image: &[u8], id: ObjectId) -> Result<Address, Refusal>
        ensures { AddressIn image self id result }
    {
        let entry = self.lookup(image, id)?.ok_or(Refusal::VolumeUnmapped)?;
        let node = blocks::block(image, self.container.size, entry.node);
        mapped_by(node, entry.place, id)
    }

    // The superblock of the volume with an id, right after its lookup.
    fn volume_for(self, image: &[u8], id: ObjectId) -> Result<&[u8], Refusal>
        ensures { SeesVolume image self id result }
    {
        let address = self.address_for(image, id)?;
        read_volume(image, self.container, address)
    }

    // The volume of a place, by its id: where that is 0 there is none.
    fn volume_at(self, image: &[u8], id: ObjectId) -> Result<Option<&[u8]>, Refusal>
        ensures { SeesPlace image self id result }
    {
        if id.0 == 0 {
            return Ok(None);
        }
        let volume = self.volume_for(image, id)?;
        Ok(Some(volume))
    }

    // Whether all volumes' superblocks are there, for the places of the container superblock sb.
    pub(crate) fn volumes_there(self, image: &[u8], sb: &[u8]) -> Result<(), Refusal>
        ensures { SeesVolumes image self sb result }
    {
        for place in 0..volume_places(sb) {
            self.volume_at(image, volume_id(sb, place))?;
        }
        Ok(())
    }
}
