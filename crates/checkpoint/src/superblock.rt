// The fields of a container superblock.
ghost use Rattle.std.specs.Prelude.{◌≡◌, ◌<◌, ◌≤◌, ◌^◌};
ghost use Rattle.checkpoint.specs.Superblock.{magic_of, block_size as block_size_of, block_count as block_count_of, incompatible as incompatible_of, descriptor_blocks, data_blocks, descriptor_base, data_base, descriptor_index, descriptor_length, manager_id, object_map_address, most_volumes, volume_places, volume_id, without_top_bit};

use blocks::{Address, ObjectId};

// The top bit of an area's length, which is no part of it, and the bits that are.
pub(crate) const TOP_BIT: u64 = 0x80000000;

const LENGTH_BITS: u64 = 0x7fffffff;

const MAGIC_BYTES: usize = 32;

const BLOCK_SIZE: usize = 36;

const BLOCK_COUNT: usize = 40;

const INCOMPATIBLE: usize = 64;

const DESCRIPTOR_BLOCKS: usize = 104;

const DATA_BLOCKS: usize = 108;

const DESCRIPTOR_BASE: usize = 112;

const DATA_BASE: usize = 120;

const DESCRIPTOR_INDEX: usize = 136;

const DESCRIPTOR_LENGTH: usize = 140;

const MANAGER_ID: usize = 152;

const OBJECT_MAP: usize = 160;

const VOLUME_COUNT: usize = 180;

const VOLUME_IDS: usize = 184;

const ID_SIZE: usize = 8;

// How many volumes a container may have.
const MOST_VOLUMES: u64 = 100;

// The length of an area, whose top bit says something else.
pub fn without_top_bit(length: u64) -> u64
    ensures { result ≡ without_top_bit length }
{
    length & LENGTH_BITS
}

pub(crate) fn magic_bytes(sb: &[u8]) -> u64
    ensures { result ≡ magic_of sb.now }
{
    fields::u32_of(sb, MAGIC_BYTES)
}

pub(crate) fn block_size(sb: &[u8]) -> u64
    ensures { result ≡ block_size_of sb.now }
{
    fields::u32_of(sb, BLOCK_SIZE)
}

pub(crate) fn block_count(sb: &[u8]) -> u64
    ensures { result ≡ block_count_of sb.now }
{
    fields::u64_of(sb, BLOCK_COUNT)
}

pub(crate) fn incompatible(sb: &[u8]) -> u64
    ensures { result ≡ incompatible_of sb.now }
{
    fields::u64_of(sb, INCOMPATIBLE)
}

pub fn descriptor_blocks(sb: &[u8]) -> u64
    ensures { result ≡ descriptor_blocks sb.now }
{
    fields::u32_of(sb, DESCRIPTOR_BLOCKS)
}

pub fn data_blocks(sb: &[u8]) -> u64
    ensures { result ≡ data_blocks sb.now }
{
    fields::u32_of(sb, DATA_BLOCKS)
}

pub fn descriptor_base(sb: &[u8]) -> u64
    ensures { result ≡ descriptor_base sb.now }
{
    fields::u64_of(sb, DESCRIPTOR_BASE)
}

pub fn data_base(sb: &[u8]) -> u64
    ensures { result ≡ data_base sb.now }
{
    fields::u64_of(sb, DATA_BASE)
}

pub(crate) fn descriptor_index(sb: &[u8]) -> u64
    ensures { (result ≡ descriptor_index sb.now) × (result < 2 ^ 32) }
{
    fields::u32_of(sb, DESCRIPTOR_INDEX)
}

pub(crate) fn descriptor_length(sb: &[u8]) -> u64
    ensures { (result ≡ descriptor_length sb.now) × (result < 2 ^ 32) }
{
    fields::u32_of(sb, DESCRIPTOR_LENGTH)
}

pub fn manager_id(sb: &[u8]) -> ObjectId
    ensures { result ≡ manager_id sb.now }
{
    ObjectId(fields::u64_of(sb, MANAGER_ID))
}

pub fn object_map_address(sb: &[u8]) -> Address
    ensures { result ≡ object_map_address sb.now }
{
    Address(fields::u64_of(sb, OBJECT_MAP))
}

// How many places there are for the ids of volumes; a place may be empty.
pub fn volume_places(sb: &[u8]) -> u64
    ensures { (result ≡ volume_places sb.now) × (result ≤ most_volumes) }
{
    fields::least(fields::u32_of(sb, VOLUME_COUNT), MOST_VOLUMES)
}

// The id in one of these places.
pub fn volume_id(sb: &[u8], place: u64) -> ObjectId
    requires { place < most_volumes }
    ensures { result ≡ volume_id sb.now place }
{
    ObjectId(fields::u64_of(sb, VOLUME_IDS + place as usize * ID_SIZE))
}
