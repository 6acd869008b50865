// Offsets in a manager.
pub(crate) const CHUNK_INFO_COUNT: u64 = 64;

pub(crate) const ADDRESS_BLOCKS: u64 = 68;

pub const DEVICE_FREE: u64 = 72;

pub(crate) const LISTED_AT: u64 = 80;

pub const POOL_BLOCKS: u64 = 152;

pub const POOL_BITMAPS: u64 = 160;

pub const POOL_RING_BLOCKS: u64 = 164;

pub const POOL_RING: u64 = 168;

pub const POOL_BASE: u64 = 176;

pub const POOL_QUEUE: u64 = 208;

pub const MAIN_QUEUE: u64 = 248;

pub const FREE_HEAD: u64 = 320;

pub const FREE_TAIL: u64 = 322;

pub const POOL_INDICES_AT: u64 = 328;

pub const FREE_NEXT_AT: u64 = 332;
