// What a pass is made of: refusals, object ids and block addresses, and reads of a container's blocks (dev.rs, nx.rs `Reader`).
#![tactic(auto)]

ghost use Rattle.std.specs.Prelude.{◌≡◌, List, ℕ};
ghost use Rattle.blocks.specs.Refusals.{number_of};
ghost use Rattle.blocks.specs.Reads.{run};
ghost use Rattle.blocks.specs.Blocks.{block_of, read_raw, read_object, sum};
ghost use Rattle.blocks.specs.clauses.Images.{bytes};
ghost use Rattle.blocks.specs.clauses.Answers.{there_as, outcome, Always, Sees, SeesIn};

// Why a pass gives no report, in checking order, each with its number.
#[derive(Clone, Copy)]
pub enum Refusal {
    ShortImage = 1,
    NoMagic = 2,
    BlockSize = 3,
    BlockCount = 4,
    MissingBlocks = 5,
    ShortMap = 6,
    DescriptorLength = 7,
    DescriptorArea = 8,
    NoCheckpoint = 9,
    Incompatible = 10,
    CountDiffers = 11,
    PastContainer = 12,
    BadChecksum = 13,
    WrongKind = 14,
    BadNode = 15,
    Unmapped = 16,
    OutsideBytes = 17,
    WrongLevel = 18,
    BadBitmap = 20,
    Overflow = 21,
    TooManyNodes = 22,
    VolumeUnmapped = 23,
    NotVolume = 24,
    RingIndex = 25,
}

// An object's id and a block's address never interchange: the checkpoint map and, for volumes, the object map turn one into the other.
#[derive(Clone, Copy)]
pub struct ObjectId(pub u64);

#[derive(Clone, Copy)]
pub struct Address(pub u64);

// What a read needs to know of the container: its blocks, and the transaction that the check looks at.
#[derive(Clone, Copy)]
pub struct Container {
    pub size: u64,
    pub count: u64,
    pub xid: u64,
}

// The paper's number of a refusal.
pub fn number_of(why: Refusal) -> u8
    ensures { result ≡ number_of why }
{
    why as u8
}

// The image as it is lent, and the size of its blocks. Once the size is known, every block is read through a reader.
#[derive(Clone, Copy)]
pub struct Reader<'a> {
    pub image: &'a [u8],
    pub size: u64,
}

// Numbers below this have a product below 2^64.
const HALF_WIDE: u64 = 1 << 32;

// A block of an image for any number and size; shorter, or empty, where the image ends before.
fn far_block_in(image: &[u8], size: u64, block: u64) -> &[u8]
    ensures { result.now ≡ block_of (bytes image) size block }
{
    let len = image.len();
    if size == 0 {
        return fields::part_of(image, len, 0);
    }
    if len as u64 / size < block {
        return fields::part_of(image, len, 0);
    }
    let start = block * size;
    fields::part_of(image, start as usize, size as usize)
}

// The block at an address; the division is for numbers that no disk has.
fn block_in(image: &[u8], size: u64, address: Address) -> &[u8]
    ensures { result.now ≡ block_of (bytes image) size address.0 }
{
    let n = address.0;
    if HALF_WIDE <= size {
        return far_block_in(image, size, n);
    }
    if HALF_WIDE <= n {
        return far_block_in(image, size, n);
    }
    let start = n * size;
    fields::part_of(image, start as usize, size as usize)
}

// An object that must verify, in an image whose blocks have a size.
fn object_in(
    image: &[u8],
    size: u64,
    container: Container,
    address: Address,
) -> Result<&[u8], Refusal>
    ensures { SeesIn (bytes image) size result (read_object container address) }
{
    let n = address.0;
    if n == 0 {
        return Err(Refusal::PastContainer);
    }
    if container.count <= n {
        return Err(Refusal::PastContainer);
    }
    let object = block_in(image, size, address);
    if fletcher::verify(object) {
        Ok(object)
    } else {
        Err(Refusal::BadChecksum)
    }
}

impl<'a> Reader<'a> {
    pub fn over(image: &'a [u8], size: u64) -> Reader<'a>
        ensures { (result.image ≡ image.entry) × (result.size ≡ size) }
    {
        Reader { image, size }
    }

    pub fn block(self, address: Address) -> &'a [u8]
        ensures { result.now ≡ block_of self.entry.image.now self.entry.size address.0 }
    {
        block_in(self.image, self.size, address)
    }

    pub fn object(self, container: Container, address: Address) -> Result<&'a [u8], Refusal>
        ensures { SeesIn self.entry.image.now self.entry.size result (read_object container address) }
    {
        object_in(self.image, self.size, container, address)
    }
}

// The block at an address of an image, as a reader gives it.
pub fn block(image: &[u8], size: u64, address: Address) -> &[u8]
    ensures { result.now ≡ block_of (bytes image) size address.0 }
{
    Reader::over(image, size).block(address)
}

// A block as it is; whether it may be read is the same on every image.
pub fn raw_block(image: &[u8], container: Container, address: Address) -> Result<&[u8], Refusal>
    ensures block { Sees image container result (read_raw container address) }
    ensures there { (f : ℕ → List ℕ) → there_as (f address.0) result ≡ run f (read_raw container address) }
{
    if address.0 < container.count {
        Ok(block(image, container.size, address))
    } else {
        Err(Refusal::PastContainer)
    }
}

// An object that must verify, as a reader gives it.
pub fn object_block(image: &[u8], container: Container, address: Address) -> Result<&[u8], Refusal>
    ensures { Sees image container result (read_object container address) }
{
    Reader::over(image, container.size).object(container, address)
}

// A sum that must stay below 2^64.
pub fn add(number: u64, more: u64) -> Result<u64, Refusal>
    ensures { Always (outcome result) (sum number more) }
{
    number.checked_add(more).ok_or(Refusal::Overflow)
}
