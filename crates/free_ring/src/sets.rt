// Sets of indices, a bit for each: an index is asked for in one step, however many there are.
ghost use Rattle.std.specs.Prelude.{[], ◌*◌, ◌<◌, length};
ghost use Rattle.pool.specs.clauses.Load.{indices_on};
ghost use Rattle.free_ring.specs.clauses.Sets.{Put, SetOf};

use blocks::Container;
use fields::BYTE_BITS;
use manager::lists;
use pool::PoolPlace;

// Puts an index into a set.
pub(crate) fn set_bit(bits: &mut [u8], index: u64)
    requires { index < length bits.old * 8 }
    ensures { Put bits.old index bits.new }
{
    bits[(index / BYTE_BITS) as usize] |= 1 << (index % BYTE_BITS);
}

// The set of all indices in use, in bits that are clear.
pub(crate) fn in_use(image: &[u8], container: Container, place: PoolPlace, bits: &mut [u8])
    requires { SetOf bits.old [] }
    ensures { SetOf bits.new (indices_on image container place) }
{
    for k in 0..place.bitmaps {
        let index = lists::index_at(image, container, place.manager, place.indices, k);
        set_bit(bits, index);
    }
}
