// Texts by their numbers.
ghost use Rattle.std.specs.Prelude.{◌≡◌, map};
ghost use Rattle.listing_text.specs.Lines.{kind_name, problem_format};
ghost use Rattle.listing_text.specs.clauses.Tables.{text_of};

const KIND_NAMES: [&[u8]; 12] = [
    b"",
    b"container superblock",
    b"checkpoint descriptor area",
    b"checkpoint data area",
    b"internal pool",
    b"internal-pool bitmap ring",
    b"object map",
    b"object map node",
    b"volume superblock",
    b"free queue (pending release)",
    b"extent-reference tree node",
    b"snapshot tree node",
];

const PROBLEM_FORMATS: [&[u8]; 6] = [
    b"",
    b"  chunk-info block 0x@ is free in the internal-pool bitmap",
    b"  chunk bitmap 0x@ is free in the internal-pool bitmap",
    b"  internal-pool block 0x@ used twice",
    b"  queued internal-pool block 0x@ is already free",
    b"  internal-pool block 0x@ queued but still in use",
];

// The text of a number, none where the table has no such number.
fn text_at(texts: &[&'static [u8]], number: usize) -> &'static [u8]
    ensures { result.now ≡ text_of (map (λ t. t.now) texts.now) number }
{
    texts.get(number).copied().unwrap_or(b"")
}

// Other numbers have no name; the check gives none.
pub(crate) fn kind_name(kind: u64) -> &'static [u8]
    ensures { result.now ≡ kind_name kind }
{
    text_at(&KIND_NAMES, kind as usize)
}

// The Rust's problems.
pub(crate) fn problem_format(kind: u8) -> &'static [u8]
    ensures { result.now ≡ problem_format kind }
{
    text_at(&PROBLEM_FORMATS, kind as usize)
}
