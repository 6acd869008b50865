// The space check of an image on standard input, as a listing on standard output. What follows the first 65,536 bytes is left unread.
#![tactic(auto)]

ghost use Rattle.listing.specs.Printed.{IsPrefixLen, Prints};

use listing_text::listing::MOST_BYTES;
use std::io;
use std::io::{Read, Write};

// The most bytes that are read of an image.
const MOST_IMAGE: u64 = 65536;

// An image of 65,536 bytes has no more blocks: each has 4,096 bytes at least.
const MAP_BYTES: usize = 16;

// The listing of an image, from a buffer's start on; its length. `IsPrefixLen` follows from it, and is what `&text[..end]` asks for.
fn print_to(text: &mut [u8; MOST_BYTES], image: &[u8]) -> usize
    ensures prints { Prints text result image }
    ensures prefix_len { IsPrefixLen result text.new }
{
    let mut map = [0u8; MAP_BYTES];
    let answer = space_check::passes::check(image, &mut map);
    listing_text::listing::put_answer(text, answer)
}

fn main(rt: HostRuntime) -> io::Result<()> {
    let mut image = Vec::new(rt.alloc());
    rt.stdin().take(MOST_IMAGE).read_to_end(&mut image)?;
    let mut text = [0u8; MOST_BYTES];
    let end = print_to(&mut text, &image);
    rt.stdout().write_all(&text[..end])
}
