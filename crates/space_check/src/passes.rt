// The whole pass: block 0, the superblock that is taken, and what follows.
ghost use Rattle.std.specs.Prelude.{◌≡◌, ◌≤◌, length};
ghost use Rattle.blocks.specs.clauses.Images.{bytes, Holds, bytes_lent};
ghost use Rattle.space_check.specs.Check.{pass, check as check_of};
ghost use Rattle.space_check.specs.clauses.Stages.{SettlesLate, Settles, rest_of, result_of, Ready, IsTakenAt};

use crate::reports::body;
use blocks::Address;
use checkpoint::{Checkpoint, Geometry};
use report::Answer;

// What follows once the superblock is taken: from here on a refusal zeroes each block's byte.
fn check_body(image: &[u8], map: &mut [u8], checkpoint: Checkpoint) -> Answer
    requires { Holds image.now checkpoint.container × (checkpoint.container.count ≤ length map.old) }
    ensures { SettlesLate image map checkpoint result }
{
    let container = checkpoint.container;
    block_map::clear(map, container.count);
    match body(image, map, checkpoint) {
        Err(why) => {
            block_map::clear(map, container.count);
            report::answers::refusal(why)
        }
        Ok(report) => report::answers::reported(report),
    }
}

// Refusals 10 and 11, then the body, for the superblock at an address.
fn check_taken(image: &[u8], map: &mut [u8], geometry: Geometry, superblock: Address) -> Answer
    requires { Ready image.now map.old geometry × IsTakenAt image geometry superblock }
    ensures { Settles image map geometry result (rest_of geometry superblock) }
{
    let sb = blocks::block(image, geometry.size, superblock);
    match checkpoint::choice::admit(geometry, sb) {
        Err(why) => report::answers::refusal(why),
        Ok(container) => {
            let checkpoint = Checkpoint {
                container,
                geometry,
                superblock,
            };
            check_body(image, map, checkpoint)
        }
    }
}

// A pass over the container that block 0 names.
fn check_in(image: &[u8], map: &mut [u8], geometry: Geometry) -> Answer
    requires { Ready image.now map.old geometry }
    ensures { Settles image map geometry result (λ f. pass geometry) }
{
    match checkpoint::choice::take_superblock(image, geometry) {
        Err(why) => report::answers::refusal(why),
        Ok(superblock) => check_taken(image, map, geometry, superblock),
    }
}

// The answer on an image, and the block map that is left: a report, or the first refusal.
pub fn check(image: &[u8], map: &mut [u8]) -> Answer
    ensures { result_of result map.new ≡ check_of (bytes image) (bytes_lent map) }
{
    match checkpoint::block_zero::geometry(image, map.len()) {
        Err(why) => report::answers::refusal(why),
        Ok(geometry) => check_in(image, map, geometry),
    }
}
