// The entries of a free queue, and the nodes that its tree leads to.
#![tactic(auto)]

ghost use Rattle.blocks.specs.clauses.Images.{bytes};
ghost use Rattle.blocks.specs.clauses.Answers.{outcome, Always, Finds};
ghost use Rattle.nodes.specs.Node.{read_node};
ghost use Rattle.nodes.specs.clauses.Answers.{value_in, entry_in};
ghost use Rattle.checkpoint.specs.clauses.InPlace.{mapped_in};
ghost use Rattle.queue.specs.Queue.{run_count, run_of, node_by};

use blocks::{Address, Container, ObjectId, Refusal};
use checkpoint::Checkpoint;
use checkpoint::chain::lookup;
use nodes::entries::field_in;
use nodes::node::read_node;
use nodes::{EntryPlace, Part};

// The address in a key, and the count in a value.
const ADDRESS: usize = 8;

const COUNT: usize = 0;

const GHOST_COUNT: u64 = 1;

// The blocks that an entry names.
#[derive(Clone, Copy)]
pub struct Run {
    pub start: u64,
    pub count: u64,
}

// How many blocks a value counts.
fn run_count(node: &[u8], value: Option<Part>) -> Result<u64, Refusal>
    ensures { Always (outcome result) (run_count (value_in (bytes node) value)) }
{
    match value {
        None => Ok(GHOST_COUNT),
        Some(p) => field_in(node, p, COUNT),
    }
}

pub fn run_of(node: &[u8], place: EntryPlace) -> Result<Run, Refusal>
    ensures { Always (outcome result) (run_of (entry_in (bytes node) place)) }
{
    let start = field_in(node, place.key, ADDRESS)?;
    let count = run_count(node, place.value)?;
    Ok(Run { start, count })
}

// The node at an address, if it may be read.
fn node_at(image: &[u8], container: Container, address: Address) -> Result<Address, Refusal>
    ensures { Finds image container result (λ f. read_node container address) }
{
    read_node(image, container, address)?;
    Ok(address)
}

// A child named by its id, which the checkpoint's map must have.
pub fn node_by(image: &[u8], checkpoint: Checkpoint, id: ObjectId) -> Result<Address, Refusal>
    ensures { Finds image checkpoint.container result (λ f. node_by checkpoint.container (mapped_in f checkpoint id)) }
{
    let mapping = lookup(image, checkpoint, id).ok_or(Refusal::Unmapped)?;
    node_at(image, checkpoint.container, mapping.address)
}
