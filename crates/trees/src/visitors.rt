// What scans do at the entries of their trees: one type for each kind of tree.
ghost use Rattle.std.specs.Prelude.{◌≡◌, true};
ghost use Rattle.blocks.specs.clauses.Images.{blocks_in};
ghost use Rattle.blocks.specs.clauses.Answers.{Finds};
ghost use Rattle.checkpoint.specs.declared.Checkpoint.{Checkpoint};
ghost use Rattle.trees.specs.clauses.Read.{NodeRead};
ghost use Rattle.trees.specs.clauses.Visits.{Plan, AsRead, pool_queue_plan, main_queue_plan, mappings_plan};
ghost use Rattle.trees.specs.clauses.Answers.{Visits, VisitsUnlogged, entry_visit};
ghost use Rattle.nodes.proofs.Laws.{node_given};
ghost use mathlib.Core.Bool.{true≢false};
ghost use mathlib.Core.Path.{sym};

use audit::Audit;
use blocks::{Address, ObjectId, Refusal};
use checkpoint::Checkpoint;
use nodes::EntryPlace;
use pool::PoolPlace;
use report::OverlapLog;

pub(crate) trait Visitor: Copy {
    // What a scan counts.
    type Figures: Copy;

    ghost plan: { Self → Checkpoint → Plan Self.Figures };

    // What an entry is for.
    fn visit(
        self,
        image: &[u8],
        map: &mut [u8],
        checkpoint: Checkpoint,
        node: &[u8],
        entry: EntryPlace,
        figures: Self::Figures,
    ) -> Result<Self::Figures, Refusal>
        ensures { Visits image map checkpoint figures result (entry_visit (plan self checkpoint) node entry) };

    // What an entry is for, where nothing is logged of it: then it is done, and otherwise nothing is.
    fn visit_unlogged(
        self,
        image: &[u8],
        map: &mut [u8],
        checkpoint: Checkpoint,
        node: &[u8],
        entry: EntryPlace,
    ) -> bool
        ensures { VisitsUnlogged image map checkpoint (plan self checkpoint) node entry result };

    // The node that a child's pointer names.
    fn child(self, image: &[u8], checkpoint: Checkpoint, pointer: u64) -> Result<Address, Refusal>
        requires { (plan self checkpoint).walked ≡ true → NodeRead (blocks_in image checkpoint.container) checkpoint.container pointer }
        ensures { Finds image checkpoint.container result (λ f. (plan self checkpoint).child f pointer) };

    // A child that was read before is the block that its pointer names.
    ghost as_read: { (v : Self) (k : Checkpoint) → AsRead (plan v k) };
}

#[derive(Clone, Copy)]
pub(crate) struct PoolQueue(pub PoolPlace);

impl Visitor for PoolQueue {
    type Figures = Audit;

    ghost plan = { λ v k. pool_queue_plan v.0 k };

    fn visit(
        self,
        image: &[u8],
        map: &mut [u8],
        checkpoint: Checkpoint,
        node: &[u8],
        entry: EntryPlace,
        audit: Audit,
    ) -> Result<Audit, Refusal> {
        let container = checkpoint.container;
        audit::queued::audit_queued(image, map, node, container, self.0, entry, audit)
    }

    fn visit_unlogged(
        self,
        image: &[u8],
        map: &mut [u8],
        checkpoint: Checkpoint,
        node: &[u8],
        entry: EntryPlace,
    ) -> bool {
        audit::unlogged::audit_unlogged(image, map, node, checkpoint.container, self.0, entry)
    }

    fn child(self, image: &[u8], checkpoint: Checkpoint, pointer: u64) -> Result<Address, Refusal> {
        queue::node_by(image, checkpoint, ObjectId(pointer))
    }

    ghost as_read = { λ v k f n m e q. absurd (true≢false (sym e)) };
}

#[derive(Clone, Copy)]
pub(crate) struct MainQueue;

impl Visitor for MainQueue {
    type Figures = OverlapLog;

    ghost plan = { λ v k. main_queue_plan k };

    fn visit(
        self,
        image: &[u8],
        map: &mut [u8],
        checkpoint: Checkpoint,
        node: &[u8],
        entry: EntryPlace,
        log: OverlapLog,
    ) -> Result<OverlapLog, Refusal> {
        claims::claim_queued(map, node, checkpoint.container, entry, log)
    }

    fn visit_unlogged(
        self,
        image: &[u8],
        map: &mut [u8],
        checkpoint: Checkpoint,
        node: &[u8],
        entry: EntryPlace,
    ) -> bool {
        claims::unlogged::claim_queued(map, node, checkpoint.container, entry)
    }

    fn child(self, image: &[u8], checkpoint: Checkpoint, pointer: u64) -> Result<Address, Refusal> {
        queue::node_by(image, checkpoint, ObjectId(pointer))
    }

    ghost as_read = { λ v k f n m e q. absurd (true≢false (sym e)) };
}

// The object map's tree was walked before it is scanned: its nodes need no reading.
#[derive(Clone, Copy)]
pub(crate) struct Mappings;

impl Visitor for Mappings {
    type Figures = OverlapLog;

    ghost plan = { λ v k. mappings_plan k };

    fn visit(
        self,
        image: &[u8],
        map: &mut [u8],
        checkpoint: Checkpoint,
        node: &[u8],
        entry: EntryPlace,
        log: OverlapLog,
    ) -> Result<OverlapLog, Refusal> {
        claims::claim_mapping(map, node, checkpoint.container, entry, log)
    }

    fn visit_unlogged(
        self,
        image: &[u8],
        map: &mut [u8],
        checkpoint: Checkpoint,
        node: &[u8],
        entry: EntryPlace,
    ) -> bool {
        claims::unlogged::claim_mapping(map, node, checkpoint.container, entry)
    }

    fn child(self, image: &[u8], checkpoint: Checkpoint, pointer: u64) -> Result<Address, Refusal> {
        Ok(Address(pointer))
    }

    ghost as_read = { λ v k f n m e q. node_given f k.container (record { 0 = n }) m q };
}
