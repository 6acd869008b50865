// The whole node.
ghost use Rattle.std.specs.Prelude.{◌≡◌, ◌≤◌, length, drop};
ghost use Rattle.blocks.specs.clauses.Images.{bytes, bytes_lent};
ghost use Rattle.node_build.specs.Build.{sealed};
ghost use Rattle.node_build.specs.Asked.{request_of, made, build_from, build_node};
ghost use Rattle.node_build.specs.clauses.Regions.{handed, handed_by, Ready, Weighed, FillsAll};

use crate::{
    Asked, BuildError, CHECKSUM, Measured, NodeHeader, Plan, Sizes, layout, regions, request,
};
use checkpoint::block_zero;

// Seal last, over the finished node.
fn seal(node: &mut [u8])
    requires { 8 ≤ length node.old }
    ensures { node.new ≡ sealed (drop 8 (bytes_lent node)) }
{
    let sum = fletcher::checksum(node);
    writers::put(node, 0, CHECKSUM, sum);
}

// Everything after the checksum, region by region: no byte of the lent node is left.
fn fill(node: &mut [u8], asked: Asked, plan: Plan) -> usize
    requires { Ready (length node.old) (handed_by asked) plan }
    ensures { FillsAll node (handed_by asked.entry) result }
{
    let table = regions::put_headers(
        node,
        asked.header,
        asked.sizes,
        (asked.lengths.len() / 2) as u64,
        plan,
    );
    let end = regions::put_entries(node, table, asked.sizes, asked.parts, asked.lengths, plan);
    regions::put_description(node, end, asked.header.root, asked.info)
}

// A request whose slices are a list of entries.
fn build_formed(
    node: &mut [u8],
    asked: Asked,
    packed: bool,
    measured: Measured,
) -> Result<(), BuildError>
    requires { Weighed packed (handed_by asked) measured }
    ensures { made result node.new ≡ build_from (bytes_lent node) (request_of (handed_by asked.entry)) }
{
    let size = node.len() as u64;
    if !block_zero::size_allowed(size) {
        return Err(BuildError::NoRoom);
    }
    let count = (asked.lengths.len() / 2) as u64;
    let plan = layout::lay_out(size, asked.header, asked.sizes, packed, count, measured);
    if !layout::fits(count, plan) {
        return Err(BuildError::NoRoom);
    }
    fill(node, asked, plan);
    seal(node);
    Ok(())
}

// A node of the lent slice's size, or a refusal and the slice as it was.
pub fn build(
    node: &mut [u8],
    header: NodeHeader,
    sizes: Sizes,
    info: &[u8],
    parts: &[u8],
    lengths: &[u64],
) -> Result<(), BuildError>
    ensures { made result node.new ≡ build_node (bytes_lent node) (handed header sizes (bytes info) (bytes parts) (bytes lengths)) }
{
    let asked = Asked {
        header,
        sizes,
        info,
        parts,
        lengths,
    };
    let packed = layout::is_packed(info);
    let measured = request::measure_all(packed, asked).ok_or(BuildError::OutsideBytes)?;
    build_formed(node, asked, packed, measured)
}
