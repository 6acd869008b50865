// The space check, and the builder of nodes, for C and Rust.
#![tactic(auto)]

ghost use Rattle.std.specs.Prelude.{◌≡◌};
ghost use Rattle.space_check.specs.Check.{check};
ghost use Rattle.interface.specs.Figures.{written};
ghost use Rattle.interface.specs.Node.{header, sizes_of};
ghost use Rattle.interface.specs.clauses.Building.{Builds};

use figures::write_figures;
use node_build::build::build;
use node_build::{NodeHeader, Sizes, built_number};

mod figures;

// The pass over an image: the block map as it leaves it, and its answer as numbers.
#[unsafe(no_mangle)]
pub extern "C" fn space_check(image: &[u8], map: &mut [u8], figures: &mut [u64])
    ensures map_after { map.new ≡ (check image.now map.old).map }
    ensures figures_after { figures.new ≡ written (check image.now map.old).answer figures.old }
{
    let answer = space_check::passes::check(image, map);
    write_figures(answer, figures);
}

// The sizes that a caller states, which are looked at only where they are fixed.
fn sizes_of(fixed: bool, key: u32, value: u32) -> Sizes
    ensures { result ≡ sizes_of fixed key value }
{
    if fixed {
        Sizes::Fixed(key, value)
    } else {
        Sizes::Variable
    }
}

// A node of a tree, built into the lent slice, whose length is its size; or a refusal's number, and the slice as it was.
#[unsafe(no_mangle)]
pub extern "C" fn build_node(
    node: &mut [u8],
    oid: u64,
    xid: u64,
    obj_type: u32,
    subtype: u32,
    level: u16,
    root: bool,
    fixed: bool,
    key: u32,
    value: u32,
    info: &[u8],
    parts: &[u8],
    lengths: &[u64],
) -> u32
    ensures { Builds node result (header oid xid obj_type subtype level root) (sizes_of fixed key value) info parts lengths }
{
    let header = NodeHeader {
        oid,
        xid,
        obj_type,
        subtype,
        level,
        root,
    };
    let sizes = sizes_of(fixed, key, value);
    let built = build(node, header, sizes, info, parts, lengths);
    built_number(built)
}
