//! How deep the stacks of an index are.

ghost use Rattle.std.specs.Prelude.{◌≡◌, ◌+◌, ◌*◌, ◌-◌, ◌<◌, ◌≤◌, ◌↔◌, length, IsTrue, IfOk};
ghost use Rattle.pdb_index.specs.WellMade.{AreDepths, AreShallow, HasNodes, IsDepth, IsNode};

use crate::index::Index;
use crate::nodes::node_at;
use std::alloc::{AllocError, Global};

/// How many frames the stack of a node has, by those of the nodes before it.
#[tactic(auto, using(crate::proofs::DepthSteps::outermost, crate::proofs::DepthSteps::deeper))]
fn depth_of(index: &Index<'_>, number: u32, depths: &[u32]) -> u64
    requires there { number < index.now.layout.nodes.rows }
    requires node { IsNode index.now.bytes.now index.now.layout number }
    requires depths { AreDepths index.now.bytes.now index.now.layout depths.now }
    requires before { number ≡ length depths.now }
    ensures { IsDepth index.now.bytes.now index.now.layout number result }
{
    let outer = node_at(index, number).outer;
    if outer == 0 {
        1
    } else {
        u64::from(depths[(number - outer) as usize]) + 1
    }
}

/// Whether no stack has more frames than the header says. It takes memory once, four bytes a node.
pub(crate) fn are_shallow(alloc: Global, index: &Index<'_>) -> Result<bool, AllocError>
    requires { HasNodes index.now.bytes.now index.now.layout }
    ensures { IfOk result (λ shallow. IsTrue shallow ↔ AreShallow index.now.bytes.now index.now.layout) }
{
    let mut depths = Vec::with_capacity(alloc, index.layout.nodes.rows)?;
    for number in 0..index.layout.nodes.rows as u32 {
        let depth = depth_of(index, number, &depths);
        if depth > u64::from(index.layout.deepest) {
            return Ok(false);
        }
        depths.push(depth as u32)?;
    }
    Ok(true)
}
