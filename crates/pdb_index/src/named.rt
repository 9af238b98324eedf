//! What an index that is well made names: each thing is there.

ghost use Rattle.std.specs.Prelude.{◌≡◌, ◌+◌, ◌*◌, ◌/◌, ◌-◌, ◌^◌, ◌<◌, ◌≤◌, ◌↔◌, length, IsTrue};
ghost use Rattle.pdb_index.specs.IndexLayout.{end_of, word_at};
ghost use Rattle.pdb_index.specs.WellMade.{HasNames, HasNodes, HasRunNodes, HasSections, HasSome, IsNode, NamesWhatIsThere};

use crate::cells::{field, word};
use crate::index::Index;
use crate::layout::Table;
use crate::nodes::node_at;

/// Whether each segment's section is one of an image, or none.
fn has_sections(index: &Index<'_>) -> bool
    ensures { IsTrue result ↔ HasSections index.now.bytes.now index.now.layout }
{
    for segment in 0..index.layout.segments.rows as u32 {
        if word(index.bytes, index.layout.segments, segment, 4) > 65535 {
            return false;
        }
    }
    true
}

/// Whether the node of each run is there.
fn has_run_nodes(index: &Index<'_>) -> bool
    ensures { IsTrue result ↔ HasRunNodes index.now.bytes.now index.now.layout }
{
    let values = index.layout.values;
    for run in 0..values.rows as u32 {
        let node = field(index.bytes, values, run, 0, values.width) / 2;
        if index.layout.nodes.rows <= node as usize {
            return false;
        }
    }
    true
}

/// Whether a node's function and file are there, and the node outside of it.
fn is_node(index: &Index<'_>, number: u32) -> bool
    requires { number < index.now.layout.nodes.rows }
    ensures { IsTrue result ↔ IsNode index.now.bytes.now index.now.layout number }
{
    let node = node_at(index, number);
    node.outer <= number
        && (node.function as usize) < index.layout.functions.rows
        && (node.file as usize) < index.layout.files.rows
}

/// The same of each node.
fn has_nodes(index: &Index<'_>) -> bool
    ensures { IsTrue result ↔ HasNodes index.now.bytes.now index.now.layout }
{
    for number in 0..index.layout.nodes.rows as u32 {
        if !is_node(index, number) {
            return false;
        }
    }
    true
}

/// Whether the name of each row is among the names.
fn has_names(index: &Index<'_>, table: Table) -> bool
    requires rows { table.rows < 2 ^ 32 }
    requires inside { end_of table ≤ length index.now.bytes.now }
    requires width { (8 ≤ table.width) × (table.width ≤ 16) }
    ensures { IsTrue result ↔ HasNames index.now.bytes.now index.now.layout (word_at index.now.bytes.now table) table.rows }
{
    for row in 0..table.rows as u32 {
        let place = word(index.bytes, table, row, 0) as usize;
        let size = word(index.bytes, table, row, 4) as usize;
        if index.layout.names.rows < place + size {
            return false;
        }
    }
    true
}

/// Whether there is a segment, a node, a function and a file.
fn has_some(index: &Index<'_>) -> bool
    ensures { IsTrue result ↔ HasSome index.now.layout }
{
    index.layout.segments.rows > 0
        && index.layout.nodes.rows > 0
        && index.layout.functions.rows > 0
        && index.layout.files.rows > 0
}

/// Whether all that is named is there.
pub(crate) fn names_what_is_there(index: &Index<'_>) -> bool
    ensures { IsTrue result ↔ NamesWhatIsThere index.now.bytes.now index.now.layout }
{
    has_some(index)
        && has_sections(index)
        && has_run_nodes(index)
        && has_nodes(index)
        && has_names(index, index.layout.functions)
        && has_names(index, index.layout.files)
}
