//! Nodes: a frame, and the node of the frame outside of it.

ghost use Rattle.std.specs.Prelude.{◌≡◌, ◌+◌, ◌*◌, ◌<◌, ◌≤◌, length, IfSome};
ghost use Rattle.std.specs.Option.{option_map};
ghost use Rattle.pdb_index.specs.IndexLayout.{end_of, word_at};
ghost use Rattle.pdb_index.specs.NodeFrames.{file_of, frame_of, function_of, name_of as name_there, node_of, nothing};
ghost use Rattle.pdb_index.specs.NodeViews.{named, told};

use crate::cells::{field, word};
use crate::index::Index;
use crate::layout::Table;

/// A frame of a stack.
#[derive(Clone, Copy, Debug, PartialEq, Eq)]
pub struct Frame<'a> {
    /// The name of the function with its scope, if it is known. The bytes may have line ends.
    pub name: Option<&'a [u8]>,
    /// The offset of the record that names the function, in its list in the PDB file, if one does.
    pub start: Option<u32>,
    /// The name of the source file, if it is known.
    pub file: Option<&'a [u8]>,
    /// The line, or 0.
    pub line: u32,
    /// The column, or 0.
    pub column: u32,
}

/// A row of nodes.
#[derive(Clone, Copy, Debug)]
pub struct Node {
    /// How far the node outside stands before it; 0: it is the outermost.
    pub outer: u32,
    /// The number of its function.
    pub function: u32,
    /// The number of its file.
    pub file: u32,
    /// The line.
    pub line: u32,
    /// The column.
    pub column: u32,
}

/// A function's name and start.
#[derive(Clone, Copy, Debug)]
pub struct Function<'a> {
    /// Its name.
    pub name: Option<&'a [u8]>,
    /// The offset of the record that names it.
    pub start: Option<u32>,
}

impl Frame<'_> {
    /// The frame that tells nothing.
    pub(crate) fn unknown() -> Self
        ensures { told result ≡ nothing }
    {
        Frame {
            name: None,
            start: None,
            file: None,
            line: 0,
            column: 0,
        }
    }
}

/// The node of this number, which there is.
#[tactic(auto, unfolding(crate::specs::NodeFrames::node_of))]
pub(crate) fn node_at(index: &Index<'_>, number: u32) -> Node
    requires { number < index.now.layout.nodes.rows }
    ensures { result ≡ node_of index.now.bytes.now index.now.layout number }
{
    let nodes = index.layout.nodes;
    let width = index.layout.fields;
    let file = width.outer + width.function;
    let line = file + width.file;
    let column = line + width.line;
    Node {
        outer: field(index.bytes, nodes, number, 0, width.outer),
        function: field(index.bytes, nodes, number, width.outer, width.function),
        file: field(index.bytes, nodes, number, file, width.file),
        line: field(index.bytes, nodes, number, line, width.line),
        column: field(index.bytes, nodes, number, column, width.column),
    }
}

/// The name that a row of functions or of files begins with; `None` where it isn't among the names.
#[tactic(auto, unfolding(crate::specs::NodeFrames::name_of))]
fn name_of<'a>(index: &Index<'a>, table: Table, row: u32) -> Option<&'a [u8]>
    requires row { row < table.rows }
    requires inside { end_of table ≤ length index.now.bytes.now }
    requires width { (8 ≤ table.width) × (table.width ≤ 16) }
    ensures { option_map (λ x. x.now) result ≡ name_there index.now.bytes.now index.now.layout table row }
{
    let names = index.layout.names;
    let place = word(index.bytes, table, row, 0) as usize;
    let size = word(index.bytes, table, row, 4) as usize;
    if names.rows < place + size {
        return None;
    }
    let start = names.base + place;
    Some(&index.bytes[start..start + size])
}

/// The function of this number, 0 for none; `None` where the index is damaged.
#[tactic(auto, unfolding(crate::specs::NodeFrames::function_of))]
fn function_at<'a>(index: &Index<'a>, number: u32) -> Option<Function<'a>>
    ensures { option_map named result ≡ function_of index.now.bytes.now index.now.layout number }
{
    let functions = index.layout.functions;
    if functions.rows <= number as usize {
        return None;
    }
    if number == 0 {
        return Some(Function {
            name: None,
            start: None,
        });
    }
    let name = name_of(index, functions, number)?;
    let start = word(index.bytes, functions, number, 8);
    let has_start = word(index.bytes, functions, number, 12) != 0;
    Some(Function {
        name: Some(name),
        start: has_start.then_some(start),
    })
}

/// The name of the file of this number, 0 for none; `None` where the index is damaged.
#[tactic(auto, unfolding(crate::specs::NodeFrames::file_of))]
fn file_at<'a>(index: &Index<'a>, number: u32) -> Option<Option<&'a [u8]>>
    ensures { option_map (option_map (λ x. x.now)) result ≡ file_of index.now.bytes.now index.now.layout number }
{
    let files = index.layout.files;
    if files.rows <= number as usize {
        return None;
    }
    if number == 0 {
        return Some(None);
    }
    let name = name_of(index, files, number)?;
    Some(Some(name))
}

/// The frame of a node, and how far the node outside stands before it, 0 for none; `None` where the index is damaged.
#[tactic(auto, unfolding(crate::specs::NodeFrames::frame_of))]
pub(crate) fn frame_at<'a>(index: &Index<'a>, number: u32) -> Option<(Frame<'a>, u32)>
    ensures frame { option_map (λ x. (told x.0, x.1)) result ≡ frame_of index.now.bytes.now index.now.layout number }
    ensures outer { IfSome result (λ x. x.1 ≤ number) }
{
    if index.layout.nodes.rows <= number as usize {
        return None;
    }
    let node = node_at(index, number);
    if node.outer > number {
        return None;
    }
    let function = function_at(index, node.function)?;
    let file = file_at(index, node.file)?;
    let frame = Frame {
        name: function.name,
        start: function.start,
        file,
        line: node.line,
        column: node.column,
    };
    Some((frame, node.outer))
}
