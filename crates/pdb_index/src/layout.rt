//! Where the tables of an index stand.

ghost use Rattle.std.specs.Prelude.{◌≡◌, ◌+◌, ◌*◌, ◌^◌, ◌<◌, ◌≤◌, length};
ghost use Rattle.pdb_index.specs.IndexLayout.{end_of, fields_of, HasOtherTables, HasRows, HasWordTables, IsInside, IsNear, layout_of, node_width as node_width_of, section_width as section_width_of, table_behind};

use pdb_base::little_endian::{u8_at, u32_at};

/// A table: rows of equally many bytes, one behind another.
#[derive(Clone, Copy, Debug)]
pub struct Table {
    /// The offset of its first row.
    pub base: usize,
    /// How many rows it has.
    pub rows: usize,
    /// How many bytes a row has.
    pub width: usize,
}

/// How many bytes each field of a node has, in the order in which they stand.
#[derive(Clone, Copy, Debug)]
pub struct NodeFields {
    /// How far the node outside stands before it.
    pub outer: usize,
    /// The number of its function.
    pub function: usize,
    /// The number of its file.
    pub file: usize,
    /// The line.
    pub line: usize,
    /// The column.
    pub column: usize,
}

/// The tables in the order in which they stand, and what else look-ups need of the header.
#[derive(Clone, Copy, Debug)]
pub struct Layout {
    /// Ranges of addresses.
    pub segments: Table,
    /// Sections, and a last row behind them.
    pub sections: Table,
    /// Numbers of runs, a hint of where those of an offset stand.
    pub steps: Table,
    /// The offsets at which runs begin.
    pub starts: Table,
    /// The values of runs.
    pub values: Table,
    /// Nodes of the tree of frames.
    pub nodes: Table,
    /// Functions.
    pub functions: Table,
    /// Files.
    pub files: Table,
    /// The bytes of names.
    pub names: Table,
    /// The widths of the nodes' fields.
    pub fields: NodeFields,
    /// By how many bits an offset is shifted to find its row among the steps.
    pub shift: u32,
    /// How many frames the deepest stack has.
    pub deepest: u32,
}

impl Table {
    /// The offset behind its last row.
    pub(crate) fn end(self) -> usize
        requires { IsNear self }
        ensures end { result ≡ end_of self }
        ensures near { result ≤ self.base + 2 ^ 43 }
    {
        self.base + self.width * self.rows
    }

    /// The table behind this one.
    fn then(self, rows: usize, width: usize) -> Table
        requires { IsNear self }
        ensures table { result ≡ table_behind self rows width }
        ensures near { result.base ≤ self.base + 2 ^ 43 }
    {
        Table {
            base: self.end(),
            rows,
            width,
        }
    }
}

/// The widths of the nodes' fields.
fn node_fields(bytes: &[u8]) -> NodeFields
    requires { 96 ≤ length bytes.now }
    ensures fields { result ≡ fields_of bytes.now }
    ensures small { (result.outer < 256) × (result.function < 256) × (result.file < 256) × (result.line < 256) × (result.column < 256) }
{
    NodeFields {
        outer: usize::from(u8_at(bytes, 81)),
        function: usize::from(u8_at(bytes, 82)),
        file: usize::from(u8_at(bytes, 83)),
        line: usize::from(u8_at(bytes, 84)),
        column: usize::from(u8_at(bytes, 85)),
    }
}

/// How many bytes a node has.
fn node_width(fields: NodeFields) -> usize
    requires { (fields.outer < 256) × (fields.function < 256) × (fields.file < 256) × (fields.line < 256) × (fields.column < 256) }
    ensures width { result ≡ node_width_of fields }
    ensures small { result < 2 ^ 11 }
{
    fields.outer + fields.function + fields.file + fields.line + fields.column
}

/// How many bytes a row of sections has: with steps, it also says where those of the section begin.
fn section_width(bytes: &[u8]) -> usize
    requires { 96 ≤ length bytes.now }
    ensures width { result ≡ section_width_of bytes.now }
    ensures small { result ≤ 12 }
{
    if u32_at(bytes, 88) == 0 { 8 } else { 12 }
}

/// The tables of an index by its header of 96 bytes.
#[tactic(auto, unfolding(crate::specs::IndexLayout::layout_of))]
pub(crate) fn read_layout(bytes: &[u8]) -> Layout
    requires { 96 ≤ length bytes.now }
    ensures layout { result ≡ layout_of bytes.now }
    ensures words { HasWordTables result }
    ensures others { HasOtherTables result }
    ensures rows { HasRows result }
    ensures inside { IsInside result (end_of result.names) }
    ensures near { IsNear result.names }
{
    let fields = node_fields(bytes);
    let runs = u32_at(bytes, 48) as usize;
    let segments = Table {
        base: 96,
        rows: u32_at(bytes, 40) as usize,
        width: 12,
    };
    let sections = segments.then(u32_at(bytes, 44) as usize + 1, section_width(bytes));
    let steps = sections.then(u32_at(bytes, 88) as usize, 4);
    let starts = steps.then(runs, 4);
    let values = starts.then(runs, usize::from(u8_at(bytes, 80)));
    let nodes = values.then(u32_at(bytes, 52) as usize, node_width(fields));
    let functions = nodes.then(u32_at(bytes, 56) as usize, 16);
    let files = functions.then(u32_at(bytes, 60) as usize, 8);
    let names = files.then(u32_at(bytes, 64) as usize, 1);
    Layout {
        segments,
        sections,
        steps,
        starts,
        values,
        nodes,
        functions,
        files,
        names,
        fields,
        shift: u32::from(u8_at(bytes, 86)),
        deepest: u32_at(bytes, 68),
    }
}
