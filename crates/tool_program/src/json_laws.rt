//! Laws of the JSON that is written.

ghost use Rattle.std.specs.Prelude.{ℕ, List};
ghost use Rattle.std.specs.List.{AllByRecursion};
ghost use Rattle.pdb_resolve.specs.Frames.{Frame};
ghost use Rattle.tool_program.specs.ReadBack.{ReadsBack};
ghost use Rattle.tool_search.specs.FrameObjects.{HasLine, asked_value, unasked_value};

/// The object of an address is one JSON value: a reader of JSON gets back the argument and the frames.
pub fn an_address_reads_back()
    ensures { (word : List ℕ) (frames : List Frame) → AllByRecursion HasLine frames → ReadsBack (asked_value word frames) }
{}

/// The object of a line that is no address is one JSON value.
pub fn another_line_reads_back()
    ensures { (line : List ℕ) → ReadsBack (unasked_value line) }
{}
