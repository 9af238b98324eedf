//! Laws of the definitions.

ghost use Rattle.std.specs.Prelude.{◌≤◌, ◌<◌, ℕ, List, All, Option, count_by, IsSome};
ghost use Rattle.std.specs.Option.{is_some};
ghost use Rattle.pdb_index.specs.declared.layout.Layout.{Layout};
ghost use Rattle.pdb_index.specs.declared.runs.Run.{Run};
ghost use Rattle.pdb_index.specs.declared.segments.Place.{Place};
ghost use Rattle.pdb_index.specs.IndexLayout.{layout_of};
ghost use Rattle.pdb_index.specs.NodeFrames.{stack_of};
ghost use Rattle.pdb_index.specs.Searches.{Finds, FindsLast, Rises};
ghost use Rattle.pdb_index.specs.SectionRuns.{IsRunAt, run_of};
ghost use Rattle.pdb_index.specs.Segments.{IsPlaceOf};
ghost use Rattle.pdb_index.specs.WellMade.{IsWellMade};

/// Where rows rise, a search finds the last of them that begins at or before a number, and none only where all begin behind
/// it.
pub fn searches_find_the_last()
    ensures { (key : ℕ → ℕ) (first behind at : ℕ) (row : Option ℕ) →
        Rises key first behind → Finds key first behind at row → FindsLast key first behind at row }
{}

/// A stack has at most so many frames.
pub fn stacks_have_few_frames()
    ensures { (b : List ℕ) (t : Layout) (n k : ℕ) → count_by is_some (stack_of b t n k) ≤ n }
{}

/// In an index that is well made each address has a place or none, each place a run or none, and no frame of a run is damaged.
pub fn well_made_indexes_are_read_whole()
    ensures places { (b : List ℕ) (address : ℕ) (place : Option (Option Place)) → IsWellMade b → IsPlaceOf b (layout_of b) address place → IsSome place }
    ensures runs { (b : List ℕ) (section offset : ℕ) (run : Option (Option Run)) → IsWellMade b → IsRunAt b (layout_of b) section offset run → IsSome run }
    ensures frames { (b : List ℕ) (k : ℕ) → IsWellMade b → k < (layout_of b).nodes.rows → All IsSome (stack_of b (layout_of b) (layout_of b).deepest k) }
    ensures nodes { (b : List ℕ) (k : ℕ) → IsWellMade b → k < (layout_of b).starts.rows → (run_of b (layout_of b) k).node < (layout_of b).nodes.rows }
{}
