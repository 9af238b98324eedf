//! Laws of the definitions.

ghost use Rattle.std.specs.Prelude.{◌≡◌, ℕ, suc, ◌+◌, ◌*◌, ◌%◌, ◌^◌, ◌<◌, ◌++◌, List, length, take, get_or, false, Ok, Some, None, Decides};
ghost use Rattle.pdb_base.specs.Fields.{number};
ghost use Rattle.pdb_modules.specs.CrossModule.{exports_in, global_of};
ghost use Rattle.pdb_modules.specs.Files.{Checksum, same_sums, HaveOneDigest};
ghost use Rattle.std.specs.List.{sum_by};
ghost use Rattle.pdb_symbols.specs.declared.annotations.BinaryAnnotation.{BinaryAnnotation};
ghost use Rattle.pdb_modules.specs.declared.seen.Seen.{Seen};
ghost use Rattle.pdb_modules.specs.Inlined.{seen, latest, since, sets_offset, sets_base, record_at};
ghost use Rattle.pdb_modules.specs.InlinedSums.{adds_offset, adds_line};
ghost use Rattle.pdb_base.specs.declared.index.PdbInternalSectionOffset.{PdbInternalSectionOffset};
ghost use Rattle.pdb_modules.specs.declared.line_info.LineInfo.{LineInfo};
ghost use Rattle.pdb_modules.specs.Lines.{Mark, Subsection, AreRecords, records, lines_of};
ghost use Rattle.pdb_modules.specs.KeptRows.{StandAmong};
ghost use Rattle.pdb_modules.specs.LineOrder.{IsOrdering, is_upto, ordered, IsLastUpto, last_upto, lines_for};

/// The records of marks are those whose lengths are the least forward distances, and no others are.
pub fn records_reach_the_nearest_mark()
    ensures are { (ms : List Mark) → AreRecords ms (records ms) }
    ensures only { (ms : List Mark) (rs : List LineInfo) → AreRecords ms rs → rs ≡ records ms }
{}

/// There is one order of subsections by section and offset in which those at one place stand as in the file.
pub fn subsections_have_one_order()
    ensures is { (ss : List Subsection) → IsOrdering ss (ordered ss) }
    ensures only { (xs ys : List Subsection) → IsOrdering xs ys → ys ≡ ordered xs }
{}

/// The subsection that is chosen for a place is the last one at or before it, and none is chosen where all stand behind
/// it.
pub fn the_last_is_chosen()
    ensures is { (q : PdbInternalSectionOffset) (ss : List Subsection) (k : ℕ) (s : Subsection) → IsLastUpto q ss k s → last_upto q ss ≡ Some s }
    ensures only { (q : PdbInternalSectionOffset) (ss : List Subsection) (s : Subsection) → last_upto q ss ≡ Some s → (k : ℕ) × IsLastUpto q ss k s }
    ensures none { (q : PdbInternalSectionOffset) (ss : List Subsection) → last_upto q ss ≡ None → (k : ℕ) (d : Subsection) → k < length ss → is_upto (get_or ss k d).place q ≡ false }
{}

/// Where neither list has a fault, the records for a symbol stand one after the other among all records, the same but
/// for the last one's length, which among all is there where the other is, and then at most it.
pub fn records_of_a_symbol_stand_in_lines()
    ensures { (q : PdbInternalSectionOffset) (ss : List Subsection) → (lines_of ss).fault ≡ None → (lines_for q ss).fault ≡ None
        → StandAmong (lines_for q ss).items (lines_of ss).items }
{}

/// A record of an inline site stands at the last base plus the last code offset that was set plus all that moved it
/// since, modulo 2^32; and in the line that was seen at first plus all line deltas, modulo 2^32.
pub fn inlined_records_stand_at_sums()
    ensures offset { (section : ℕ) (s : Seen) (xs : List BinaryAnnotation) (i : ℕ) → (record_at section s xs i).offset.offset
        ≡ (latest sets_base s.base (take (suc i) xs) + latest sets_offset s.offset (take (suc i) xs) + sum_by adds_offset (since sets_offset (take (suc i) xs))) % 2 ^ 32 }
    ensures line { (section : ℕ) (s : Seen) (xs : List BinaryAnnotation) (i : ℕ) → s.line < 2 ^ 32 → (record_at section s xs i).line_start
        ≡ (s.line + sum_by adds_line (take (suc i) xs)) % 2 ^ 32 }
{}

/// What is seen behind some annotations and then some more is what is seen behind them all.
pub fn what_is_seen_goes_on()
    ensures { (s : Seen) (xs ys : List BinaryAnnotation) → seen (seen s xs) ys ≡ seen s (xs ++ ys) }
{}

/// Two checksums are equal exactly where both are of one digest kind and have equal bytes; one without a digest equals
/// none.
pub fn checksum_equality()
    ensures { (a b : Checksum) → Decides (same_sums a b) (HaveOneDigest a b) }
{}

/// Export i of a part stands at its offset 8 * i, and each eight bytes are one.
pub fn exports_in_file_order()
    ensures count { (part : List ℕ) (xs : List (ℕ × ℕ)) → exports_in part ≡ Ok xs → 8 * length xs ≡ length part }
    ensures places { (part : List ℕ) (xs : List (ℕ × ℕ)) → exports_in part ≡ Ok xs → (i : ℕ) (d : ℕ × ℕ) → i < length xs → get_or xs i d ≡ (number part (8 * i) 4, number part (8 * i + 4) 4) }
{}

/// The export that is found is the first one of its local number; none is found where no export has it.
pub fn the_first_export_is_found()
    ensures first { (local : ℕ) (xs : List (ℕ × ℕ)) (k : ℕ) (d : ℕ × ℕ) → k < length xs → (get_or xs k d).0 ≡ local → ((j : ℕ) → j < k → (get_or xs j d).0 ≡ local → ⊥) → global_of local xs ≡ Some (get_or xs k d).1 }
    ensures missing { (local : ℕ) (xs : List (ℕ × ℕ)) (d : ℕ × ℕ) → ((j : ℕ) → j < length xs → (get_or xs j d).0 ≡ local → ⊥) → global_of local xs ≡ None }
{}
