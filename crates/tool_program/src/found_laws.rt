//! Laws of the JSON of what is found, of source files and of damage.

ghost use Rattle.std.specs.Prelude.{ℕ, ◌<◌, ◌^◌, List, Option};
ghost use Rattle.std.specs.Option.{unwrap_or};
ghost use Rattle.pdb.specs.LineInfo.{LineInfo};
ghost use Rattle.pdb.specs.PdbInternalSectionOffset.{PdbInternalSectionOffset};
ghost use Rattle.pdb.specs.Qualified.{Qualified};
ghost use Rattle.pdb.specs.Tables.{Addresses};
ghost use Rattle.tool_check.specs.Findings.{finding_value, sound_value};
ghost use Rattle.tool_program.specs.ReadBack.{ReadsBack};
ghost use Rattle.tool_search.specs.FoundObjects.{HasRecord, found_value, where_value};
ghost use Rattle.tool_search.specs.SourceTexts.{source_value};

/// The object of what a name was found by is one JSON value, which is read back as it was written.
pub fn a_found_name_reads_back()
    ensures { (kind : List ℕ) (addresses : Option Addresses) (q : PdbInternalSectionOffset) (length : Option ℕ) (name : List ℕ) → unwrap_or length 0 < 2 ^ 32 → ReadsBack (found_value kind addresses q length name) }
{}

/// The same of the object of a record of lines.
pub fn a_record_reads_back()
    ensures { (kind : List ℕ) (addresses : Option Addresses) (r : LineInfo) (file : Option (List ℕ)) (name : Option Qualified) → HasRecord r → ReadsBack (where_value kind addresses r file name) }
{}

/// The same of the object of a source file.
pub fn a_source_reads_back()
    ensures { (k : ℕ) (kind digest : List ℕ) (name : Option (List ℕ)) → k < 2 ^ 64 → ReadsBack (source_value k kind digest name) }
{}

/// The same of the object of what `check` finds.
pub fn a_finding_reads_back()
    ensures { (file label what : List ℕ) → ReadsBack (finding_value file label what) }
{}

/// The same of the object of a file without one.
pub fn a_sound_file_reads_back()
    ensures { (file : List ℕ) → ReadsBack (sound_value file) }
{}
