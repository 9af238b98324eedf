//! Laws of the variables at a place.

ghost use Rattle.std.specs.Prelude.{◌≡◌, filter_map};
ghost use Rattle.pdb.specs.Inlinees.{inlinee_with};
ghost use Rattle.pdb.specs.ModuleStream.{ModuleBytes};
ghost use Rattle.pdb.specs.PdbInternalSectionOffset.{PdbInternalSectionOffset};
ghost use Rattle.pdb_code.specs.ModuleCode.{inlined_at, inlinees_in, procedure_at};
ghost use Rattle.pdb_variables.specs.Variables.{call_of_site, records_at};

/// The inlined calls at a place are those of the function's records, in their order. So the number of a variable's
/// owner, which counts the calls before its site, is the number of the site's call among them.
pub fn the_calls_are_those_of_the_functions_records()
    ensures { (q : PdbInternalSectionOffset) (m : ModuleBytes) → inlined_at q m ≡ filter_map (call_of_site q (inlinee_with (inlinees_in m)) (procedure_at q m)) (records_at q m) }
{}
