//! Laws of the JSON of lists, of keys and of errors.

ghost use Rattle.std.specs.Prelude.{ℕ, ◌<◌, ◌^◌, List, Option};
ghost use Rattle.std.specs.Option.{unwrap_or};
ghost use Rattle.json.specs.Json.{null};
ghost use Rattle.pdb.specs.Error.{Error};
ghost use Rattle.pdb.specs.ImageSectionHeader.{ImageSectionHeader};
ghost use Rattle.pdb.specs.Modules.{ModuleEntry};
ghost use Rattle.pdb_image.specs.Images.{Said};
ghost use Rattle.tool_output.specs.ErrorObjects.{error_value, none_value};
ghost use Rattle.tool_program.specs.KeyLines.{image_value, pdb_value};
ghost use Rattle.tool_lists.specs.ModuleLists.{listed_value};
ghost use Rattle.tool_output.specs.Objects.{number_value};
ghost use Rattle.tool_lists.specs.SectionTexts.{section_value};
ghost use Rattle.tool_lists.specs.StreamRoles.{StreamRole};
ghost use Rattle.tool_lists.specs.StreamTexts.{stream_value};
ghost use Rattle.tool_program.specs.ReadBack.{ReadsBack};

/// The object of an error outside modules is one JSON value, which is read back as it was written.
pub fn an_error_reads_back()
    ensures { (e : Error) → ReadsBack (error_value null e) }
{}

/// The same of an error of a module.
pub fn an_error_of_a_module_reads_back()
    ensures { (k : ℕ) (e : Error) → k < 2 ^ 64 → ReadsBack (error_value (number_value k) e) }
{}

/// The same of the object of what isn't there.
pub fn none_reads_back()
    ensures { ReadsBack (none_value null) }
{}

/// The same of a module that isn't there.
pub fn no_module_reads_back()
    ensures { (k : ℕ) → k < 2 ^ 64 → ReadsBack (none_value (number_value k)) }
{}

/// The same of the object of a module.
pub fn a_module_reads_back()
    ensures { (size : ℕ → ℕ) (k : ℕ) (m : ModuleEntry) → k < 2 ^ 64 → size k < 2 ^ 64 → ReadsBack (listed_value size k m) }
{}

/// The same of the object of a section.
pub fn a_section_reads_back()
    ensures { (n : ℕ) (h : ImageSectionHeader) → n < 2 ^ 64 → h.virtual_size < 2 ^ 32 → ReadsBack (section_value n h) }
{}

/// The same of the object of a stream.
pub fn a_stream_reads_back()
    ensures { (n : ℕ) (size : Option ℕ) (here : List StreamRole) → n < 2 ^ 64 → unwrap_or size 0 < 2 ^ 32 → ReadsBack (stream_value n size here) }
{}

/// The same of the object of a PDB file's key.
pub fn a_key_reads_back()
    ensures { (name key : List ℕ) → ReadsBack (pdb_value name key) }
{}

/// The same of the object of an image's keys.
pub fn an_image_reads_back()
    ensures { (name : List ℕ) (i : Said) → ReadsBack (image_value name i) }
{}
