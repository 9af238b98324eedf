//! Laws of the definitions. Each is the contract of a function that does nothing.

ghost use Rattle.std.specs.Prelude.{◌≡◌, ℕ, Some, List, Ok, Err};
ghost use Rattle.pdb_base.specs.declared.error.Error.{Error};
ghost use Rattle.pdb_symbols.specs.Kinds.{row};
ghost use Rattle.pdb_symbols.specs.declared.form.Form.{Form};
ghost use Rattle.pdb_records.specs.RecordReading.{RecordRefusal, SaysOf, further_at};
ghost use Rattle.pdb_records.specs.RecordRows.{record_row};
ghost use Rattle.pdb_records.specs.RecordSays.{Says};
ghost use Rattle.pdb_records.specs.declared.form.RecordForm.{RecordForm};

/// No kind has both a layout of `pdb_symbols` and one of this crate.
pub fn no_kind_is_read_twice()
    ensures { (kind : ℕ) (f : Form) (g : RecordForm) → row kind ≡ Some f → record_row kind ≡ Some g → ⊥ }
{}

/// What is read of a record, or its error, is what its bytes say by the offsets of its fields, and nothing else.
pub fn further_reading_is_what_the_bytes_say()
    ensures says { (b : List ℕ) (d : Says) → further_at b ≡ Ok d → SaysOf b d }
    ensures reads { (b : List ℕ) (d : Says) → SaysOf b d → further_at b ≡ Ok d }
    ensures refused { (b : List ℕ) (e : Error) → further_at b ≡ Err e → RecordRefusal b e }
{}
