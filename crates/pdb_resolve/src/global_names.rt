//! The public symbols of a file.

ghost use Rattle.std.specs.Prelude.{◌≡◌, option_copied, IfOk, IfErr, IsSome, None, true};
ghost use Rattle.std.specs.Option.{option_map};
ghost use Rattle.pdb.specs.Source.{Continues, MayFail};
ghost use Rattle.pdb.specs.Answers.{global_symbols_in};
ghost use Rattle.pdb_places.specs.AsIfEmpty.{if_read, OnlyFails};
ghost use Rattle.pdb_resolve.specs.Resolved.{public_before_file};
ghost use Rattle.pdb_resolve.specs.KeptParts.{IsAskedOf, AreGlobalsOf};
ghost use Rattle.pdb_places.specs.PublicTable.{shown_found};

use crate::part::Part;
use pdb::{Error, PDB, PdbInternalSectionOffset, Result, Source, SymbolTable};
use pdb_places::public_names::{PublicName, PublicNames};
use std::alloc::Global;

/// The stream of global symbols, and what is found by it.
#[derive(Drop)]
pub(crate) struct GlobalNames<'a, 's> {
    pub(crate) globals: Part<'a, SymbolTable<'s>>,
    pub(crate) publics: Option<PublicNames<'a>>,
}

/// The stream of global symbols.
fn globals_asked<'a, 's, S: Source<'s>>(
    pdb: &mut PDB<'s, S>,
    part: &mut Part<'a, SymbolTable<'s>>,
) -> Result<Option<&'a SymbolTable<'s>>>
    requires { IsAskedOf pdb.old.told (if_read (global_symbols_in pdb.old.file)) part.old }
    ensures continues { Continues pdb.old pdb.new }
    ensures asked { IsAskedOf pdb.new.told (if_read (global_symbols_in pdb.new.file)) part.new }
    ensures is { pdb.new.told ≡ true → IfOk result (λ o. option_copied o ≡ if_read (global_symbols_in pdb.old.file)) }
    ensures refused { IfErr result (λ e. OnlyFails (MayFail pdb.old pdb.new) e) }
{
    if part.asked {
        return Ok(part.there);
    }
    part.keep(pdb.global_symbols())
}

impl<'a, 's> GlobalNames<'a, 's> {
    /// Asks for the stream, unless it was asked for.
    fn make<S: Source<'s>>(&mut self, pdb: &mut PDB<'s, S>) -> Result<()>
        requires { AreGlobalsOf pdb.old self.old }
        ensures continues { Continues pdb.old pdb.new }
        ensures kept { AreGlobalsOf pdb.new self.new }
        ensures made { IfOk result (λ _. IsSome self.new.publics) }
        ensures refused { IfErr result (λ e. OnlyFails (MayFail pdb.old pdb.new) e) }
    {
        if self.publics.is_some() {
            return Ok(());
        }
        let globals = globals_asked(pdb, &mut self.globals)?;
        self.publics = Some(PublicNames::new(globals));
        Ok(())
    }

    /// The public symbol before a place, whatever else stands between them.
    pub(crate) fn find<S: Source<'s>>(
        &mut self,
        alloc: Global,
        pdb: &mut PDB<'s, S>,
        place: PdbInternalSectionOffset,
    ) -> Result<Option<PublicName<'a>>>
        requires { AreGlobalsOf pdb.old self.old }
        ensures continues { Continues pdb.old pdb.new }
        ensures kept { AreGlobalsOf pdb.new self.new }
        ensures found { pdb.new.told ≡ true → IfOk result (λ n. option_map shown_found n ≡ public_before_file pdb.old.file place) }
        ensures refused { IfErr result (λ e. OnlyFails (MayFail pdb.old pdb.new) e) }
    {
        self.make(pdb)?;
        match &mut self.publics {
            Some(publics) => publics.find(alloc, place),
            None => Err(Error::OutOfMemory),
        }
    }
}
