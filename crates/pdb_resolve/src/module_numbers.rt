//! The numbers of a file's modules, by their names.

ghost use Rattle.std.specs.Prelude.{◌≡◌, ℕ, List, Some, IsSome, if◌then◌else◌, IfOk, IfErr, OnOk};
ghost use Rattle.std.specs.Str.{bytes_eq};
ghost use Rattle.pdb.specs.Text.{name_bytes};
ghost use Rattle.pdb_resolve.specs.ModuleNumbers.{number_named};
ghost use Rattle.pdb_resolve.specs.NumberViews.{AreNumbersOf, number_in};

use pdb::{Error, Module, RawString, Result};
use std::alloc::Global;
use std::collections::BTreeMap;

/// The number of the first module of each name.
#[derive(Drop)]
pub(crate) struct ModuleNumbers<'a> {
    pub(crate) numbers: BTreeMap<&'a [u8], usize>,
}

/// A name leads to this number from now on.
pub(crate) fn put_number<'a>(
    numbers: &mut BTreeMap<&'a [u8], usize>,
    name: &'a [u8],
    number: usize,
) -> Result<()>
    ensures put { OnOk result ((q : List ℕ) → number_in numbers.new q ≡ (if bytes_eq name.now q then Some number else number_in numbers.old q)) }
    ensures refused { IfErr result (λ e. e ≡ Error.OutOfMemory) }
{
    numbers.insert(name, number)?;
    Ok(())
}

impl<'a> ModuleNumbers<'a> {
    /// The numbers of these modules, of which each is looked at once.
    pub(crate) fn new(alloc: Global, listed: &[Module<'a>]) -> Result<Self>
        ensures numbers { IfOk result (λ n. AreNumbersOf listed.now n) }
        ensures refused { IfErr result (λ e. e ≡ Error.OutOfMemory) }
    {
        let mut numbers = BTreeMap::new(alloc);
        let mut number = listed.len();
        // The last one first, so that the first of a name stays.
        while number > 0 {
            number -= 1;
            let name = listed[number].raw_module_name();
            put_number(&mut numbers, name.as_bytes(), number)?;
        }
        Ok(ModuleNumbers { numbers })
    }

    /// The numbers of those of these modules whose names lead to a number already. Each is looked at once.
    pub(crate) fn among(
        alloc: Global,
        listed: &[Module<'a>],
        names: &BTreeMap<&[u8], usize>,
    ) -> Result<Self>
        ensures numbers { IfOk result (λ n. (q : List ℕ) → IsSome (number_in names.now q) → number_in n.numbers q ≡ number_named listed.now q) }
        ensures refused { IfErr result (λ e. e ≡ Error.OutOfMemory) }
    {
        let mut numbers = BTreeMap::new(alloc);
        let mut left = listed.len();
        while left > 0 {
            left -= 1;
            let name = listed[left].raw_module_name().as_bytes();
            if names.contains_key(name) {
                put_number(&mut numbers, name, left)?;
            }
        }
        Ok(ModuleNumbers { numbers })
    }

    /// The number of the first module of a name.
    pub(crate) fn find(&self, name: RawString<'_>) -> Option<usize>
        ensures { result ≡ number_in self.now.numbers (name_bytes name.entry) }
    {
        self.numbers.get(name.as_bytes()).copied()
    }
}
