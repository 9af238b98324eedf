//! Where the streams are put that a resolver reads.

use pdb::{DebugInformation, IdInformation, ModuleInfo, StringTable, SymbolTable, TypeInformation};
use std::alloc::Global;
use std::marker::Model;

/// Buffers for the streams of a file that a `Resolver` reads. It borrows them from here, and makes as many buffers as
/// the file has modules. A contract sees how many those are.
pub struct Streams<'s> {
    pub(crate) information: Option<DebugInformation<'s>>,
    pub(crate) strings: Option<StringTable<'s>>,
    pub(crate) globals: Option<SymbolTable<'s>>,
    pub(crate) types: Option<TypeInformation<'s>>,
    pub(crate) ids: Option<IdInformation<'s>>,
    pub(crate) modules: Vec<Option<Box<ModuleInfo<'s>>>>,
}

// By hand, as that of `Resolver`.
impl Drop for Streams<'_> {
    fn drop(self) {
        let Streams {
            information: _,
            strings: _,
            globals: _,
            types: _,
            ids: _,
            modules: _,
        } = self;
    }
}

impl<'s> Model for Streams<'s> {
    ghost use Rattle.std.specs.Prelude.{ℕ, length};

    ghost Value = { ℕ };

    ghost view = { λ s. length s.modules.items };
}

impl<'s> Streams<'s> {
    ghost use Rattle.std.specs.Prelude.{◌≡◌};

    /// No buffer yet. It takes no memory.
    pub fn new(alloc: Global) -> Self
        ensures { result ≡ 0 }
    {
        Streams {
            information: None,
            strings: None,
            globals: None,
            types: None,
            ids: None,
            modules: Vec::new(alloc),
        }
    }
}
