//! The version of the library.

ghost use Rattle.std.specs.Prelude.{◌≡◌};
ghost use Rattle.pdb_c.specs.Version.{version};

/// The version of the library as one number, `PDB_VERSION` of `include/pdb.h`.
#[unsafe(no_mangle)]
pub extern "C" fn pdb_version() -> u32
    ensures { result ≡ version }
{
    1000
}
