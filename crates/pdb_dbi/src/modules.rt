//! The list of modules.

ghost use Rattle.std.specs.Prelude.{ℕ, ◌+◌, ◌^◌, ◌<◌, ◌≤◌, ◌≡◌, length, ⊤};
ghost use Rattle.pdb_base.specs.Cursor.{Reads};
ghost use Rattle.pdb_dbi.specs.Modules.{module_at, module_length, modules_of};

use pdb_base::little_endian::{u16_at, u32_at};
use pdb_base::{FallibleIterator, ParseBuffer, RawString, Result, Steps, StreamIndex};
use std::alloc::{AllocError, Global};
use std::borrow::CowStr;
use std::marker::Model;

/// A module: what the linker made one part of the image from, as an object file or a member of a library. It is
/// `dbi.h`'s `MODI`. A contract sees it as its stream's number, the sizes of that stream's three parts, and its names.
#[derive(Debug, Drop)]
pub struct Module<'m> {
    stream: StreamIndex,
    symbols_size: u32,
    lines_size: u32,
    c13_lines_size: u32,
    module_name: RawString<'m>,
    object_file_name: RawString<'m>,
}

impl<'m> Model for Module<'m> {
    ghost use Rattle.pdb_base.specs.Text.{name_bytes};
    ghost use Rattle.pdb_dbi.specs.Modules.{ModuleEntry};

    ghost Value = { ModuleEntry };

    ghost view = { λ m. record {
      stream = m.stream.0;
      symbols_size = m.symbols_size;
      lines_size = m.lines_size;
      c13_lines_size = m.c13_lines_size;
      module_name = name_bytes m.module_name;
      object_file_name = name_bytes m.object_file_name;
    } };
}

impl<'m> Module<'m> {
    ghost use Rattle.std.specs.Prelude.{IfOk, IfErr, IsOk};
    ghost use Rattle.std.specs.Str.{IsUtf8};
    ghost use Rattle.std.specs.Cow.{cow_str_bytes, IsOwnedStr};
    ghost use Rattle.pdb_base.specs.declared.error.Error.{Error};
    ghost use Rattle.pdb_base.specs.Text.{name_bytes, lossy_text};

    /// The module's name as text: mostly the path of an object file, or `* Linker *`. Borrowed where its bytes are
    /// UTF-8, which takes no memory, and else a copy in which each maximal piece that is no character is replaced by
    /// U+FFFD.
    pub fn module_name(&self, alloc: Global) -> Result<CowStr<'m>>
        ensures text { IfOk result (λ text. cow_str_bytes text ≡ lossy_text self.now.module_name) }
        ensures borrowed { IsUtf8 self.now.module_name → IsOk result }
        ensures lent { IsUtf8 self.now.module_name → IfOk result (λ text. IsOwnedStr text → ⊥) }
        ensures memory { IfErr result (λ e. e ≡ Error.OutOfMemory) }
    {
        self.module_name.to_string(alloc)
    }

    /// The name of the file from which the linker took the module, as text: the library's for a member of one, else
    /// mostly the module's own. Borrowed where its bytes are UTF-8, as `module_name`.
    pub fn object_file_name(&self, alloc: Global) -> Result<CowStr<'m>>
        ensures text { IfOk result (λ text. cow_str_bytes text ≡ lossy_text self.now.object_file_name) }
        ensures borrowed { IsUtf8 self.now.object_file_name → IsOk result }
        ensures lent { IsUtf8 self.now.object_file_name → IfOk result (λ text. IsOwnedStr text → ⊥) }
        ensures memory { IfErr result (λ e. e ≡ Error.OutOfMemory) }
    {
        self.object_file_name.to_string(alloc)
    }

    /// The module's name, by its bytes.
    pub fn raw_module_name(&self) -> RawString<'m>
        ensures { name_bytes result ≡ self.now.module_name }
    {
        self.module_name
    }

    /// The name of the file from which the linker took the module, by its bytes.
    pub fn raw_object_file_name(&self) -> RawString<'m>
        ensures { name_bytes result ≡ self.now.object_file_name }
    {
        self.object_file_name
    }

    /// The stream with the module's symbols and lines; that of no stream where it has none.
    pub fn stream(&self) -> StreamIndex
        ensures { result.0 ≡ self.now.stream }
    {
        self.stream
    }

    /// The sizes of the three parts of the module's stream, in bytes: symbols, lines of the older form (C11), and
    /// lines of the newer one (C13).
    pub fn sizes(&self) -> (u32, u32, u32)
        ensures symbols { result.0 ≡ self.now.symbols_size }
        ensures lines { result.1 ≡ self.now.lines_size }
        ensures c13_lines { result.2 ≡ self.now.c13_lines_size }
    {
        (self.symbols_size, self.lines_size, self.c13_lines_size)
    }
}

impl Clone for Module<'_> {
    ghost is_clone = { λ a b. b ≡ a };

    ghost is_infallible = { λ _. ⊤ };

    fn clone(&self) -> std::result::Result<Self, AllocError> {
        Ok(Module {
            stream: self.stream,
            symbols_size: self.symbols_size,
            lines_size: self.lines_size,
            c13_lines_size: self.c13_lines_size,
            module_name: self.module_name,
            object_file_name: self.object_file_name,
        })
    }
}

/// The size of a record's fields before its names.
const RECORD_SIZE: usize = 64;

/// The module at the buffer's offset.
#[tactic(auto, unfolding(crate::specs::Modules::module_at))]
fn read_module<'m>(buffer: &mut ParseBuffer<'m>) -> Result<Module<'m>>
    ensures { Reads (λ m. m) buffer.old buffer.new result (module_at buffer.old.bytes buffer.old.place) (module_length buffer.old.place) }
{
    let record = buffer.take(RECORD_SIZE)?;
    let module_name = buffer.parse_cstring()?;
    let object_file_name = buffer.parse_cstring()?;
    buffer.align(4)?;
    Ok(Module {
        stream: StreamIndex(u16_at(record, 34)),
        symbols_size: u32_at(record, 36),
        lines_size: u32_at(record, 40),
        c13_lines_size: u32_at(record, 44),
        module_name,
        object_file_name,
    })
}

/// The modules of a file, in their order. Each is a record of 64 bytes and two names that end with a zero byte, with
/// padding up to a multiple of four bytes from the list's start. Where any of it isn't there it is `UnexpectedEof`,
/// and then the list has ended.
#[derive(Drop)]
pub struct ModuleIter<'m> {
    buffer: ParseBuffer<'m>,
    steps: Steps,
    ghost small: { length buffer.bytes < 2 ^ 32 },
    ghost inside: { buffer.place ≤ length buffer.bytes },
    ghost going: { buffer.place < length buffer.bytes → steps.count ≤ buffer.place },
    ghost counted: { steps.count ≤ buffer.place + 1 },
}

impl<'m> ModuleIter<'m> {
    ghost use Rattle.pdb_dbi.specs.DbiViews.{modules_left, modules_bytes, modules_steps};

    // The modules of these bytes.
    pub(crate) fn new(bytes: &'m [u8]) -> Self
        requires { length bytes.now < 2 ^ 32 }
        ensures left { modules_left result ≡ modules_of bytes.entry.now }
        ensures bytes { modules_bytes result ≡ bytes.entry.now }
        ensures steps { modules_steps result ≡ 0 }
    {
        ModuleIter {
            buffer: ParseBuffer::from(bytes),
            steps: Steps::new(),
        }
    }
}

impl<'m> FallibleIterator for ModuleIter<'m> {
    ghost use Rattle.std.specs.Prelude.{◌≢◌, IfOk, IfErr, IfSome};
    ghost use Rattle.pdb_base.specs.declared.error.Error.TheVariants.{IoError, OutOfMemory};
    ghost use Rattle.std.specs.Option.{IfNone};
    ghost use Rattle.pdb_base.specs.Left.{Yields};
    ghost use Rattle.pdb_dbi.specs.Modules.{ModuleEntry};
    ghost use Rattle.pdb_dbi.specs.DbiViews.{modules_left, modules_bytes, modules_steps};

    type Item = Module<'m>;

    ghost Shown = { ModuleEntry };

    ghost shown = { λ m. m };

    ghost left = { modules_left };

    #[tactic(auto, using(pdb_base::proofs::Tilings::few))]
    fn next(&mut self) -> Result<Option<Module<'m>>>
        ensures yields { Yields (λ m. m) (modules_left self.old) result (modules_left self.new) }
        ensures few { length (modules_left self.old).items < 2 ^ 64 }
        ensures bytes { modules_bytes self.new ≡ modules_bytes self.old }
        ensures small { length (modules_bytes self.new) < 2 ^ 32 }
        ensures bound { modules_steps self.new ≤ length (modules_bytes self.new) + 1 }
        ensures stepped { IfOk result (λ o. IfSome o (λ _. modules_steps self.new ≡ modules_steps self.old + 1)) }
        ensures rests { IfOk result (λ o. IfNone o (modules_steps self.new ≡ modules_steps self.old)) }
        ensures stepped_to_fault { IfErr result (λ _. modules_steps self.new ≡ modules_steps self.old + 1) }
        ensures refused { IfErr result (λ e. (e ≢ OutOfMemory) × (e ≢ IoError)) }
    {
        if self.buffer.is_empty() {
            return Ok(None);
        }
        self.steps.tick();
        match read_module(&mut self.buffer) {
            Ok(module) => Ok(Some(module)),
            Err(error) => {
                self.buffer.seek(usize::MAX);
                Err(error)
            }
        }
    }
}
