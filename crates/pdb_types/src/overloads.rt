//! Member functions of one name.

ghost use Rattle.std.specs.Prelude.{◌≡◌, ◌≤◌, ◌<◌, ◌+◌, ◌^◌, length, if◌then◌else◌};
ghost use Rattle.pdb_base.specs.Cursor.{Reads};
ghost use Rattle.pdb_types.specs.Overloads.{overload_at, overload_length, table_offset_at};

use crate::members::FieldAttributes;
use pdb_base::little_endian::{u16_at, u32_at};
use pdb_base::{Error, FallibleIterator, ParseBuffer, Result, Steps, TypeIndex};
use pdb_items::ItemFinder;

/// A member function in a list of those with one name: `mlMethod` in `cvinfo.h`.
#[derive(Clone, Copy, Debug, Eq, PartialEq)]
pub struct MethodListEntry {
    /// Who may use the function, and what it is.
    pub attributes: FieldAttributes,
    /// The function's type.
    pub method_type: TypeIndex,
    /// The function's offset in the table of virtual functions, where it is introduced.
    pub vtable_offset: Option<u32>,
}

/// The member functions of a list, in the file's order: `LF_METHODLIST` (0x1206). Where one isn't whole it is
/// `UnexpectedEof`, and then the list has ended.
#[derive(Drop)]
pub struct OverloadIter<'t> {
    buffer: ParseBuffer<'t>,
    steps: Steps,
    ghost small: { length buffer.bytes < 2 ^ 64 },
    ghost inside: { buffer.place ≤ length buffer.bytes },
    ghost going: { buffer.place < length buffer.bytes → steps.count ≤ buffer.place },
    ghost counted: { steps.count ≤ buffer.place + 1 },
}

// The offset in the table of virtual functions, where the function is introduced.
fn read_table_offset(buffer: &mut ParseBuffer<'_>, introduced: bool) -> Result<Option<u32>>
    ensures { Reads (λ x. x) buffer.old buffer.new result (table_offset_at introduced buffer.old.bytes buffer.old.place) (λ _. if introduced then 4 else 0) }
{
    if introduced {
        Ok(Some(buffer.parse_u32()?))
    } else {
        Ok(None)
    }
}

// The function at the buffer's offset.
#[tactic(auto, unfolding(crate::specs::Overloads::overload_at))]
fn read_overload(buffer: &mut ParseBuffer<'_>) -> Result<MethodListEntry>
    ensures { Reads (λ x. x) buffer.old buffer.new result (overload_at buffer.old.bytes buffer.old.place) (overload_length buffer.old.place) }
{
    let fields = buffer.take(8)?;
    let attributes = FieldAttributes(u16_at(fields, 0));
    let vtable_offset = read_table_offset(buffer, attributes.is_intro_virtual())?;
    Ok(MethodListEntry {
        attributes,
        method_type: TypeIndex(u32_at(fields, 4)),
        vtable_offset,
    })
}

impl<'t> OverloadIter<'t> {
    ghost use Rattle.pdb_base.specs.Refusal.{Answers};
    ghost use Rattle.std.specs.Prelude.{IfOk};
    ghost use Rattle.pdb_types.specs.Overloads.{overloads_of};
    ghost use Rattle.pdb_types.specs.OverloadViews.{overloads_left, overloads_steps};

    /// The functions of the list of this index, as `Member::Method` has it. `UnexpectedEof` where there is no such
    /// item, or it is no list of functions.
    #[tactic(auto, unfolding(crate::specs::Overloads::overloads_of))]
    pub fn new(types: &ItemFinder<'t>, list: TypeIndex) -> Result<Self>
        ensures left { Answers overloads_left result (overloads_of types.now list.0) }
        ensures steps { IfOk result (λ it. overloads_steps it ≡ 0) }
    {
        let Some(item) = types.find(list.0) else {
            return Err(Error::UnexpectedEof);
        };
        if item.raw_kind() != 0x1206 {
            return Err(Error::UnexpectedEof);
        }
        let mut buffer = ParseBuffer::from(item.raw_bytes());
        buffer.seek(2);
        Ok(OverloadIter {
            buffer,
            steps: Steps::new(),
        })
    }
}

impl<'t> FallibleIterator for OverloadIter<'t> {
    ghost use Rattle.std.specs.Prelude.{◌≢◌, IfErr, IfOk, IfSome, IfNone};
    ghost use Rattle.pdb_base.specs.Left.{Yields};
    ghost use Rattle.pdb_base.specs.declared.error.Error.TheVariants.{IoError, OutOfMemory};
    ghost use Rattle.pdb_types.specs.declared.overloads.MethodListEntry.{MethodListEntry};
    ghost use Rattle.pdb_types.specs.OverloadViews.{overloads_bytes, overloads_left, overloads_steps};

    type Item = MethodListEntry;

    ghost Shown = { MethodListEntry };

    ghost shown = { λ x. x };

    ghost left = { overloads_left };

    #[tactic(auto, using(pdb_base::proofs::Tilings::few))]
    fn next(&mut self) -> Result<Option<MethodListEntry>>
        ensures yields { Yields (λ x. x) (overloads_left self.old) result (overloads_left self.new) }
        ensures few { length (overloads_left self.old).items < 2 ^ 64 }
        ensures bytes { overloads_bytes self.new ≡ overloads_bytes self.old }
        ensures bound { overloads_steps self.new ≤ length (overloads_bytes self.new) + 1 }
        ensures stepped { IfOk result (λ o. IfSome o (λ _. overloads_steps self.new ≡ overloads_steps self.old + 1)) }
        ensures stepped_to_fault { IfErr result (λ _. overloads_steps self.new ≡ overloads_steps self.old + 1) }
        ensures rests { IfOk result (λ o. IfNone o (overloads_steps self.new ≡ overloads_steps self.old)) }
        ensures refused { IfErr result (λ e. (e ≢ OutOfMemory) × (e ≢ IoError)) }
    {
        if self.buffer.is_empty() {
            return Ok(None);
        }
        self.steps.tick();
        match read_overload(&mut self.buffer) {
            Ok(method) => Ok(Some(method)),
            Err(error) => {
                self.buffer.seek(usize::MAX);
                Err(error)
            }
        }
    }
}
