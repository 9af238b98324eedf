//! Pieces of the names of types that refer to no other type's name.

ghost use Rattle.std.specs.Prelude.{◌≡◌, ◌≤◌, ◌++◌, codes, length, OnErr, OnOk};
ghost use Rattle.std.specs.Fmt.{decimal};
ghost use Rattle.std.specs.Option.{option_map};
ghost use Rattle.pdb_types.specs.Cuts.{IsCut, IsKept};
ghost use Rattle.pdb_types.specs.TypeReading.{shown_type};
ghost use Rattle.pdb_types.specs.TypeTexts.{count_of, count_or, count_text, name_text, object_text, object_words, plain_before, plain_behind, rare_behind, reference_text, small, small_size, this_in, words_before, words_behind};
ghost use Rattle.pdb_items.specs.Items.{item_with};
ghost use Rattle.pdb_types.specs.NameViews.{this_numbers};

use crate::cuts::{put, put_number};
use crate::definitions::type_of;
use crate::pointer::{PointerAttributes, Qualifiers};
use crate::type_data::TypeData;
use pdb_base::little_endian::u32_at;
use pdb_items::ItemFinder;
use std::alloc::AllocError;

// `const` and `volatile`, each before a blank.
#[tactic(auto, unfolding(crate::specs::TypeTexts::plain_before), using(crate::proofs::CutLemmas::kept_then, crate::proofs::CutLemmas::on_kept, crate::proofs::CutLemmas::cut_then, crate::proofs::CutLemmas::cut_none))]
fn put_plain_before(out: &mut Vec<u8>, limit: usize, words: Qualifiers) -> Result<(), AllocError>
    requires { length out.old.items ≤ limit }
    ensures ok { OnOk result (IsCut limit out.old.items (plain_before words) out.new.items) }
    ensures err { OnErr result (IsKept out.old.items out.new.items) }
{
    if words.is_const {
        put(out, limit, b"const ")?;
    }
    if words.is_volatile {
        put(out, limit, b"volatile ")?;
    }
    Ok(())
}

// Qualifiers, each before a blank.
#[tactic(auto, using(crate::proofs::CutLemmas::kept_then, crate::proofs::CutLemmas::on_kept, crate::proofs::CutLemmas::cut_then, crate::proofs::CutLemmas::cut_none))]
pub(crate) fn put_words_before(
    out: &mut Vec<u8>,
    limit: usize,
    words: Qualifiers,
) -> Result<(), AllocError>
    requires { length out.old.items ≤ limit }
    ensures ok { OnOk result (IsCut limit out.old.items (words_before words) out.new.items) }
    ensures err { OnErr result (IsKept out.old.items out.new.items) }
{
    put_plain_before(out, limit, words)?;
    if words.is_unaligned {
        put(out, limit, b"__unaligned ")?;
    }
    Ok(())
}

// `const` and `volatile`, each behind a blank.
#[tactic(auto, unfolding(crate::specs::TypeTexts::plain_behind), using(crate::proofs::CutLemmas::kept_then, crate::proofs::CutLemmas::on_kept, crate::proofs::CutLemmas::cut_then, crate::proofs::CutLemmas::cut_none))]
fn put_plain_behind(out: &mut Vec<u8>, limit: usize, words: Qualifiers) -> Result<(), AllocError>
    requires { length out.old.items ≤ limit }
    ensures ok { OnOk result (IsCut limit out.old.items (plain_behind words) out.new.items) }
    ensures err { OnErr result (IsKept out.old.items out.new.items) }
{
    if words.is_const {
        put(out, limit, b" const")?;
    }
    if words.is_volatile {
        put(out, limit, b" volatile")?;
    }
    Ok(())
}

// The other qualifiers, each behind a blank.
#[tactic(auto, unfolding(crate::specs::TypeTexts::rare_behind), using(crate::proofs::CutLemmas::kept_then, crate::proofs::CutLemmas::on_kept, crate::proofs::CutLemmas::cut_then, crate::proofs::CutLemmas::cut_none))]
fn put_rare_behind(out: &mut Vec<u8>, limit: usize, words: Qualifiers) -> Result<(), AllocError>
    requires { length out.old.items ≤ limit }
    ensures ok { OnOk result (IsCut limit out.old.items (rare_behind words) out.new.items) }
    ensures err { OnErr result (IsKept out.old.items out.new.items) }
{
    if words.is_unaligned {
        put(out, limit, b" __unaligned")?;
    }
    if words.is_restrict {
        put(out, limit, b" __restrict")?;
    }
    Ok(())
}

// Qualifiers, each behind a blank.
#[tactic(auto, using(crate::proofs::CutLemmas::kept_then, crate::proofs::CutLemmas::on_kept, crate::proofs::CutLemmas::cut_then, crate::proofs::CutLemmas::cut_none))]
pub(crate) fn put_words_behind(
    out: &mut Vec<u8>,
    limit: usize,
    words: Qualifiers,
) -> Result<(), AllocError>
    requires { length out.old.items ≤ limit }
    ensures ok { OnOk result (IsCut limit out.old.items (words_behind words) out.new.items) }
    ensures err { OnErr result (IsKept out.old.items out.new.items) }
{
    put_plain_behind(out, limit, words)?;
    put_rare_behind(out, limit, words)
}

// A name of a record; `??` for an empty one.
pub(crate) fn put_record_name(
    out: &mut Vec<u8>,
    limit: usize,
    name: &[u8],
) -> Result<(), AllocError>
    requires { length out.old.items ≤ limit }
    ensures ok { OnOk result (IsCut limit out.old.items (name_text name.now) out.new.items) }
    ensures err { OnErr result (IsKept out.old.items out.new.items) }
{
    if name.is_empty() {
        put(out, limit, b"??")
    } else {
        put(out, limit, name)
    }
}

// A size that is a number of 64 bits.
#[tactic(auto, using(crate::proofs::Counts::small_is))]
fn small(size: i128) -> Option<u64>
    ensures { result ≡ small size }
{
    u64::try_from(size).ok()
}

// How many elements an array of a size has, by the size of an element.
fn count_of(size: u64, element: Option<u64>) -> Option<u64>
    ensures { result ≡ count_of size element }
{
    let element = element?;
    if element > 0 && size % element == 0 {
        Some(size / element)
    } else {
        None
    }
}

// The size of an element, where it is a number of 64 bits.
fn small_size(size: Option<i128>) -> Option<u64>
    ensures { result ≡ small_size size }
{
    small(size?)
}

// A count, or what stands for one that isn't known.
#[tactic(auto, using(crate::proofs::CutLemmas::cut_none))]
fn put_count_or(
    out: &mut Vec<u8>,
    limit: usize,
    size: u64,
    count: Option<u64>,
) -> Result<(), AllocError>
    requires { length out.old.items ≤ limit }
    ensures ok { OnOk result (IsCut limit out.old.items (count_or size count) out.new.items) }
    ensures err { OnErr result (IsKept out.old.items out.new.items) }
{
    if let Some(count) = count {
        return put_number(out, limit, count);
    }
    if size == 0 {
        return Ok(());
    }
    put(out, limit, b"?")
}

// The count of an array of a size, by the size of an element.
pub(crate) fn put_count(
    out: &mut Vec<u8>,
    limit: usize,
    size: i128,
    element: Option<i128>,
) -> Result<(), AllocError>
    requires { length out.old.items ≤ limit }
    ensures ok { OnOk result (IsCut limit out.old.items (count_text (small size) (small_size element)) out.new.items) }
    ensures err { OnErr result (IsKept out.old.items out.new.items) }
{
    let Some(size) = small(size) else {
        return put(out, limit, b"?");
    };
    let count = count_of(size, small_size(element));
    put_count_or(out, limit, size, count)
}

// The shape of a table of virtual functions.
#[tactic(auto, using(crate::proofs::CutLemmas::kept_then, crate::proofs::CutLemmas::on_kept))]
pub(crate) fn put_table(out: &mut Vec<u8>, limit: usize, methods: u16) -> Result<(), AllocError>
    requires { length out.old.items ≤ limit }
    ensures ok { OnOk result (IsCut limit out.old.items (codes "<vftable " ++ (decimal methods ++ codes " methods>")) out.new.items) }
    ensures err { OnErr result (IsKept out.old.items out.new.items) }
{
    put(out, limit, b"<vftable ")?;
    put_number(out, limit, u64::from(methods))?;
    put(out, limit, b" methods>")
}

// The type that `this` points to, and the attributes of the pointer.
fn this_of(types: &ItemFinder<'_>, index: u32) -> Option<(u32, PointerAttributes)>
    ensures { option_map this_numbers result ≡ this_in (item_with types.now index) }
{
    let item = types.find(index)?;
    let bytes = item.raw_bytes();
    if item.raw_kind() == 0x1002 && bytes.len() >= 10 {
        Some((u32_at(bytes, 2), PointerAttributes(u32_at(bytes, 6))))
    } else {
        None
    }
}

// The qualifiers of what `this` points to.
#[tactic(auto, using(crate::proofs::CutLemmas::cut_none))]
fn put_object_words(
    out: &mut Vec<u8>,
    limit: usize,
    says: Option<TypeData<'_>>,
) -> Result<(), AllocError>
    requires { length out.old.items ≤ limit }
    ensures ok { OnOk result (IsCut limit out.old.items (object_words (option_map shown_type says.entry)) out.new.items) }
    ensures err { OnErr result (IsKept out.old.items out.new.items) }
{
    match says {
        Some(TypeData::Modifier(modifier)) => put_plain_behind(out, limit, modifier.qualifiers),
        _ => Ok(()),
    }
}

// Whether the object has to be an lvalue or an rvalue.
#[tactic(auto, using(crate::proofs::CutLemmas::cut_none))]
fn put_reference(
    out: &mut Vec<u8>,
    limit: usize,
    attributes: PointerAttributes,
) -> Result<(), AllocError>
    requires { length out.old.items ≤ limit }
    ensures ok { OnOk result (IsCut limit out.old.items (reference_text attributes.0) out.new.items) }
    ensures err { OnErr result (IsKept out.old.items out.new.items) }
{
    if attributes.is_lvalue_this() {
        return put(out, limit, b" &");
    }
    if attributes.is_rvalue_this() {
        return put(out, limit, b" &&");
    }
    Ok(())
}

// How a member function takes its object, by the type of `this`.
#[tactic(auto, unfolding(crate::specs::TypeTexts::object_text), using(crate::proofs::CutLemmas::kept_then, crate::proofs::CutLemmas::on_kept, crate::proofs::CutLemmas::cut_then, crate::proofs::CutLemmas::cut_none))]
pub(crate) fn put_object(
    types: &ItemFinder<'_>,
    out: &mut Vec<u8>,
    limit: usize,
    index: u32,
) -> Result<(), AllocError>
    requires { length out.old.items ≤ limit }
    ensures ok { OnOk result (IsCut limit out.old.items (object_text types.now index) out.new.items) }
    ensures err { OnErr result (IsKept out.old.items out.new.items) }
{
    let Some((object, attributes)) = this_of(types, index) else {
        return Ok(());
    };
    put_object_words(out, limit, type_of(types, object))?;
    put_reference(out, limit, attributes)
}
