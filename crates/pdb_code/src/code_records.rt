//! The symbol records of a module that may be code; most are none, and are passed over.

ghost use Rattle.std.specs.Prelude.{◌≡◌, ◌≤◌, ◌<◌, ◌^◌, ◌∷◌, [], false, true, None, length, IfSome, IfNone, IsTrue, ◌+◌};
ghost use Rattle.pdb.specs.Forms.{kind_at};
ghost use Rattle.pdb.specs.SymbolList.{symbols};
ghost use Rattle.pdb.specs.Tiling.{listing};
ghost use Rattle.pdb.specs.Views.{symbol_of};
ghost use Rattle.pdb_code.specs.CodeRecords.{IsRecord, code_left, is_code_kind};

use pdb::{Symbol, SymbolIndex};
use pdb_base::little_endian::u16_at;

/// Whether a kind is one of variables and of their ranges.
#[inline(always)]
#[tactic(auto, using(crate::proofs::VariableKinds::variables_no_code))]
fn is_of_variables(kind: u16) -> bool
    ensures { IsTrue result → is_code_kind kind ≡ false }
{
    0x1133 <= kind && kind < 0x1146
}

/// Whether records of a kind may be code.
#[inline(always)]
fn is_code_kind(kind: u16) -> bool
    ensures { result ≡ is_code_kind kind }
{
    matches!(
        kind,
        0x0206
            | 0x100a
            | 0x100b
            | 0x101a
            | 0x101b
            | 0x1102
            | 0x110f
            | 0x1110
            | 0x112a
            | 0x112b
            | 0x112c
            | 0x1132
            | 0x1146
            | 0x1147
            | 0x114d
            | 0x1155
            | 0x1156
            | 0x115d
    )
}

/// The same, where those of variables are seen first, and then those of sites and of their ends: most symbols of a module
/// are such.
#[inline(always)]
pub(crate) fn may_be_code(kind: u16) -> bool
    ensures { result ≡ is_code_kind kind }
{
    if is_of_variables(kind) {
        return false;
    }
    match kind {
        0x114d => true,
        0x114e => false,
        _ => is_code_kind(kind),
    }
}

/// The bytes of the record at an offset, its kind among them; none where no whole record is there.
#[inline(always)]
#[tactic(auto, using(crate::proofs::CodeRecords::no_head, crate::proofs::CodeRecords::no_record, crate::proofs::CodeRecords::short_record, crate::proofs::CodeRecords::a_record))]
fn whole_record(bytes: &[u8], at: usize) -> Option<&[u8]>
    requires inside { at ≤ length bytes.now }
    requires small { length bytes.now < 2 ^ 32 }
    ensures some { IfSome result (λ s. IsRecord bytes.entry.now at s.now) }
    ensures none { IfNone result (symbols.piece bytes.entry.now at ≡ None) }
{
    if bytes.len() < 4 || at > bytes.len() - 4 {
        return None;
    }
    let length = usize::from(u16_at(bytes, at));
    let end = at + 2 + length;
    if length < 2 || end > bytes.len() {
        return None;
    }
    Some(&bytes[at + 2..end])
}

/// The next record that may be code, from an offset on, which then stands behind it. None where the list ends or has
/// a fault.
#[inline(always)]
pub(crate) fn next_code<'t>(bytes: &'t [u8], at: &mut usize) -> Option<Symbol<'t>>
    requires inside { at.old ≤ length bytes.now }
    requires small { length bytes.now < 2 ^ 32 }
    ensures inside { at.new ≤ length bytes.entry.now }
    ensures moves { IfSome result (λ _. at.old < at.new) }
    ensures some { IfSome result (λ s. code_left bytes.entry.now at.old ≡ symbol_of s ∷ code_left bytes.entry.now at.new) }
    ensures none { IfNone result (code_left bytes.entry.now at.old ≡ []) }
    ensures fault { (listing symbols bytes.entry.now at.old).fault ≡ (listing symbols bytes.entry.now at.new).fault }
    ensures stops { IfNone result (symbols.piece bytes.entry.now at.new ≡ None) }
{
    loop {
        let start = *at;
        let Some(record) = whole_record(bytes, start) else {
            return None;
        };
        let end = start + 2 + record.len();
        if may_be_code(u16_at(record, 0)) {
            *at = end;
            return Symbol::new(SymbolIndex(start as u32), record);
        }
        *at = end;
    }
}
