//! The lines of symbols.

ghost use Rattle.std.specs.Prelude.{◌≡◌, ◌≢◌, ◌++◌, true, OnOk, codes};
ghost use Rattle.std.specs.Option.{option_map};
ghost use Rattle.pdb.specs.Error.TheVariants.{OutOfMemory};
ghost use Rattle.pdb.specs.Source.{Continues};
ghost use Rattle.pdb.specs.Forms.{record_at};
ghost use Rattle.pdb.specs.Headings.{shown_heading};
ghost use Rattle.pdb.specs.Views.{symbol_of, symbols_left};
ghost use Rattle.pdb.specs.Text.{name_bytes};
ghost use Rattle.pdb_text.specs.Digits.{hex};
ghost use Rattle.pdb_list.specs.Unfailed.{Unfailed};
ghost use Rattle.pdb_list.specs.Texts.{globals_text, form_text, space_text, bytes_of, refused_text, record_text, symbol_text, symbols_text, title_text};
ghost use Rattle.pdb_list.specs.ModuleTexts.{symbols_of_text};

use crate::text::{put_error, put_refusal, put_refused_line};
use pdb::{
    Error, FallibleIterator, Form, Heading, ModuleInfo, PDB, RawString, Source, Symbol, SymbolIter,
};
use pdb_text::{hex4, hex8, put_line_end};
use std::alloc::{AllocError, Global};

/// The name of a form.
fn put_form(out: &mut Vec<u8>, form: Form) -> Result<(), AllocError>
    ensures { OnOk result (out.new.items ≡ out.old.items ++ form_text form) }
{
    match form {
        Form::ScopeEnd => out.extend_from_slice(b"ScopeEnd"),
        Form::ObjName => out.extend_from_slice(b"ObjName"),
        Form::RegisterVariable => out.extend_from_slice(b"RegisterVariable"),
        Form::Constant => out.extend_from_slice(b"Constant"),
        Form::UserDefinedType => out.extend_from_slice(b"UserDefinedType"),
        Form::MultiRegisterVariable => out.extend_from_slice(b"MultiRegisterVariable"),
        Form::Data => out.extend_from_slice(b"Data"),
        Form::Public => out.extend_from_slice(b"Public"),
        Form::Procedure => out.extend_from_slice(b"Procedure"),
        Form::ThreadStorage => out.extend_from_slice(b"ThreadStorage"),
        Form::CompileFlags => out.extend_from_slice(b"CompileFlags"),
        Form::UsingNamespace => out.extend_from_slice(b"UsingNamespace"),
        Form::ProcedureReference => out.extend_from_slice(b"ProcedureReference"),
        Form::DataReference => out.extend_from_slice(b"DataReference"),
        Form::AnnotationReference => out.extend_from_slice(b"AnnotationReference"),
        Form::Trampoline => out.extend_from_slice(b"Trampoline"),
        Form::Export => out.extend_from_slice(b"Export"),
        Form::Local => out.extend_from_slice(b"Local"),
        Form::BuildInfo => out.extend_from_slice(b"BuildInfo"),
        Form::InlineSite => out.extend_from_slice(b"InlineSite"),
        Form::InlineSiteEnd => out.extend_from_slice(b"InlineSiteEnd"),
        Form::ProcedureEnd => out.extend_from_slice(b"ProcedureEnd"),
        Form::Label => out.extend_from_slice(b"Label"),
        Form::Block => out.extend_from_slice(b"Block"),
        Form::RegisterRelative => out.extend_from_slice(b"RegisterRelative"),
        Form::Thunk => out.extend_from_slice(b"Thunk"),
        Form::SeparatedCode => out.extend_from_slice(b"SeparatedCode"),
    }
}

/// A space and a name, where there is one, and the end of the line.
fn put_name(out: &mut Vec<u8>, name: Option<RawString<'_>>) -> Result<(), AllocError>
    ensures { OnOk result (out.new.items ≡ out.old.items ++ space_text (option_map name_bytes name.entry) ++ bytes_of (option_map name_bytes name.entry) ++ codes "\n") }
{
    if let Some(name) = name {
        out.push(b' ')?;
        out.extend_from_slice(name.as_bytes())?;
    }
    put_line_end(out)
}

/// An error in a symbol's line; out of memory is passed on.
fn put_refused(out: &mut Vec<u8>, e: Error) -> Result<(), AllocError>
    ensures { OnOk result ((e ≢ OutOfMemory) × (out.new.items ≡ out.old.items ++ refused_text e ++ codes "\n")) }
{
    match e {
        Error::OutOfMemory => Err(AllocError),
        e => put_refused_line(out, e.number()),
    }
}

/// A record's form, its name where it has one, and the end of the line.
fn put_heading(out: &mut Vec<u8>, heading: Heading<'_>) -> Result<(), AllocError>
    ensures { OnOk result (out.new.items ≡ out.old.items ++ title_text (shown_heading heading.entry) ++ codes "\n") }
{
    put_form(out, heading.form)?;
    put_name(out, heading.name)
}

/// What a symbol's record says: its form and name; or `refused` and the error's number; and the end of the line.
fn put_record(alloc: Global, out: &mut Vec<u8>, symbol: &Symbol<'_>) -> Result<(), AllocError>
    ensures { OnOk result (out.new.items ≡ out.old.items ++ record_text (record_at (symbol_of symbol.now).bytes) ++ codes "\n") }
{
    match symbol.heading(alloc) {
        Ok(heading) => put_heading(out, heading),
        Err(e) => put_refused(out, e),
    }
}

/// `symbol`, an index and a kind, each with a space behind it.
#[inline(always)]
#[tactic(auto, unfolding(pdb_text::specs::Digits::hex))]
fn head(index: u32, kind: u16) -> [u8; 21]
    ensures { result ≡ codes "symbol " ++ hex 8 index ++ codes " " ++ hex 4 kind ++ codes " " }
{
    let i = hex8(index);
    let k = hex4(kind);
    [
        b's', b'y', b'm', b'b', b'o', b'l', b' ', i[0], i[1], i[2], i[3], i[4], i[5], i[6], i[7],
        b' ', k[0], k[1], k[2], k[3], b' ',
    ]
}

/// The line of a symbol: its index, its kind, and what its record says.
#[tactic(auto, unfolding(crate::specs::Texts::symbol_text))]
fn put_symbol(alloc: Global, out: &mut Vec<u8>, symbol: &Symbol<'_>) -> Result<(), AllocError>
    ensures { OnOk result (out.new.items ≡ out.old.items ++ symbol_text (symbol_of symbol.now)) }
{
    out.extend_from_slice(&head(symbol.index().0, symbol.raw_kind()))?;
    put_record(alloc, out, symbol)
}

/// The lines of the symbols that an iterator has left, and then that of its fault.
fn put_symbols(
    alloc: Global,
    out: &mut Vec<u8>,
    mut symbols: SymbolIter<'_>,
) -> Result<(), AllocError>
    ensures { OnOk result (out.new.items ≡ out.old.items ++ symbols_text (symbols_left symbols.entry)) }
{
    loop {
        match symbols.next() {
            Ok(Some(symbol)) => put_symbol(alloc, out, &symbol)?,
            Ok(None) => return Ok(()),
            Err(e) => return put_error(out, e.number()),
        }
    }
}

/// The lines of the global symbols, or of their error.
#[tactic(auto, unfolding(crate::specs::Texts::globals_text))]
pub fn put_globals<'s, S: Source<'s>>(
    alloc: Global,
    out: &mut Vec<u8>,
    pdb: &mut PDB<'s, S>,
) -> Result<(), AllocError>
    ensures continues { Continues pdb.old pdb.new }
    ensures text { pdb.new.told ≡ true → Unfailed pdb.old pdb.new → OnOk result (out.new.items ≡ out.old.items ++ globals_text pdb.old.file) }
{
    match pdb.global_symbols() {
        Ok(table) => put_symbols(alloc, out, table.iter()),
        Err(e) => put_refusal(out, e),
    }
}

/// The lines of a module's symbols, or of their error.
#[tactic(auto, unfolding(crate::specs::ModuleTexts::symbols_of_text))]
pub fn put_symbols_of(
    alloc: Global,
    out: &mut Vec<u8>,
    info: &ModuleInfo<'_>,
) -> Result<(), AllocError>
    ensures { OnOk result (out.new.items ≡ out.old.items ++ symbols_of_text info.now) }
{
    match info.symbols() {
        Ok(symbols) => put_symbols(alloc, out, symbols),
        Err(e) => put_refusal(out, e),
    }
}
