//! The lines of what is wrong with a file.

ghost use Rattle.std.specs.Prelude.{◌≡◌, ◌≢◌, ◌++◌, ◌⊎◌, codes, OnOk, IfOk, IfErr, IsErrOf};
ghost use Rattle.pdb.specs.Error.{Error};
ghost use Rattle.pdb.specs.Views.{symbol_of};
ghost use Rattle.tool_check.specs.Checks.{is_damage, refused_of};
ghost use Rattle.tool_check.specs.CheckTexts.{at_index, damage_text, fault_text};
ghost use Rattle.tool_output.specs.Stops.{StopsComposing};
ghost use Rattle.tool_output.specs.declared.stop.Stop.{Stop};

use crate::subject::Subject;
use pdb::{Error, FallibleIterator, Symbol, SymbolIndex};
use pdb_records::Record;
use pdb_text::put_hex8;
use std::alloc::{AllocError, Global};
use tool_output::error_line::put_message;
use tool_output::stop::Stop;

/// Whether an error is damage, and not of what isn't there, or of a kind of symbol without a format.
fn is_damage(e: Error) -> bool
    ensures { result ≡ is_damage e }
{
    match e {
        Error::StreamNameNotFound
        | Error::GlobalSymbolsNotFound
        | Error::UnimplementedSymbolKind(_) => false,
        _ => true,
    }
}

/// The line of an error, if it is damage.
pub fn put_damage(
    out: &mut Vec<u8>,
    subject: &Subject<'_>,
    label: &[u8],
    e: Error,
) -> Result<(), AllocError>
    ensures { OnOk result (out.new.items ≡ out.old.items ++ damage_text subject.now label.now e) }
{
    if !is_damage(e) {
        return Ok(());
    }
    let mut message = Vec::new(*out.allocator());
    put_message(&mut message, e)?;
    subject.put_line(out, label, &message)
}

/// The label of a symbol or a type: behind a word stands its index.
pub fn label_at(alloc: Global, word: &[u8], index: u32) -> Result<Vec<u8>, AllocError>
    ensures { IfOk result (λ label. label.items ≡ at_index word.now index) }
{
    let mut label = Vec::new(alloc);
    label.extend_from_slice(word)?;
    put_hex8(&mut label, index)?;
    Ok(label)
}

/// The line of an error of a symbol or a type, if it is damage.
pub fn put_damage_at(
    alloc: Global,
    out: &mut Vec<u8>,
    subject: &Subject<'_>,
    word: &[u8],
    index: u32,
    e: Error,
) -> Result<(), AllocError>
    ensures { OnOk result (out.new.items ≡ out.old.items ++ damage_text subject.now (at_index word.now index) e) }
{
    let label = label_at(alloc, word, index)?;
    put_damage(out, subject, &label, e)
}

/// The same of the error of a record; out of memory, and a source that failed, are passed on.
pub fn put_refused_record(
    alloc: Global,
    out: &mut Vec<u8>,
    subject: &Subject<'_>,
    word: &[u8],
    index: SymbolIndex,
    e: Error,
) -> Result<(), Stop>
    ensures text { OnOk result ((e ≢ Error.OutOfMemory) × (e ≢ Error.IoError) × (out.new.items ≡ out.old.items ++ damage_text subject.now (at_index word.now index.0) e)) }
    ensures unwritten { IfErr result (StopsComposing (e ≡ Error.IoError)) }
{
    match e {
        Error::OutOfMemory => Err(Stop::Memory),
        Error::IoError => Err(Stop::Read),
        e if is_damage(e) => Ok(put_damage_at(alloc, out, subject, word, index.0, e)?),
        _ => Ok(()),
    }
}

/// The line of the error of a symbol's record that isn't one of a symbol's layouts: of such a kind it may be a further
/// record. Out of memory, and a source that failed, are passed on.
pub fn put_unparsed(
    alloc: Global,
    out: &mut Vec<u8>,
    subject: &Subject<'_>,
    word: &[u8],
    symbol: &Symbol<'_>,
    e: Error,
) -> Result<(), Stop>
    ensures text { OnOk result ((e ≢ Error.OutOfMemory) × (e ≢ Error.IoError) × (out.new.items ≡ out.old.items ++ fault_text subject.now (at_index word.now (symbol_of symbol.now).index) (refused_of (symbol_of symbol.now).bytes e))) }
    ensures unwritten { IfErr result (StopsComposing (e ≡ Error.IoError)) }
{
    let Error::UnimplementedSymbolKind(_) = e else {
        return put_refused_record(alloc, out, subject, word, symbol.index(), e);
    };
    match Record::parse(symbol) {
        Ok(_) => Ok(()),
        Err(e) => put_refused_record(alloc, out, subject, word, symbol.index(), e),
    }
}

/// The line of the error of a call that reads the file; out of memory, and a source that failed, are passed on.
pub fn put_refusal(
    out: &mut Vec<u8>,
    subject: &Subject<'_>,
    label: &[u8],
    e: Error,
) -> Result<(), Stop>
    ensures text { OnOk result ((e ≢ Error.OutOfMemory) × (e ≢ Error.IoError) × (out.new.items ≡ out.old.items ++ damage_text subject.now label.now e)) }
    ensures unwritten { IfErr result (StopsComposing (e ≡ Error.IoError)) }
{
    match e {
        Error::OutOfMemory => Err(Stop::Memory),
        Error::IoError => Err(Stop::Read),
        e => Ok(put_damage(out, subject, label, e)?),
    }
}

/// The line of the error of a result, if it has one.
pub fn put_answer<T: Drop>(
    out: &mut Vec<u8>,
    subject: &Subject<'_>,
    label: &[u8],
    answer: pdb::Result<T>,
) -> Result<(), Stop>
    ensures ok { IfOk answer (λ _. OnOk result (out.new.items ≡ out.old.items)) }
    ensures err { IfErr answer (λ e. OnOk result ((e ≢ Error.OutOfMemory) × (e ≢ Error.IoError) × (out.new.items ≡ out.old.items ++ damage_text subject.now label.now e))) }
    ensures unwritten { IfErr result (StopsComposing (IsErrOf answer Error.IoError)) }
{
    match answer {
        Ok(_) => Ok(()),
        Err(e) => put_refusal(out, subject, label, e),
    }
}

// piece: put_end
/// The line of a list's fault, if it has one.
pub fn put_end<I: FallibleIterator>(
    out: &mut Vec<u8>,
    subject: &Subject<'_>,
    label: &[u8],
    list: I,
) -> Result<(), AllocError>
    ensures { OnOk result (out.new.items ≡ out.old.items ++ fault_text subject.now label.now (I.left list).fault) }
{
    match list.count() {
        Ok(_) => Ok(()),
        Err(e) => put_damage(out, subject, label, e),
    }
}
// end

/// The line of a list's error or fault, if it has one.
pub fn put_list<I: FallibleIterator>(
    out: &mut Vec<u8>,
    subject: &Subject<'_>,
    label: &[u8],
    list: pdb::Result<I>,
) -> Result<(), Stop>
    ensures ok { IfOk list (λ it. OnOk result (out.new.items ≡ out.old.items ++ fault_text subject.now label.now (I.left it).fault)) }
    ensures err { IfErr list (λ e. OnOk result ((e ≢ Error.OutOfMemory) × (e ≢ Error.IoError) × (out.new.items ≡ out.old.items ++ damage_text subject.now label.now e))) }
    ensures unwritten { IfErr result (StopsComposing (IsErrOf list Error.IoError)) }
{
    match list {
        Ok(list) => Ok(put_end(out, subject, label, list)?),
        Err(e) => put_refusal(out, subject, label, e),
    }
}
