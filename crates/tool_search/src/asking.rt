//! What `where` looks for, and what it reads names and addresses from.

ghost use Rattle.std.specs.Prelude.{◌≡◌, ◌++◌, ◌&&◌, OnOk, IfOk, codes, map, option_copied};
ghost use Rattle.std.specs.Option.{option_map, unwrap_or};
ghost use Rattle.std.specs.Fmt.{decimal};
ghost use Rattle.pdb.specs.Qualified.{shown_qualified};
ghost use Rattle.pdb.specs.Text.{name_bytes};
ghost use Rattle.pdb_resolve.specs.Frames.{file_text, name_text};
ghost use Rattle.pdb_code.specs.ModuleCode.{name_at};
ghost use Rattle.tool_search.specs.FindTexts.{has_bytes as has_bytes_in};
ghost use Rattle.tool_arguments.specs.SourceViews.{source_view};
ghost use Rattle.tool_search.specs.WhereTexts.{asks_for_file, file_of_record, is_wanted, position_text, where_line, where_line_in};

use crate::find_texts::has_bytes;
use crate::finder::put_stretch;
use crate::found_objects::put_where_object;
use pdb::{
    ItemFinder, LineInfo, LineProgram, ModuleInfo, PdbInternalSectionOffset, QualifiedName,
    RawString, StringTable,
};
use pdb_resolve::{ModuleCode, PlaceAddresses, put_file, put_name};
use pdb_text::{put_decimal, put_line_end};
use std::alloc::{AllocError, Global};
use std::marker::Model;
use tool_arguments::options::OutputFormat;
use tool_arguments::sources_asked::{SourceAsked, asks_for};

/// The format of the lines, which lines are asked for, the tables that files and inlined functions have their names from,
/// and the addresses of places.
#[derive(Drop)]
pub struct Asking<'w, 'a> {
    pub format: OutputFormat,
    asked: &'w [SourceAsked<'w>],
    strings: Option<&'a StringTable<'a>>,
    pub ids: ItemFinder<'a>,
    pub types: ItemFinder<'a>,
    addresses: PlaceAddresses<'a>,
}

impl<'w, 'a> Model for Asking<'w, 'a> {
    ghost use Rattle.std.specs.Prelude.{map, option_copied};
    ghost use Rattle.tool_arguments.specs.SourceViews.{source_view};
    ghost use Rattle.tool_search.specs.WhereTexts.{Asking as AskingOf};

    ghost Value = { AskingOf };

    ghost view = { λ a. record { format = a.format; asked = map source_view a.asked.now; strings = option_copied a.strings; ids = a.ids; types = a.types; addresses = a.addresses } };
}

impl<'w, 'a> Asking<'w, 'a> {
    /// What is asked for by these words.
    pub fn new(
        format: OutputFormat,
        asked: &'w [SourceAsked<'w>],
        strings: Option<&'a StringTable<'a>>,
        ids: ItemFinder<'a>,
        types: ItemFinder<'a>,
        addresses: PlaceAddresses<'a>,
    ) -> Self
        ensures { result ≡ record { format = format; asked = map source_view asked.entry.now; strings = option_copied strings.entry; ids = ids.entry; types = types.entry; addresses = addresses.entry } }
    {
        Asking {
            format,
            asked,
            strings,
            ids,
            types,
            addresses,
        }
    }

    /// The name of the file of a record, where it is there.
    pub fn file_of(
        &self,
        program: Option<&LineProgram<'_>>,
        line: &LineInfo,
    ) -> Option<RawString<'a>>
        ensures { option_map name_bytes result ≡ file_of_record self.now (option_copied program.entry) line.now }
    {
        let file = program?.get_file_info(line.file_index).ok()?;
        self.strings?.get(file.name).ok()
    }

    /// Whether a record of this file has bytes, and is asked for.
    #[inline(always)]
    pub fn wants(&self, file: Option<RawString<'_>>, line: &LineInfo) -> bool
        ensures { result ≡ (has_bytes_in line.now && asks_for_file self.now.asked (option_map name_bytes file.entry) line.now.line_start) }
    {
        match file {
            Some(file) => has_bytes(line) && asks_for(self.asked, file.as_bytes(), line.line_start),
            None => false,
        }
    }

    /// The line of a record of this file, in the function of this name.
    #[tactic(auto, unfolding(crate::specs::WhereTexts::where_line))]
    fn put_where_line(
        &self,
        out: &mut Vec<u8>,
        kind: &[u8],
        line: &LineInfo,
        file: Option<RawString<'_>>,
        name: Option<QualifiedName<'_>>,
    ) -> Result<(), AllocError>
        ensures { OnOk result (out.new.items ≡ out.old.items ++ where_line kind.now self.now.addresses line.now (option_map name_bytes file.entry) (option_map shown_qualified name.entry)) }
    {
        out.extend_from_slice(kind)?;
        out.push(b' ')?;
        put_stretch(out, &self.addresses, line.offset, line.length)?;
        out.push(b' ')?;
        put_position(out, file, line)?;
        out.push(b' ')?;
        put_name(out, name)?;
        put_line_end(out)
    }

    /// The same in the format of the lines.
    pub fn put_where(
        &self,
        out: &mut Vec<u8>,
        kind: &[u8],
        line: &LineInfo,
        file: Option<RawString<'_>>,
        name: Option<QualifiedName<'_>>,
    ) -> Result<(), AllocError>
        ensures { OnOk result (out.new.items ≡ out.old.items ++ where_line_in self.now.format kind.now self.now.addresses line.now (option_map name_bytes file.entry) (option_map shown_qualified name.entry)) }
    {
        match self.format {
            OutputFormat::Text => self.put_where_line(out, kind, line, file, name),
            OutputFormat::Json => put_where_object(out, kind, &self.addresses, line, file, name),
        }
    }
}

/// FILE:LINE:COLUMN of a record.
fn put_position(
    out: &mut Vec<u8>,
    file: Option<RawString<'_>>,
    line: &LineInfo,
) -> Result<(), AllocError>
    ensures { OnOk result (out.new.items ≡ out.old.items ++ position_text (option_map name_bytes file.entry) line.now) }
{
    put_file(out, file)?;
    out.push(b':')?;
    put_decimal(out, u64::from(line.line_start))?;
    out.push(b':')?;
    put_decimal(out, u64::from(line.column_start.unwrap_or(0)))
}

/// The functions of a module, which are listed when the first one is asked for.
#[derive(Drop)]
pub struct FunctionsOf<'a> {
    info: &'a ModuleInfo<'a>,
    code: Option<ModuleCode<'a>>,
}

impl<'a> Model for FunctionsOf<'a> {
    ghost use Rattle.std.specs.Prelude.{◌≡◌, IfSome};
    ghost use Rattle.pdb.specs.ModuleStream.{ModuleBytes};

    ghost Value = { ModuleBytes };

    ghost view = { λ f. f.info.now };

    ghost invariant = { λ f. IfSome f.code (λ c. c ≡ f.info.now) };
}

impl<'a> FunctionsOf<'a> {
    /// The functions of a module, of which none is listed yet.
    pub fn new(info: &'a ModuleInfo<'a>) -> Self
        ensures { result ≡ info.entry.now }
    {
        FunctionsOf { info, code: None }
    }

    /// The name of the function at a place.
    pub fn name(
        &mut self,
        alloc: Global,
        place: PdbInternalSectionOffset,
    ) -> Result<Option<RawString<'a>>, AllocError>
        ensures stays { self.new ≡ self.old }
        ensures name { IfOk result (λ n. option_map name_bytes n ≡ name_at place self.old) }
    {
        if let Some(code) = &self.code {
            return code.function_name(alloc, place).map_err(|_| AllocError);
        }
        let code = ModuleCode::new(alloc, self.info).map_err(|_| AllocError)?;
        let name = code.function_name(alloc, place).map_err(|_| AllocError)?;
        self.code = Some(code);
        Ok(name)
    }
}
