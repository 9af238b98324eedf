//! What `find` looks for, and what it reads names and addresses from.

ghost use Rattle.std.specs.Prelude.{◌≡◌, ◌++◌, OnOk, codes, map};
ghost use Rattle.std.specs.List.{list_any};
ghost use Rattle.pdb.specs.Qualified.{shown_qualified};
ghost use Rattle.pdb.specs.Text.{name_bytes};
ghost use Rattle.pdb_resolve.specs.Frames.{qualified_text};
ghost use Rattle.pdb_text.specs.OneLine.{one_line};
ghost use Rattle.tool_arguments.specs.Operands.{word_of};
ghost use Rattle.tool_fields.specs.Values.{address_text, optional_text, place_text};
ghost use Rattle.tool_search.specs.FindTexts.{found_in, found_line, is_asked, line_if_asked, stretch_text};
ghost use Rattle.tool_arguments.specs.Wildcards.{matches as matches_of};
ghost use Rattle.std.specs.Prelude.{Some};

use crate::found_objects::put_found_object;
use pdb::{ItemFinder, PdbInternalSectionOffset, QualifiedName};
use pdb_resolve::PlaceAddresses;
use pdb_text::{put_decimal, put_line_end, put_one_line};
use std::alloc::AllocError;
use std::marker::Model;
use tool_arguments::operands::Operand;
use tool_arguments::options::OutputFormat;
use tool_arguments::wildcards::matches;
use tool_fields::values::{bare_place_field, place_field, put_address, put_optional, put_place};

/// The format of the lines, the patterns of the names that are asked for, the tables that inlined functions have their
/// names from, and the addresses of places.
#[derive(Drop)]
pub struct Finder<'w, 'a> {
    pub format: OutputFormat,
    words: &'w [Operand<'w>],
    pub ids: ItemFinder<'a>,
    pub types: ItemFinder<'a>,
    addresses: PlaceAddresses<'a>,
}

impl<'w, 'a> Model for Finder<'w, 'a> {
    ghost use Rattle.std.specs.Prelude.{map};
    ghost use Rattle.tool_search.specs.FindTexts.{Finding};
    ghost use Rattle.tool_arguments.specs.Operands.{word_of};

    ghost Value = { Finding };

    ghost view = { λ f. record { format = f.format; words = map word_of f.words.now; ids = f.ids; types = f.types; addresses = f.addresses } };
}

impl<'w, 'a> Finder<'w, 'a> {
    ghost use Rattle.tool_arguments.specs.Operands.{word_of};

    /// What is asked for by these words.
    pub fn new(
        format: OutputFormat,
        words: &'w [Operand<'w>],
        ids: ItemFinder<'a>,
        types: ItemFinder<'a>,
        addresses: PlaceAddresses<'a>,
    ) -> Self
        ensures { result ≡ record { format = format; words = map word_of words.entry.now; ids = ids.entry; types = types.entry; addresses = addresses.entry } }
    {
        Finder {
            format,
            words,
            ids,
            types,
            addresses,
        }
    }

    /// Whether a name is asked for. An empty one is not.
    #[inline(always)]
    pub fn is_asked(&self, name: &[u8]) -> bool
        ensures { result ≡ is_asked self.now.words name.now }
    {
        if name.is_empty() {
            return false;
        }
        is_any(self.words, name)
    }

    // What stands behind the kind on the line of what was found.
    #[inline(never)]
    fn put_behind_kind(
        &self,
        out: &mut Vec<u8>,
        place: PdbInternalSectionOffset,
        length: Option<u32>,
        name: &[u8],
    ) -> Result<(), AllocError>
        ensures { OnOk result (out.new.items ≡ out.old.items ++ (codes " " ++ stretch_text self.now.addresses place length ++ codes " " ++ one_line name.now ++ codes "\n")) }
    {
        put_stretch_field(out, place, self.addresses.address(place), length)?;
        put_one_line(out, name)?;
        put_line_end(out)
    }

    /// The line of what was found: its kind, where it stands, how many bytes it has, and its name.
    #[inline(always)]
    #[tactic(auto, unfolding(crate::specs::FindTexts::found_line))]
    fn put_found_line(
        &self,
        out: &mut Vec<u8>,
        kind: &[u8],
        place: PdbInternalSectionOffset,
        length: Option<u32>,
        name: &[u8],
    ) -> Result<(), AllocError>
        ensures { OnOk result (out.new.items ≡ out.old.items ++ found_line kind.now self.now.addresses place length name.now) }
    {
        out.extend_from_slice(kind)?;
        self.put_behind_kind(out, place, length, name)
    }

    /// The same in the format of the lines.
    #[inline(always)]
    pub fn put_found(
        &self,
        out: &mut Vec<u8>,
        kind: &[u8],
        place: PdbInternalSectionOffset,
        length: Option<u32>,
        name: &[u8],
    ) -> Result<(), AllocError>
        ensures { OnOk result (out.new.items ≡ out.old.items ++ found_in self.now.format kind.now self.now.addresses place length name.now) }
    {
        match self.format {
            OutputFormat::Text => self.put_found_line(out, kind, place, length, name),
            OutputFormat::Json => put_found_object(out, kind, &self.addresses, place, length, name),
        }
    }

    /// The line, where the name is asked for.
    #[inline(always)]
    pub fn put_if_asked(
        &self,
        out: &mut Vec<u8>,
        kind: &[u8],
        place: PdbInternalSectionOffset,
        length: Option<u32>,
        name: &[u8],
    ) -> Result<(), AllocError>
        ensures { OnOk result (out.new.items ≡ out.old.items ++ line_if_asked kind.now self.now place length name.now) }
    {
        if self.is_asked(name) {
            self.put_found(out, kind, place, length, name)
        } else {
            Ok(())
        }
    }
}

/// A name with the one before it.
pub fn put_qualified(out: &mut Vec<u8>, name: QualifiedName<'_>) -> Result<(), AllocError>
    ensures { OnOk result (out.new.items ≡ out.old.items ++ qualified_text (Some (shown_qualified name.entry))) }
{
    if let Some(scope) = name.scope {
        out.extend_from_slice(scope.as_bytes())?;
        out.extend_from_slice(b"::")?;
    }
    out.extend_from_slice(name.name.as_bytes())
}

/// Whether one of the patterns matches a name.
#[inline(always)]
#[tactic(auto, using(tool_arguments::proofs::SomeWord::any_here, tool_arguments::proofs::SomeWord::any_next, tool_arguments::proofs::SomeWord::any_none))]
fn is_any(words: &[Operand<'_>], name: &[u8]) -> bool
    ensures { result ≡ list_any (λ word. matches_of word name.now) (map word_of words.now) }
{
    for word in words {
        if matches(word.word.as_bytes(), name) {
            return true;
        }
    }
    false
}

/// A place, its address, and how many bytes are there, between blanks. Where there are neither, as in a file without
/// section headers, that is one append.
#[inline(always)]
fn put_stretch_field(
    out: &mut Vec<u8>,
    place: PdbInternalSectionOffset,
    address: Option<u32>,
    length: Option<u32>,
) -> Result<(), AllocError>
    ensures { OnOk result (out.new.items ≡ out.old.items ++ (codes " " ++ (place_text place ++ codes " " ++ address_text address ++ codes " " ++ optional_text length) ++ codes " ")) }
{
    match (address, length) {
        (None, None) => out.extend_from_slice(&bare_place_field(place)),
        (address, length) => {
            out.extend_from_slice(&place_field(place))?;
            put_address(out, address)?;
            put_length_field(out, length)
        }
    }
}

/// How many bytes are there, between blanks.
#[inline(always)]
fn put_length_field(out: &mut Vec<u8>, length: Option<u32>) -> Result<(), AllocError>
    ensures { OnOk result (out.new.items ≡ out.old.items ++ (codes " " ++ optional_text length ++ codes " ")) }
{
    match length {
        None => out.extend_from_slice(b" - "),
        Some(length) => {
            out.push(b' ')?;
            put_decimal(out, u64::from(length))?;
            Ok(out.push(b' ')?)
        }
    }
}

/// A place, its address, and how many bytes are there.
pub fn put_stretch(
    out: &mut Vec<u8>,
    addresses: &PlaceAddresses<'_>,
    place: PdbInternalSectionOffset,
    length: Option<u32>,
) -> Result<(), AllocError>
    ensures { OnOk result (out.new.items ≡ out.old.items ++ stretch_text addresses.now place length) }
{
    put_place(out, place)?;
    out.push(b' ')?;
    put_address(out, addresses.address(place))?;
    out.push(b' ')?;
    put_optional(out, length)
}
