//! What the streams of a file are: what the container fixes, their names, and their fields in the DBI stream.

ghost use Rattle.std.specs.Prelude.{◌≡◌, ◌++◌, ◌<◌, OnOk, map};
ghost use Rattle.std.specs.Ordering.{nat_cmp};
ghost use Rattle.std.specs.List.Sorted.{IsNonDecreasingBy, IsStableByKey};
ghost use Rattle.pdb.specs.DbiViews.{modules_left, modules_steps};
ghost use Rattle.tool_lists.specs.StreamRoles.{extra_roles, first_extra_roles, fixed_roles, hash_roles, header_roles, indexed, known_text, label_of, later_extra_roles, line_text, module_roles, name_of, name_roles, named, role_view, stream_number, whole_text};

use pdb::{
    DBIExtraStreams, DBIHeader, FallibleIterator, ModuleIter, RawString, StreamIndex, StreamNames,
};
use pdb_base::little_endian::u16_at;
use pdb_text::put_decimal;
use std::alloc::AllocError;
use tool_fields::values::put_behind_blank;

/// What a stream is that has one number in every file, or one field of a header.
#[derive(Clone, Copy, Debug, PartialEq, Eq)]
pub enum Known {
    /// Stream 0.
    OldDirectory,
    /// Stream 1.
    Information,
    /// Stream 2.
    Types,
    /// Stream 3.
    DebugInformation,
    /// Stream 4.
    Ids,
    /// The index of global symbols, in the header of the DBI stream.
    GlobalIndex,
    /// The index of public symbols, in the header of the DBI stream.
    PublicIndex,
    /// The records of global symbols, in the header of the DBI stream.
    GlobalSymbols,
    /// Frame pointer omission.
    Fpo,
    /// Exception data.
    Exception,
    /// Fixups.
    Fixup,
    /// The address map to the original image.
    OmapToSrc,
    /// The address map from the original image.
    OmapFromSrc,
    /// Section headers.
    SectionHeaders,
    /// Tokens and their record ids, of .NET.
    TokenRidMap,
    /// Unwind data.
    Xdata,
    /// Function entries.
    Pdata,
    /// Frame data.
    Framedata,
    /// Section headers of the original image.
    OriginalSectionHeaders,
    /// Hashes of types.
    TypeHashes,
    /// Further hashes of types.
    FurtherTypeHashes,
    /// Hashes of ids.
    IdHashes,
    /// Further hashes of ids.
    FurtherIdHashes,
}

impl Known {
    /// The text of what a stream is.
    fn as_str(self) -> &'static str
        ensures { result.now ≡ known_text self }
    {
        match self {
            Known::Fpo => "fpo",
            Known::Exception => "exception",
            Known::Fixup => "fixup",
            Known::OmapToSrc => "omap to src",
            Known::OmapFromSrc => "omap from src",
            Known::SectionHeaders => "section headers",
            Known::TokenRidMap => "token rid map",
            Known::Xdata => "xdata",
            Known::Pdata => "pdata",
            Known::Framedata => "framedata",
            Known::OriginalSectionHeaders => "original section headers",
            Known::OldDirectory => "old directory",
            Known::Information => "information",
            Known::Types => "types",
            Known::DebugInformation => "debug information",
            Known::Ids => "ids",
            Known::GlobalIndex => "index of global symbols",
            Known::PublicIndex => "index of publics",
            Known::GlobalSymbols => "global symbols",
            Known::TypeHashes => "hashes of types",
            Known::FurtherTypeHashes => "further hashes of types",
            Known::IdHashes => "hashes of ids",
            Known::FurtherIdHashes => "further hashes of ids",
        }
    }
}

/// What a stream is.
#[derive(Clone, Copy, Debug)]
pub enum What<'a> {
    /// By its number, or by a field of a header.
    Known(Known),
    /// The stream of a name.
    Name(RawString<'a>),
    /// The stream of the module with this index.
    Module(u64),
}

/// Puts what a stream is, without the name that it has.
fn put_label(out: &mut Vec<u8>, what: What<'_>) -> Result<(), AllocError>
    ensures { OnOk result (out.new.items ≡ out.old.items ++ label_of what.entry) }
{
    match what {
        What::Known(known) => out.extend_from_slice(known.as_str().as_bytes()),
        What::Name(_) => out.extend_from_slice(b"name"),
        What::Module(k) => {
            out.extend_from_slice(b"module ")?;
            put_decimal(out, k)
        }
    }
}

/// The name that a stream has; empty if it has none.
fn name_of(what: What<'_>) -> &[u8]
    ensures { result.now ≡ name_of what.entry }
{
    match what {
        What::Name(name) => name.as_bytes(),
        What::Known(_) | What::Module(_) => &[],
    }
}

/// Puts what a stream is, on one line.
pub fn put_what(out: &mut Vec<u8>, what: What<'_>) -> Result<(), AllocError>
    ensures { OnOk result (out.new.items ≡ out.old.items ++ line_text (label_of what.entry) (name_of what.entry)) }
{
    put_label(out, what)?;
    put_behind_blank(out, name_of(what))
}

/// The same with its name as it is.
pub fn put_whole(out: &mut Vec<u8>, what: What<'_>) -> Result<(), AllocError>
    ensures { OnOk result (out.new.items ≡ out.old.items ++ whole_text (label_of what.entry) (name_of what.entry)) }
{
    put_label(out, what)?;
    let name = name_of(what);
    if name.is_empty() {
        return Ok(());
    }
    out.push(b' ')?;
    out.extend_from_slice(name)
}

/// A stream, and what it is.
#[derive(Clone, Copy, Debug)]
pub struct Role<'a> {
    /// Its number.
    pub stream: u32,
    /// What it is.
    pub what: What<'a>,
}

/// The number by which a role is sorted.
fn stream_number(role: &Role<'_>) -> u32
    ensures { result ≡ stream_number role.now }
{
    role.stream
}

/// That a stream is something, unless the index is that of no stream.
fn put_role<'a>(
    roles: &mut Vec<Role<'a>>,
    index: StreamIndex,
    what: What<'a>,
) -> Result<(), AllocError>
    ensures { OnOk result (map role_view roles.new.items ≡ map role_view roles.old.items ++ named (label_of what.entry) (name_of what.entry) index.0) }
{
    match index.msf_number() {
        Some(stream) => Ok(roles.push(Role { stream, what })?),
        None => Ok(()),
    }
}

/// The same of what is one stream.
fn put_known(roles: &mut Vec<Role<'_>>, index: StreamIndex, known: Known) -> Result<(), AllocError>
    ensures { OnOk result (map role_view roles.new.items ≡ map role_view roles.old.items ++ indexed (known_text known) index.0) }
{
    put_role(roles, index, What::Known(known))
}

/// The streams that have one index in every file.
pub fn put_fixed(roles: &mut Vec<Role<'_>>) -> Result<(), AllocError>
    ensures { OnOk result (map role_view roles.new.items ≡ map role_view roles.old.items ++ fixed_roles) }
{
    put_known(roles, StreamIndex(0), Known::OldDirectory)?;
    put_known(roles, StreamIndex(1), Known::Information)?;
    put_known(roles, StreamIndex(2), Known::Types)?;
    put_known(roles, StreamIndex(3), Known::DebugInformation)?;
    put_known(roles, StreamIndex(4), Known::Ids)
}

/// The streams that have names.
pub fn put_names<'a>(roles: &mut Vec<Role<'a>>, names: &StreamNames<'a>) -> Result<(), AllocError>
    ensures { OnOk result (map role_view roles.new.items ≡ map role_view roles.old.items ++ name_roles names.entry.now) }
{
    for name in names.iter() {
        put_role(roles, name.stream_id, What::Name(name.name))?;
    }
    Ok(())
}

/// The streams that the header of the DBI stream names.
pub fn put_header(roles: &mut Vec<Role<'_>>, header: DBIHeader) -> Result<(), AllocError>
    ensures { OnOk result (map role_view roles.new.items ≡ map role_view roles.old.items ++ header_roles header) }
{
    put_known(roles, header.gs_symbols_stream, Known::GlobalIndex)?;
    put_known(roles, header.ps_symbols_stream, Known::PublicIndex)?;
    put_known(roles, header.symbol_records_stream, Known::GlobalSymbols)
}

/// The first five of the DBI stream's further streams.
fn put_first_extra(roles: &mut Vec<Role<'_>>, extra: &DBIExtraStreams) -> Result<(), AllocError>
    ensures { OnOk result (map role_view roles.new.items ≡ map role_view roles.old.items ++ first_extra_roles extra.now) }
{
    put_known(roles, extra.fpo, Known::Fpo)?;
    put_known(roles, extra.exception, Known::Exception)?;
    put_known(roles, extra.fixup, Known::Fixup)?;
    put_known(roles, extra.omap_to_src, Known::OmapToSrc)?;
    put_known(roles, extra.omap_from_src, Known::OmapFromSrc)
}

/// The later ones.
fn put_later_extra(roles: &mut Vec<Role<'_>>, extra: &DBIExtraStreams) -> Result<(), AllocError>
    ensures { OnOk result (map role_view roles.new.items ≡ map role_view roles.old.items ++ later_extra_roles extra.now) }
{
    put_known(roles, extra.section_headers, Known::SectionHeaders)?;
    put_known(roles, extra.token_rid_map, Known::TokenRidMap)?;
    put_known(roles, extra.xdata, Known::Xdata)?;
    put_known(roles, extra.pdata, Known::Pdata)?;
    put_known(roles, extra.framedata, Known::Framedata)?;
    put_known(
        roles,
        extra.original_section_headers,
        Known::OriginalSectionHeaders,
    )
}

/// The DBI stream's further streams.
pub fn put_extra(roles: &mut Vec<Role<'_>>, extra: &DBIExtraStreams) -> Result<(), AllocError>
    ensures { OnOk result (map role_view roles.new.items ≡ map role_view roles.old.items ++ extra_roles extra.now) }
{
    put_first_extra(roles, extra)?;
    put_later_extra(roles, extra)
}

/// The streams of the modules that an iterator has left.
pub fn put_modules(roles: &mut Vec<Role<'_>>, mut modules: ModuleIter<'_>) -> Result<(), AllocError>
    requires { modules_steps modules ≡ 0 }
    ensures { OnOk result (map role_view roles.new.items ≡ map role_view roles.old.items ++ module_roles 0 (modules_left modules.entry).items) }
{
    let mut k = 0;
    loop {
        match modules.next() {
            Ok(Some(module)) => put_role(roles, module.stream(), What::Module(k))?,
            Ok(None) => return Ok(()),
            Err(_) => return Ok(()),
        }
        k += 1;
    }
}

/// The streams of hashes that the header of a stream of types or ids names.
pub fn put_hashes(
    roles: &mut Vec<Role<'_>>,
    items: &[u8],
    hashes: Known,
    further: Known,
) -> Result<(), AllocError>
    ensures { OnOk result (map role_view roles.new.items ≡ map role_view roles.old.items ++ hash_roles (known_text hashes) (known_text further) items.now) }
{
    if items.len() < 56 {
        return Ok(());
    }
    put_known(roles, StreamIndex(u16_at(items, 20)), hashes)?;
    put_known(roles, StreamIndex(u16_at(items, 22)), further)
}

/// Sorts roles by their streams. Those of one stream keep their order.
pub fn sort(roles: &mut Vec<Role<'_>>) -> Result<(), AllocError>
    ensures rises { OnOk result (IsNonDecreasingBy stream_number roles.new.items) }
    ensures stable { OnOk result (IsStableByKey stream_number nat_cmp roles.old.items roles.new.items) }
{
    match roles.sort_by_key(|role| stream_number(role)) {
        Ok(()) => Ok(()),
        Err(_) => Err(AllocError),
    }
}
