//! The lines of `key`: of a PDB, and of an image with the PDB that it names.

ghost use Rattle.std.specs.Prelude.{◌≡◌, ◌≢◌, ◌↔◌, ◌<◌, ◌++◌, true, false, Ok, Err, IfOk, IfErr, IsErrOf, OnOk, Option, ⊤};
ghost use Rattle.std.specs.Option.{option_map};
ghost use Rattle.pdb.specs.Error.{Error};
ghost use Rattle.pdb.specs.Keys.{key_of_file};
ghost use Rattle.pdb.specs.Refusal.{Gives};
ghost use Rattle.pdb.specs.Source.{Continues, MayFail, view_bytes};
ghost use Rattle.pdb_image.specs.Headers.{is_image};
ghost use Rattle.pdb_image.specs.Images.{image_of, reference, said};
ghost use Rattle.tool_program.specs.Hosts.{OfKnown, OfSource, StopsAs};
ghost use Rattle.tool_program.specs.KeyLines.{StopsLine, file_key as file_key_of, image_in as line_of_image, image_key as image_key_of, image_line as image_line_of, image_text as text_of_image, key_line as key_line_of, pdb_in as line_of_pdb, pdb_named, pdb_text as text_of_pdb};
ghost use Rattle.tool_program.specs.OwnKeys.{own_key};
ghost use Rattle.tool_program.specs.Wanted.{StopsImage, wants_in as wants_there, wants_view};
ghost use Rattle.tool_output.specs.Stops.{StopsComposing, StopsOpening};
ghost use Rattle.tool_output.specs.declared.stop.Stop.{Stop};

use crate::key_objects::{image_object, pdb_object};
use crate::key_paths::{image_paths, pdb_path};
use crate::wanted::{ImageWants, wants_in};
use bumpalo::Bump;
use pdb::{Error, Source, SourceSlice, View, key_of, key_text, put_hex_bytes};
use pdb_file::{KnownFile, ReadAt, ReadingSource};
use pdb_image::{Image, PdbReference, is_image};
use pdb_text::put_one_line;
use std::alloc::{AllocError, Global};
use tool_arguments::options::KeyFormat;
use tool_fields::values::put_behind_blank;
use tool_output::stop::{Stop, stop_of_opening};

/// An image's own key: its time stamp in eight upper hex digits, and its size in lower ones.
#[tactic(auto, unfolding(crate::specs::OwnKeys::own_key))]
pub fn put_own_key(
    alloc: Global,
    out: &mut Vec<u8>,
    stamp: u32,
    size: u32,
) -> Result<(), AllocError>
    ensures { OnOk result (out.new.items ≡ out.old.items ++ own_key stamp size) }
{
    let bytes = [
        (stamp / 0x100_0000) as u8,
        (stamp / 0x1_0000 % 256) as u8,
        (stamp / 256 % 256) as u8,
        (stamp % 256) as u8,
    ];
    put_hex_bytes(out, &bytes)?;
    let text = format!(in alloc; "{size:x}")?;
    out.extend_from_slice(text.as_bytes())
}

/// The key and the path of the PDB that an image names.
fn put_pdb(
    alloc: Global,
    out: &mut Vec<u8>,
    pdb: Option<PdbReference<'_>>,
) -> Result<(), AllocError>
    ensures { OnOk result (out.new.items ≡ out.old.items ++ pdb_named (option_map reference pdb.entry)) }
{
    let Some(pdb) = pdb else {
        return out.extend_from_slice(b"- -");
    };
    out.extend_from_slice(&key_text(alloc, &pdb.guid, pdb.age)?)?;
    put_behind_blank(out, pdb.path)
}

/// The line of an image.
#[tactic(auto, unfolding(crate::specs::KeyLines::image_text))]
fn image_text(alloc: Global, image: Image<'_>, name: &[u8]) -> Result<Vec<u8>, AllocError>
    ensures { IfOk result (λ v. v.items ≡ text_of_image name.now (said image.entry)) }
{
    let mut out = Vec::new(alloc);
    put_own_key(alloc, &mut out, image.time_stamp, image.size)?;
    out.push(b' ')?;
    put_one_line(&mut out, name)?;
    out.push(b' ')?;
    put_pdb(alloc, &mut out, image.pdb)?;
    out.push(b'\n')?;
    Ok(out)
}

/// The line of an image, in a format.
fn image_in(
    alloc: Global,
    format: KeyFormat,
    image: Image<'_>,
    name: &[u8],
) -> Result<Vec<u8>, AllocError>
    ensures { IfOk result (λ v. v.items ≡ line_of_image format name.now (said image.entry)) }
{
    match format {
        KeyFormat::Names => image_text(alloc, image, name),
        KeyFormat::Paths => image_paths(alloc, image, name),
        KeyFormat::Json => image_object(alloc, image, name),
    }
}

/// The line of an image's bytes.
fn image_line(alloc: Global, format: KeyFormat, bytes: &[u8], name: &[u8]) -> Result<Vec<u8>, Stop>
    ensures line { IfOk result (λ v. image_line_of format name.now (image_of bytes.now) ≡ Ok v.items) }
    ensures stopped { (s : Stop) → s ≢ Stop.Memory → IsErrOf result s → image_line_of format name.now (image_of bytes.now) ≡ Err s }
    ensures stops { IfErr result (StopsLine ⊥) }
{
    match Image::parse(bytes) {
        Ok(image) => Ok(image_in(alloc, format, image, name)?),
        Err(e) => Err(Stop::Image(e)),
    }
}

/// The line of a PDB with this key.
fn pdb_text(alloc: Global, key: &[u8], name: &[u8]) -> Result<Vec<u8>, AllocError>
    ensures { IfOk result (λ v. v.items ≡ text_of_pdb name.now key.now) }
{
    let mut out = Vec::new(alloc);
    out.extend_from_slice(key)?;
    out.push(b' ')?;
    put_one_line(&mut out, name)?;
    out.push(b'\n')?;
    Ok(out)
}

/// The line of a PDB with this key, in a format.
fn pdb_in(alloc: Global, format: KeyFormat, key: &[u8], name: &[u8]) -> Result<Vec<u8>, AllocError>
    ensures { IfOk result (λ v. v.items ≡ line_of_pdb format name.now key.now) }
{
    match format {
        KeyFormat::Names => pdb_text(alloc, key, name),
        KeyFormat::Paths => pdb_path(alloc, key, name),
        KeyFormat::Json => pdb_object(alloc, key, name),
    }
}

/// Whether an error is that of a file that ends early.
fn is_end(e: Error) -> bool
    ensures { (result ≡ true) ↔ (e ≡ Error.UnexpectedEof) }
{
    matches!(e, Error::UnexpectedEof)
}

/// Whether the file of a source begins as an image does.
fn begins_as_image<'s, S: Source<'s>>(alloc: Global, source: &mut S) -> Result<bool, Error>
    ensures continues { Continues (S.state source.old) (S.state source.new) }
    ensures failed { IsErrOf result Error.IoError → MayFail (S.state source.old) (S.state source.new) }
    ensures image { (S.state source.new).told ≡ true → Gives (λ b. b) (MayFail (S.state source.old) (S.state source.new)) result (Ok (is_image (S.state source.old).file)) }
{
    let front = SourceSlice { offset: 0, size: 2 };
    match source.view(alloc, &[front]) {
        Ok(front) => Ok(is_image(front.as_slice())),
        Err(e) if is_end(e) => Ok(false),
        Err(e) => Err(e),
    }
}

/// All bytes of a source's file of this size.
fn whole<'s, S: Source<'s>>(alloc: Global, source: &mut S, size: u64) -> Result<View<'s>, Stop>
    ensures bytes { OfSource (S.state source.old) size (λ F. IfOk result (λ v. view_bytes v ≡ F)) }
    ensures stops { OfSource (S.state source.old) size (λ _. IfErr result (StopsComposing (MayFail (S.state source.old) (S.state source.new)))) }
    ensures opening { IfErr result (StopsOpening (MayFail (S.state source.old) (S.state source.new))) }
{
    let all = SourceSlice {
        offset: 0,
        size: size as usize,
    };
    match source.view(alloc, &[all]) {
        Ok(bytes) => Ok(bytes),
        Err(e) => Err(stop_of_opening(e)),
    }
}

/// The line of a source's file of this size: of an image if it begins with `MZ`, of which all is viewed; else of a
/// PDB, of which no more is viewed than its key asks for.
#[tactic(auto, unfolding(crate::specs::KeyLines::key_line))]
fn line_of<'s, S: Source<'s>>(
    alloc: Global,
    format: KeyFormat,
    mut source: S,
    size: u64,
    name: &[u8],
) -> Result<Vec<u8>, Stop>
    ensures line { OfSource (S.state source) size (λ F. IfOk result (λ v. key_line_of format name.now F ≡ Ok v.items)) }
    ensures stopped { OfSource (S.state source) size (λ F. StopsAs result (key_line_of format name.now F)) }
    ensures steady { IsErrOf result Stop.Read → (S.state source).steady ≡ false }
    ensures stops { IfErr result (StopsLine ⊤) }
{
    if begins_as_image(alloc, &mut source).map_err(stop_of_opening)? {
        let bytes = whole(alloc, &mut source, size)?;
        return image_line(alloc, format, bytes.as_slice(), name);
    }
    let key = key_of(alloc, source).map_err(stop_of_opening)?;
    Ok(pdb_in(alloc, format, &key, name)?)
}

/// The line of a file of this size and name: of an image if it begins with `MZ`, else of a PDB, of which no more is
/// read than its key asks for.
pub fn key_line<R: ReadAt>(
    alloc: Global,
    format: KeyFormat,
    bytes: &R,
    size: u64,
    name: &[u8],
) -> Result<Vec<u8>, Stop>
    ensures line { OfKnown (R.known bytes.now) size (λ F. IfOk result (λ v. key_line_of format name.now F ≡ Ok v.items)) }
    ensures stopped { OfKnown (R.known bytes.now) size (λ F. StopsAs result (key_line_of format name.now F)) }
    ensures steady { R.is_steady bytes.now ≡ true → OfKnown (R.known bytes.now) size (λ F. IsErrOf result Stop.Read → ⊥) }
    ensures stops { IfErr result (StopsLine ⊤) }
{
    let arena = Bump::new(alloc);
    let file = KnownFile::new(bytes);
    let source = ReadingSource::new(alloc, &arena, bytes, &file, size);
    line_of(alloc, format, source, size, name)
}

/// Whether a file of this size is an image: it begins with `MZ`.
pub fn is_image_file<R: ReadAt>(alloc: Global, bytes: &R, size: u64) -> Result<bool, Stop>
    ensures image { OfKnown (R.known bytes.now) size (λ F. IfOk result (λ b. b ≡ is_image F)) }
    ensures stops { IfErr result (StopsOpening ⊤) }
{
    let arena = Bump::new(alloc);
    let file = KnownFile::new(bytes);
    let mut reading = ReadingSource::new(alloc, &arena, bytes, &file, size);
    match begins_as_image(alloc, &mut reading) {
        Ok(is_image) => Ok(is_image),
        Err(e) => Err(stop_of_opening(e)),
    }
}

/// The key of a PDB of this size, of which no more is read than the key asks for.
pub fn pdb_key<R: ReadAt>(alloc: Global, bytes: &R, size: u64) -> Result<Vec<u8>, Stop>
    ensures key { OfKnown (R.known bytes.now) size (λ F. IfOk result (λ v. key_of_file F ≡ Ok v.items)) }
    ensures stops { IfErr result (StopsOpening ⊤) }
{
    let arena = Bump::new(alloc);
    let file = KnownFile::new(bytes);
    let source = ReadingSource::new(alloc, &arena, bytes, &file, size);
    match key_of(alloc, source) {
        Ok(key) => Ok(key),
        Err(e) => Err(stop_of_opening(e)),
    }
}

/// The key of an image's bytes.
fn image_key(alloc: Global, bytes: &[u8]) -> Result<Vec<u8>, Stop>
    ensures key { IfOk result (λ v. image_key_of (image_of bytes.now) ≡ Ok v.items) }
    ensures stopped { (s : Stop) → s ≢ Stop.Memory → IsErrOf result s → image_key_of (image_of bytes.now) ≡ Err s }
    ensures stops { IfErr result (StopsLine ⊥) }
{
    let image = match Image::parse(bytes) {
        Ok(image) => image,
        Err(e) => return Err(Stop::Image(e)),
    };
    let mut key = Vec::new(alloc);
    put_own_key(alloc, &mut key, image.time_stamp, image.size)?;
    Ok(key)
}

/// The key under which a store has a source's file of this size: of an image, which is viewed whole, its own.
#[tactic(auto, unfolding(crate::specs::KeyLines::file_key))]
fn key_of_source<'s, S: Source<'s>>(
    alloc: Global,
    mut source: S,
    size: u64,
) -> Result<Vec<u8>, Stop>
    ensures key { OfSource (S.state source) size (λ F. IfOk result (λ v. file_key_of F ≡ Ok v.items)) }
    ensures stopped { OfSource (S.state source) size (λ F. StopsAs result (file_key_of F)) }
    ensures steady { IsErrOf result Stop.Read → (S.state source).steady ≡ false }
    ensures stops { IfErr result (StopsLine ⊤) }
{
    let is_image = begins_as_image(alloc, &mut source).map_err(stop_of_opening)?;
    if is_image {
        let bytes = whole(alloc, &mut source, size)?;
        return image_key(alloc, bytes.as_slice());
    }
    key_of(alloc, source).map_err(stop_of_opening)
}

/// The key under which a store has a file of this size: of an image its own, else that of the PDB.
pub fn file_key<R: ReadAt>(alloc: Global, bytes: &R, size: u64) -> Result<Vec<u8>, Stop>
    ensures key { OfKnown (R.known bytes.now) size (λ F. IfOk result (λ v. file_key_of F ≡ Ok v.items)) }
    ensures stopped { OfKnown (R.known bytes.now) size (λ F. StopsAs result (file_key_of F)) }
    ensures steady { R.is_steady bytes.now ≡ true → OfKnown (R.known bytes.now) size (λ F. IsErrOf result Stop.Read → ⊥) }
    ensures stops { IfErr result (StopsLine ⊤) }
{
    let arena = Bump::new(alloc);
    let file = KnownFile::new(bytes);
    let source = ReadingSource::new(alloc, &arena, bytes, &file, size);
    key_of_source(alloc, source, size)
}

/// What an image of this size wants.
pub fn image_wants<R: ReadAt>(alloc: Global, bytes: &R, size: u64) -> Result<ImageWants, Stop>
    ensures wants { OfKnown (R.known bytes.now) size (λ F. IfOk result (λ w. wants_there F ≡ Ok (wants_view w))) }
    ensures stopped { OfKnown (R.known bytes.now) size (λ F. StopsAs result (wants_there F)) }
    ensures steady { R.is_steady bytes.now ≡ true → OfKnown (R.known bytes.now) size (λ F. IsErrOf result Stop.Read → ⊥) }
    ensures stops { IfErr result (StopsImage ⊤) }
{
    let arena = Bump::new(alloc);
    let file = KnownFile::new(bytes);
    let mut source = ReadingSource::new(alloc, &arena, bytes, &file, size);
    let all = whole(alloc, &mut source, size)?;
    wants_in(alloc, all.as_slice())
}
