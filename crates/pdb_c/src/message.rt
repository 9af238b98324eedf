//! Texts of the codes that calls return.

ghost use Rattle.std.specs.Prelude.{◌≡◌, ◌≤◌, map, codes};
ghost use Rattle.std.specs.Option.{option_map, unwrap_or};
ghost use Rattle.pdb_c.specs.Messages.{message_among, message_of};

use crate::names::PdbName;

/// The texts of the codes from 0 on: no error, and the errors of PDB files.
pub(crate) static FILE_MESSAGES: [&str; 23] = [
    "no error",
    "bytes that a format needs are not present",
    "a feature that this reader doesn't read",
    "no file of the container MSF 7.00",
    "the page size is no power of two from 256 to 8388608",
    "a page number that is no page of the file",
    "no stream of this number",
    "no stream of this name",
    "no stream of global symbols",
    "the address map lacks a table",
    "a length contradicts its format",
    "a symbol record is too short for its kind",
    "records of this kind are not read",
    "debug subsections of this kind are not read",
    "file checksums of this kind are not read",
    "no file checksum begins there",
    "a binary annotation of an unknown kind",
    "a binary annotation whose number is not spelled as annotations spell numbers",
    "an index that refers to no import",
    "the module doesn't have the import to which an index refers",
    "the prefix of a number is of no known kind",
    "the file can't be read",
    "out of memory",
];

/// The texts of the codes from 30 on: of calls, and the errors of images.
pub(crate) static CALL_MESSAGES: [&str; 9] = [
    "the list has ended",
    "a buffer is too small",
    "more bytes than a stream can have",
    "no stream of section headers",
    "no image: it doesn't begin with MZ",
    "the number at offset 60 doesn't lead to a PE signature",
    "the optional header of an image is that of neither PE32 nor PE32+",
    "the image names a PDB of version 2.00",
    "the debug record of an image begins with neither RSDS nor NB10",
];

/// The text of a code among those from a first one on.
fn message_among(messages: &'static [&'static str], first: u32, code: u32) -> Option<&'static str>
    requires { first ≤ code }
    ensures { option_map (λ s. s.now) result ≡ message_among (map (λ s. s.now) messages.now) first code }
{
    messages.get((code - first) as usize).copied()
}

/// The text of a code, where it has one.
#[tactic(auto, unfolding(crate::specs::Messages::message_of))]
fn message_of(code: u32) -> Option<&'static str>
    ensures { option_map (λ s. s.now) result ≡ message_of code }
{
    match code {
        0..30 => message_among(&FILE_MESSAGES, 0, code),
        _ => message_among(&CALL_MESSAGES, 30, code),
    }
}

/// The text of a code: English, in one line, without a period. A code that `include/pdb.h` doesn't have has `unknown
/// code`.
#[unsafe(no_mangle)]
pub extern "C" fn pdb_message<'a>(code: u32, out: &mut PdbName<'a>)
    ensures { out.new.bytes.now ≡ unwrap_or (message_of code) (codes "unknown code") }
{
    let message = message_of(code).unwrap_or("unknown code");
    *out = PdbName {
        bytes: message.as_bytes(),
    };
}
