//! The index of a named stream.

ghost use Rattle.std.specs.Prelude.{◌≡◌};
ghost use Rattle.std.specs.List.{find};
ghost use Rattle.std.specs.Option.{option_map};
ghost use Rattle.std.specs.Str.{bytes_eq};
ghost use Rattle.pdb_base.specs.Refusal.{Answers};
ghost use Rattle.pdb_dbi.specs.DbiViews.{stream_name};
ghost use Rattle.pdb.specs.Answers.{number_named};

use pdb_base::{Error, Result, StreamIndex};
use pdb_dbi::{StreamName, StreamNames};

/// The first name that is this one.
fn first_named<'a, 'n>(names: &'a StreamNames<'n>, name: &[u8]) -> Option<&'a StreamName<'n>>
    ensures { option_map (λ n. stream_name n.now) result ≡ find (λ n. bytes_eq n.name name.now) names.now }
{
    names.iter().find(|listed| listed.name.as_bytes() == name)
}

/// The index of the stream of the first name that is this one. It may be that of no stream.
pub(crate) fn index_named(names: &StreamNames<'_>, name: &[u8]) -> Result<StreamIndex>
    ensures { Answers (λ n. n.0) result (number_named names.now name.now) }
{
    match first_named(names, name) {
        Some(listed) => Ok(listed.stream_id),
        None => Err(Error::StreamNameNotFound),
    }
}
