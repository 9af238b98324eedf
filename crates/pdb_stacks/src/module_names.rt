//! Names of modules, which tools write in several ways.

ghost use Rattle.std.specs.Prelude.{◌≡◌, length, map};
ghost use Rattle.std.specs.Str.{bytes_eq};
ghost use Rattle.pdb_stacks.specs.ModuleNames.{folded, is_end, is_word, same_module, stem};

/// Whether a text is a word, in any case.
fn is_word(text: &[u8], word: &[u8]) -> bool
    ensures { result ≡ is_word text.now word.now }
{
    text.eq_ignore_ascii_case(word)
}

/// Whether a text is an end that names of modules have, in any case.
#[tactic(auto, unfolding(crate::specs::ModuleNames::is_end))]
fn is_end(end: &[u8]) -> bool
    ensures { result ≡ is_end end.now }
{
    is_word(end, b".exe")
        || is_word(end, b".dll")
        || is_word(end, b".sys")
        || is_word(end, b".ocx")
        || is_word(end, b".drv")
        || is_word(end, b".pdb")
}

/// A name without its end, unless that is the whole name.
#[tactic(auto, unfolding(crate::specs::ModuleNames::stem))]
fn stem(name: &[u8]) -> &[u8]
    ensures { result.now ≡ stem name.now }
{
    if name.len() <= 4 {
        return name;
    }
    let (stem, end) = name.split_at(name.len() - 4);
    if is_end(end) { stem } else { name }
}

/// A byte as names are compared: in lower case, and `_` for one that isn't a letter, a digit, or not ASCII.
#[tactic(auto, unfolding(crate::specs::ModuleNames::folded))]
fn folded(byte: u8) -> u8
    ensures { result ≡ folded byte }
{
    if byte.is_ascii_alphanumeric() || byte >= 128 {
        byte.to_ascii_lowercase()
    } else {
        b'_'
    }
}

/// Whether two texts are equal as names are compared.
fn are_alike(a: &[u8], b: &[u8]) -> bool
    ensures { result ≡ bytes_eq (map folded a.now) (map folded b.now) }
{
    if a.len() != b.len() {
        return false;
    }
    for (index, byte) in a.iter().enumerate() {
        if folded(*byte) != folded(b[index]) {
            return false;
        }
    }
    true
}

/// Whether two names are of one module: without one end as `.exe`, in any case, and with `_` for each byte that isn't a
/// letter, a digit, or not ASCII. A debugger writes `test_pdb` for `test-pdb.exe`.
pub fn same_module(a: &[u8], b: &[u8]) -> bool
    ensures { result ≡ same_module a.now b.now }
{
    are_alike(stem(a), stem(b))
}
