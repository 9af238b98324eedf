//! What is left to read of a name of Microsoft's C++: its components, of which ten are kept for back-references, the
//! arguments of templates, and types. Types stand in one another at most 16 deep: `levels` says how many more may.

ghost use Rattle.std.specs.Prelude.{◌≡◌, ◌-◌, ◌+◌, ◌<◌, ◌≤◌, ◌==◌, ◌++◌, codes, drop, length, map, option_map, position, IfSome, OnOk, Some, slice_index, IsTrue};
ghost use Rattle.std.specs.List.{list_any, slice_get};
ghost use Rattle.pdb_names.specs.KeptNames.{again as repeated, begins_with_digit as digit_test, got, has_bytes, is_wanted, left, plain as plain_name, unnamed as unnamed_space, with_pair, word as word_there};
ghost use Rattle.pdb_names.specs.Numbers.{number_at as number_there};
ghost use Rattle.pdb_names.specs.Pieces.{Gives};
ghost use Rattle.pdb_names.specs.Reads.{Passed, Within};
ghost use Rattle.pdb_names.specs.Templates.{all_arguments as all_arguments_of, all_components as all_of, class_type as class_there, component as component_at, components as components_at, kept_template, listed, marked_type as marked_there, one_argument as argument_of, one_more as one_more_of, plain_component, template as template_at, typ as type_at, type_in, typed, with_number, with_type};
ghost use Rattle.pdb_names.specs.Views.{kept_of, left_of, word_of};

use crate::c_name::is_name;
use crate::numbers::number_at;
use crate::pieces::Stop;
use crate::reads::Reads;
use crate::templates::{Typed, class_of, is_pack, template};
use crate::type_heads::{Head, Set, Shape, head_at};
use std::alloc::Global;

/// What is shown for an anonymous namespace.
const UNNAMED: &[u8; 21] = b"`anonymous namespace'";

/// How many components are kept at most.
const MOST_KEPT: usize = 10;

/// Bytes that are kept, and the text that they spell.
#[derive(Drop)]
pub(crate) struct Kept {
    pub bytes: Vec<u8>,
    pub text: Vec<u8>,
}

/// Bytes up to an `@`, and those behind it.
#[derive(Clone, Copy)]
pub(crate) struct Word<'d> {
    pub bytes: &'d [u8],
    pub rest: &'d [u8],
}

/// A text that bytes spell, and the bytes behind them.
#[derive(Drop)]
pub(crate) struct Text<'d> {
    pub text: Vec<u8>,
    pub rest: &'d [u8],
}

/// The index of the first `@`.
fn first_at_sign(bytes: &[u8]) -> Option<usize>
    ensures at { result ≡ position (λ x. x == 64) bytes.now }
    ensures bound { IfSome result (λ n. n < length bytes.now) }
{
    bytes.iter().position(|byte| *byte == b'@')
}

/// The bytes up to the first `@`.
#[tactic(auto, unfolding(crate::specs::KeptNames::word))]
pub(crate) fn first_word<'d>(bytes: &'d [u8], reads: &mut Reads) -> Option<Word<'d>>
    ensures said { option_map word_of result ≡ word_there bytes.now }
    ensures shorter { IfSome result (λ w. length w.rest.now < length bytes.now) }
    ensures counted { IfSome result (λ w. Passed reads.old.count reads.new.count bytes.now w.rest.now) }
    ensures sought { result ≡ None → reads.new.count ≡ reads.old.count + length bytes.now }
{
    let Some(end) = first_at_sign(bytes) else {
        reads.pass(bytes, b"");
        return None;
    };
    Some(Word {
        bytes: &bytes[..end],
        rest: reads.past(bytes, end + 1),
    })
}

/// Whether the first byte is a digit.
pub(crate) fn begins_with_digit(bytes: &[u8]) -> bool
    ensures said { result ≡ digit_test bytes.now }
    ensures long { IsTrue result → 1 ≤ length bytes.now }
{
    match bytes {
        [byte, ..] => byte.is_ascii_digit(),
        [] => false,
    }
}

/// What is left to read of a name, and the table of components that are kept.
#[derive(Drop)]
pub(crate) struct Reader<'d> {
    pub rest: &'d [u8],
    pub kept: Vec<Kept>,
}

impl<'d> Reader<'d> {
    /// Whether these bytes are kept.
    fn has(&self, bytes: &[u8]) -> bool
        ensures { result ≡ list_any (λ k. has_bytes bytes.now (kept_of k)) self.now.kept.items }
    {
        self.kept.iter().any(|kept| kept.bytes.as_slice() == bytes)
    }

    /// Whether fewer than ten are kept, and not these bytes.
    #[tactic(auto, unfolding(crate::specs::KeptNames::is_wanted), using(crate::proofs::Views::wanted_of))]
    fn wants(&self, bytes: &[u8]) -> bool
        ensures { result ≡ is_wanted bytes.now (map kept_of self.now.kept.items) }
    {
        self.kept.len() < MOST_KEPT && !self.has(bytes)
    }

    /// Keeps bytes and the text that they spell, unless ten are kept, or these bytes.
    #[tactic(auto, unfolding(crate::specs::KeptNames::with_pair))]
    pub(crate) fn keep(&mut self, alloc: Global, bytes: &[u8], text: &[u8]) -> Result<(), Stop>
        ensures said { Gives (λ _. left_of self.new) result (Some (left self.old.rest.now (with_pair bytes.now text.now (map kept_of self.old.kept.items)))) }
        ensures same { self.new.rest.now ≡ self.old.rest.now }
    {
        if self.wants(bytes) {
            let bytes = Vec::from_slice(alloc, bytes)?;
            let text = Vec::from_slice(alloc, text)?;
            self.kept.push(Kept { bytes, text })?;
        }
        Ok(())
    }

    /// The text that is kept at an index.
    #[tactic(auto, using(crate::proofs::Views::item_at, crate::proofs::Views::item_past))]
    fn kept_text(&self, index: usize) -> Option<&[u8]>
        ensures { option_map (λ x. x.now) result ≡ option_map (λ k. k.text) (slice_get (map kept_of self.now.kept.items) index) }
    {
        if index < self.kept.len() {
            Some(&self.kept[index].text)
        } else {
            None
        }
    }

    /// The text that a digit refers back to.
    fn again(&mut self, alloc: Global, reads: &mut Reads) -> Result<Vec<u8>, Stop>
        requires { 1 ≤ length self.old.rest.now }
        ensures said { Gives (λ t. got t.items (left_of self.new)) result (repeated (slice_get (map kept_of self.old.kept.items) (slice_index self.old.rest.now 0 - 48)) (left_of self.old)) }
        ensures shorter { OnOk result (length self.new.rest.now < length self.old.rest.now) }
        ensures counted { OnOk result (Passed reads.old.count reads.new.count self.old.rest.now self.new.rest.now) }
        ensures once { Within reads.old.count reads.new.count self.old.rest.now }
    {
        let index = usize::from(self.rest[0].saturating_sub(b'0'));
        let Some(text) = self.kept_text(index) else {
            return Err(Stop::NoAnswer);
        };
        let text = Vec::from_slice(alloc, text)?;
        self.rest = reads.past(self.rest, 1);
        Ok(text)
    }

    /// A name as it stands there.
    pub(crate) fn plain(&mut self, alloc: Global, name: Word<'d>) -> Result<Vec<u8>, Stop>
        ensures said { Gives (λ t. got t.items (left_of self.new)) result (plain_name (map kept_of self.old.kept.items) (word_of name.entry)) }
        ensures behind { OnOk result (self.new.rest.now ≡ name.entry.rest.now) }
    {
        if !is_name(name.bytes) {
            return Err(Stop::NoAnswer);
        }
        self.keep(alloc, name.bytes, name.bytes)?;
        self.rest = name.rest;
        Ok(Vec::from_slice(alloc, name.bytes)?)
    }

    /// An anonymous namespace.
    fn unnamed(&mut self, alloc: Global, name: Word<'d>) -> Result<Vec<u8>, Stop>
        ensures said { Gives (λ t. got t.items (left_of self.new)) result (unnamed_space (map kept_of self.old.kept.items) (word_of name.entry)) }
        ensures behind { OnOk result (self.new.rest.now ≡ name.entry.rest.now) }
    {
        self.keep(alloc, name.bytes, UNNAMED)?;
        self.rest = name.rest;
        Ok(Vec::from_slice(alloc, UNNAMED)?)
    }

    /// A number as an argument.
    fn number_argument(
        &mut self,
        alloc: Global,
        texts: &mut Vec<Vec<u8>>,
        reads: &mut Reads,
    ) -> Result<(), Stop>
        requires { 2 ≤ length self.old.rest.now }
        ensures said { Gives (λ _. listed (map (λ v. v.items) texts.new.items) (left_of self.new)) result (option_map (with_number (listed (map (λ v. v.items) texts.old.items) (left_of self.old))) (number_there (drop 2 self.old.rest.now))) }
        ensures shorter { OnOk result (length self.new.rest.now < length self.old.rest.now) }
        ensures counted { OnOk result (Passed reads.old.count reads.new.count self.old.rest.now self.new.rest.now) }
        ensures once { Within reads.old.count reads.new.count self.old.rest.now }
    {
        let number = reads.past(self.rest, 2);
        let Text { text, rest } = number_at(alloc, number, reads)?;
        texts.push(text)?;
        self.rest = rest;
        Ok(())
    }

    /// A type with its const as an argument.
    #[cycle(templates)]
    fn type_argument(
        &mut self,
        alloc: Global,
        levels: u32,
        texts: &mut Vec<Vec<u8>>,
        reads: &mut Reads,
    ) -> Result<(), Stop>
        ensures said { Gives (λ _. listed (map (λ v. v.items) texts.new.items) (left_of self.new)) result (option_map (with_type (listed (map (λ v. v.items) texts.old.items) (left_of self.old))) (type_at levels (left_of self.old))) }
        ensures shorter { OnOk result (length self.new.rest.now < length self.old.rest.now) }
        ensures counted { OnOk result (Passed reads.old.count reads.new.count self.old.rest.now self.new.rest.now) }
        ensures once { Within reads.old.count reads.new.count self.old.rest.now }
    {
        let Typed { mut text, set } = self.typ(alloc, levels, reads)?;
        set.put(&mut text)?;
        texts.push(text)?;
        Ok(())
    }

    /// One argument more.
    #[cycle(templates)]
    #[tactic(auto, unfolding(crate::specs::Templates::one_argument))]
    fn one_argument(
        &mut self,
        alloc: Global,
        levels: u32,
        texts: &mut Vec<Vec<u8>>,
        reads: &mut Reads,
    ) -> Result<(), Stop>
        ensures said { Gives (λ _. listed (map (λ v. v.items) texts.new.items) (left_of self.new)) result (argument_of (type_at levels) (listed (map (λ v. v.items) texts.old.items) (left_of self.old))) }
        ensures shorter { OnOk result (length self.new.rest.now < length self.old.rest.now) }
        ensures counted { OnOk result (Passed reads.old.count reads.new.count self.old.rest.now self.new.rest.now) }
        ensures once { Within reads.old.count reads.new.count self.old.rest.now }
    {
        if is_pack(self.rest) {
            self.rest = reads.past(self.rest, 3);
            return Ok(());
        }
        if self.rest.starts_with(b"$S") {
            self.rest = reads.past(self.rest, 2);
            return Ok(());
        }
        if self.rest.starts_with(b"$0") {
            return self.number_argument(alloc, texts, reads);
        }
        self.type_argument(alloc, levels, texts, reads)
    }

    /// Arguments up to an `@`.
    #[cycle(templates)]
    #[tactic(auto, unfolding(crate::specs::Templates::all_arguments), using(crate::proofs::Runs::run_start, crate::proofs::Runs::run_step, crate::proofs::Runs::run_end, crate::proofs::Runs::run_stop))]
    pub(crate) fn all_arguments(
        &mut self,
        alloc: Global,
        levels: u32,
        texts: &mut Vec<Vec<u8>>,
        reads: &mut Reads,
    ) -> Result<(), Stop>
        ensures said { Gives (λ _. listed (map (λ v. v.items) texts.new.items) (left_of self.new)) result (all_arguments_of (type_at levels) (listed (map (λ v. v.items) texts.old.items) (left_of self.old))) }
        ensures shorter { OnOk result (length self.new.rest.now ≤ length self.old.rest.now) }
        ensures ended { OnOk result (1 ≤ length self.new.rest.now) }
        ensures counted { OnOk result (Passed reads.old.count reads.new.count self.old.rest.now self.new.rest.now) }
        ensures once { Within reads.old.count reads.new.count self.old.rest.now }
    {
        while !self.rest.starts_with(b"@") {
            self.one_argument(alloc, levels, texts, reads)?;
        }
        Ok(())
    }

    /// Keeps a template by its text behind `?$`.
    fn keep_template(&mut self, alloc: Global, text: &[u8]) -> Result<(), Stop>
        ensures said { Gives (λ _. left_of self.new) result (Some (left self.old.rest.now (with_pair (codes "?$" ++ text.now) text.now (map kept_of self.old.kept.items)))) }
        ensures same { self.new.rest.now ≡ self.old.rest.now }
    {
        let mut bytes = Vec::from_slice(alloc, b"?$")?;
        bytes.extend_from_slice(text)?;
        self.keep(alloc, &bytes, text)
    }

    /// A template as a component.
    #[cycle(templates)]
    fn template_component(
        &mut self,
        alloc: Global,
        levels: u32,
        reads: &mut Reads,
    ) -> Result<Vec<u8>, Stop>
        requires { 2 ≤ length self.old.rest.now }
        ensures said { Gives (λ t. got t.items (left_of self.new)) result (option_map (kept_template (left_of self.old)) (template_at (type_at levels) (drop 2 self.old.rest.now))) }
        ensures shorter { OnOk result (length self.new.rest.now < length self.old.rest.now) }
        ensures counted { OnOk result (Passed reads.old.count reads.new.count self.old.rest.now self.new.rest.now) }
        ensures once { Within reads.old.count reads.new.count self.old.rest.now }
    {
        let named = reads.past(self.rest, 2);
        let Text { text, rest } = template(alloc, named, levels, reads)?;
        self.keep_template(alloc, &text)?;
        self.rest = rest;
        Ok(text)
    }

    /// A component without a table or arguments.
    #[tactic(auto, unfolding(crate::specs::KeptNames::word))]
    fn plain_component(&mut self, alloc: Global, reads: &mut Reads) -> Result<Vec<u8>, Stop>
        ensures said { Gives (λ t. got t.items (left_of self.new)) result (plain_component (left_of self.old)) }
        ensures shorter { OnOk result (length self.new.rest.now < length self.old.rest.now) }
        ensures counted { OnOk result (Passed reads.old.count reads.new.count self.old.rest.now self.new.rest.now) }
        ensures once { Within reads.old.count reads.new.count self.old.rest.now }
    {
        let Some(name) = first_word(self.rest, reads) else {
            return Err(Stop::NoAnswer);
        };
        if self.rest.starts_with(b"?A") {
            self.unnamed(alloc, name)
        } else {
            self.plain(alloc, name)
        }
    }

    /// A component at the front.
    #[cycle(templates)]
    #[tactic(auto, unfolding(crate::specs::Templates::component))]
    fn component(&mut self, alloc: Global, levels: u32, reads: &mut Reads) -> Result<Vec<u8>, Stop>
        ensures said { Gives (λ t. got t.items (left_of self.new)) result (component_at (type_at levels) (left_of self.old)) }
        ensures shorter { OnOk result (length self.new.rest.now < length self.old.rest.now) }
        ensures counted { OnOk result (Passed reads.old.count reads.new.count self.old.rest.now self.new.rest.now) }
        ensures once { Within reads.old.count reads.new.count self.old.rest.now }
    {
        if begins_with_digit(self.rest) {
            return self.again(alloc, reads);
        }
        if self.rest.starts_with(b"?$") {
            return self.template_component(alloc, levels, reads);
        }
        self.plain_component(alloc, reads)
    }

    /// One component more.
    #[cycle(templates)]
    #[tactic(auto, unfolding(crate::specs::Templates::one_more))]
    fn one_more(
        &mut self,
        alloc: Global,
        levels: u32,
        texts: &mut Vec<Vec<u8>>,
        reads: &mut Reads,
    ) -> Result<(), Stop>
        ensures said { Gives (λ _. listed (map (λ v. v.items) texts.new.items) (left_of self.new)) result (one_more_of (type_at levels) (listed (map (λ v. v.items) texts.old.items) (left_of self.old))) }
        ensures shorter { OnOk result (length self.new.rest.now < length self.old.rest.now) }
        ensures counted { OnOk result (Passed reads.old.count reads.new.count self.old.rest.now self.new.rest.now) }
        ensures once { Within reads.old.count reads.new.count self.old.rest.now }
    {
        let text = self.component(alloc, levels, reads)?;
        texts.push(text)?;
        Ok(())
    }

    /// Components up to an `@`.
    #[cycle(templates)]
    #[tactic(auto, unfolding(crate::specs::Templates::all_components), using(crate::proofs::Runs::run_start, crate::proofs::Runs::run_step, crate::proofs::Runs::run_end, crate::proofs::Runs::run_stop))]
    fn all_components(
        &mut self,
        alloc: Global,
        levels: u32,
        texts: &mut Vec<Vec<u8>>,
        reads: &mut Reads,
    ) -> Result<(), Stop>
        ensures said { Gives (λ _. listed (map (λ v. v.items) texts.new.items) (left_of self.new)) result (all_of (type_at levels) (listed (map (λ v. v.items) texts.old.items) (left_of self.old))) }
        ensures shorter { OnOk result (length self.new.rest.now ≤ length self.old.rest.now) }
        ensures ended { OnOk result (1 ≤ length self.new.rest.now) }
        ensures counted { OnOk result (Passed reads.old.count reads.new.count self.old.rest.now self.new.rest.now) }
        ensures once { Within reads.old.count reads.new.count self.old.rest.now }
    {
        while !self.rest.starts_with(b"@") {
            self.one_more(alloc, levels, texts, reads)?;
        }
        Ok(())
    }

    /// The texts of components up to an `@`, which is passed over.
    #[cycle(templates)]
    #[tactic(auto, unfolding(crate::specs::Templates::components))]
    pub(crate) fn components(
        &mut self,
        alloc: Global,
        levels: u32,
        reads: &mut Reads,
    ) -> Result<Vec<Vec<u8>>, Stop>
        ensures said { Gives (λ ts. listed (map (λ v. v.items) ts.items) (left_of self.new)) result (components_at (type_at levels) (left_of self.old)) }
        ensures shorter { OnOk result (length self.new.rest.now < length self.old.rest.now) }
        ensures counted { OnOk result (Passed reads.old.count reads.new.count self.old.rest.now self.new.rest.now) }
        ensures once { Within reads.old.count reads.new.count self.old.rest.now }
    {
        let mut texts = Vec::new(alloc);
        self.all_components(alloc, levels, &mut texts, reads)?;
        self.rest = reads.past(self.rest, 1);
        Ok(texts)
    }

    /// The name of a class, which isn't an anonymous namespace.
    #[cycle(templates)]
    #[tactic(auto, unfolding(crate::specs::Templates::class_type))]
    fn class_type(
        &mut self,
        alloc: Global,
        levels: u32,
        prefix: &[u8],
        reads: &mut Reads,
    ) -> Result<Typed, Stop>
        ensures said { Gives (λ t. typed t.text.items t.set (left_of self.new)) result (class_there (type_at levels) prefix.now (left_of self.old)) }
        ensures shorter { OnOk result (length self.new.rest.now < length self.old.rest.now) }
        ensures counted { OnOk result (Passed reads.old.count reads.new.count self.old.rest.now self.new.rest.now) }
        ensures once { Within reads.old.count reads.new.count self.old.rest.now }
    {
        if self.rest.starts_with(b"?A") {
            return Err(Stop::NoAnswer);
        }
        let texts = self.components(alloc, levels, reads)?;
        let text = class_of(alloc, prefix, texts)?;
        Ok(Typed {
            text,
            set: Set::none(),
        })
    }

    /// A type behind its const and volatile, and before a mark.
    #[cycle(templates)]
    #[tactic(auto, unfolding(crate::specs::Templates::marked_type))]
    fn marked_type(
        &mut self,
        alloc: Global,
        levels: u32,
        mark: &[u8],
        set: Set,
        reads: &mut Reads,
    ) -> Result<Typed, Stop>
        ensures said { Gives (λ t. typed t.text.items t.set (left_of self.new)) result (marked_there (type_at levels) mark.now set (left_of self.old)) }
        ensures shorter { OnOk result (length self.new.rest.now < length self.old.rest.now) }
        ensures counted { OnOk result (Passed reads.old.count reads.new.count self.old.rest.now self.new.rest.now) }
        ensures once { Within reads.old.count reads.new.count self.old.rest.now }
    {
        if self.rest.is_empty() {
            return Err(Stop::NoAnswer);
        }
        let Some(own) = Set::of(self.rest[0]) else {
            return Err(Stop::NoAnswer);
        };
        self.rest = reads.past(self.rest, 1);
        let Typed {
            mut text,
            set: inner,
        } = self.typ(alloc, levels, reads)?;
        own.and(inner).put(&mut text)?;
        text.extend_from_slice(mark)?;
        Ok(Typed { text, set })
    }

    /// A type by how it begins.
    #[cycle(templates)]
    fn type_by(
        &mut self,
        alloc: Global,
        levels: u32,
        head: Head<'_>,
        reads: &mut Reads,
    ) -> Result<Typed, Stop>
        ensures said { Gives (λ t. typed t.text.items t.set (left_of self.new)) result (type_in (type_at levels) head.entry.shape head.entry.text.now head.entry.set (left_of self.old)) }
        ensures shorter { OnOk result (length self.new.rest.now ≤ length self.old.rest.now) }
        ensures counted { OnOk result (Passed reads.old.count reads.new.count self.old.rest.now self.new.rest.now) }
        ensures once { Within reads.old.count reads.new.count self.old.rest.now }
    {
        match head.shape {
            Shape::Simple => Ok(Typed {
                text: Vec::from_slice(alloc, head.text)?,
                set: head.set,
            }),
            Shape::Class => self.class_type(alloc, levels, head.text, reads),
            Shape::Marked => self.marked_type(alloc, levels, head.text, head.set, reads),
        }
    }

    /// A type.
    #[cycle(templates)]
    #[tactic(auto, using(crate::proofs::Levels::typ_end, crate::proofs::Levels::typ_step))]
    fn typ(&mut self, alloc: Global, levels: u32, reads: &mut Reads) -> Result<Typed, Stop>
        ensures said { Gives (λ t. typed t.text.items t.set (left_of self.new)) result (type_at levels (left_of self.old)) }
        ensures shorter { OnOk result (length self.new.rest.now < length self.old.rest.now) }
        ensures counted { OnOk result (Passed reads.old.count reads.new.count self.old.rest.now self.new.rest.now) }
        ensures once { Within reads.old.count reads.new.count self.old.rest.now }
    {
        if levels == 0 {
            return Err(Stop::NoAnswer);
        }
        let Some(head) = head_at(self.rest) else {
            return Err(Stop::NoAnswer);
        };
        reads.pass(self.rest, head.rest);
        self.rest = head.rest;
        self.type_by(alloc, levels - 1, head, reads)
    }
}
