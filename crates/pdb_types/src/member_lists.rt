//! The members of types, through lists that go on in one another.

ghost use Rattle.std.specs.Prelude.{◌≡◌, ◌≤◌, ◌<◌, ◌+◌, ◌-◌, ◌*◌, ◌^◌, length, IfSome};
ghost use Rattle.std.specs.Option.{option_map};
ghost use Rattle.pdb_items.specs.Items.{item_with};
ghost use Rattle.pdb_types.specs.ReadListViews.{lists_read};
ghost use Rattle.pdb_types.specs.MemberLists.{list_bytes, members_of, some_list};

use crate::member_readers::read_entry;
use crate::members::Member;
use crate::read_lists::ReadLists;
use pdb_base::{Error, FallibleIterator, Result, Steps, TypeIndex};
use pdb_items::ItemFinder;

/// How many lists may go on in one another.
pub(crate) const LISTS: u32 = 1024;

// The list of an index; 0 is none.
pub(crate) fn some_list(index: u32) -> Option<u32>
    ensures { result ≡ some_list index }
{
    if index == 0 { None } else { Some(index) }
}

// The bytes of the list of an index.
pub(crate) fn list_bytes<'t>(types: &ItemFinder<'t>, index: u32) -> Option<&'t [u8]>
    ensures bytes { option_map (λ s. s.now) result ≡ list_bytes (item_with types.now index) }
    ensures size { IfSome result (λ s. (2 ≤ length s.now) × (length s.now < 65536)) }
{
    let item = types.find(index)?;
    let bytes = item.raw_bytes();
    if item.raw_kind() == 0x1203 && bytes.len() < 0x1_0000 {
        Some(bytes)
    } else {
        None
    }
}

/// The members of a type, in the file's order. A list may go on with another one, which is read behind it. Behind 1,024
/// lists `Member::More` stands for the members that aren't read, and `Member::Endless` for a list that was read already.
///
/// # Errors
///
/// `UnexpectedEof` where a list, a field or padding isn't there; `UnexpectedNumericPrefix` where a number has a prefix
/// that isn't listed; `UnimplementedFeature` where a member has another kind. Then the list has ended.
#[derive(Drop)]
pub struct MemberIter<'x, 't> {
    types: &'x ItemFinder<'t>,
    // The list that is read, and how far.
    bytes: &'t [u8],
    at: usize,
    // The list with which it goes on, if it named one so far, and how many lists may still be read.
    list: Option<u32>,
    lists: u32,
    read: ReadLists,
    steps: Steps,
    ghost inside: { at ≤ length bytes.now },
    ghost small: { length bytes.now < 65536 },
    ghost few: { length (lists_read read) + lists ≡ 1024 },
    ghost counted: { steps.count + (lists * 65536 + (length bytes.now - at)) ≤ 1024 * 65536 },
}

impl<'x, 't> MemberIter<'x, 't> {
    ghost use Rattle.std.specs.Prelude.{◌≢◌, IfErr, Some};
    ghost use Rattle.pdb_base.specs.declared.error.Error.TheVariants.{IoError, OutOfMemory};
    ghost use Rattle.pdb_types.specs.MemberListViews.{IsStep, members_left, members_steps};

    /// The members of the list of this index, as `Tag::fields` has it; none where it is 0.
    #[tactic(auto, unfolding(crate::specs::MemberLists::members_of), using(crate::proofs::MemberSteps::nothing_read))]
    pub fn new(types: &'x ItemFinder<'t>, list: TypeIndex) -> Self
        ensures left { members_left result ≡ members_of types.entry.now list.0 }
        ensures steps { members_steps result ≡ 0 }
    {
        MemberIter {
            types,
            bytes: &[],
            at: 0,
            list: some_list(list.0),
            lists: LISTS,
            read: ReadLists::new(),
            steps: Steps::new(),
        }
    }

    // Reads an entry.
    #[tactic(auto, using(crate::proofs::MemberSteps::entry_inside))]
    fn read(&mut self) -> Option<Result<Option<Member<'t>>>>
        requires { self.old.at < length self.old.bytes.now }
        ensures step { IsStep self.old self.new result }
        ensures stepped { members_steps self.new ≡ members_steps self.old + 1 }
        ensures refused { IfSome result (λ answer. IfErr answer (λ e. (e ≢ OutOfMemory) × (e ≢ IoError))) }
    {
        match read_entry(self.bytes, self.at, &mut self.steps) {
            Ok(found) => {
                self.at = found.end;
                self.list = found.entry.named_behind(self.list);
                match found.entry.member() {
                    Some(member) => Some(Ok(Some(member))),
                    None => None,
                }
            }
            Err(error) => {
                self.at = self.bytes.len();
                self.list = None;
                Some(Err(error))
            }
        }
    }

    // Goes on with a list.
    #[tactic(auto, using(crate::proofs::MemberSteps::opened_left))]
    fn go_on(&mut self, list: u32) -> Option<Result<Option<Member<'t>>>>
        requires ended { length self.old.bytes.now ≤ self.old.at }
        requires named { self.old.list ≡ Some list }
        ensures step { IsStep self.old self.new result }
        ensures grows { members_steps self.old ≤ members_steps self.new }
        ensures refused { IfSome result (λ answer. IfErr answer (λ e. (e ≢ OutOfMemory) × (e ≢ IoError))) }
    {
        self.list = None;
        if self.read.has(list) {
            return Some(Ok(Some(Member::Endless)));
        }
        if self.lists == 0 {
            return Some(Ok(Some(Member::More)));
        }
        self.steps.tick();
        self.lists -= 1;
        self.read.add(list);
        match list_bytes(self.types, list) {
            Some(bytes) => {
                self.bytes = bytes;
                self.at = 2;
                None
            }
            None => Some(Err(Error::UnexpectedEof)),
        }
    }

    // What `next` gives, or nothing yet.
    fn step(&mut self) -> Option<Result<Option<Member<'t>>>>
        ensures step { IsStep self.old self.new result }
        ensures grows { members_steps self.old ≤ members_steps self.new }
        ensures refused { IfSome result (λ answer. IfErr answer (λ e. (e ≢ OutOfMemory) × (e ≢ IoError))) }
    {
        if self.at < self.bytes.len() {
            return self.read();
        }
        match self.list {
            Some(list) => self.go_on(list),
            None => Some(Ok(None)),
        }
    }
}

impl<'x, 't> FallibleIterator for MemberIter<'x, 't> {
    ghost use Rattle.std.specs.Prelude.{◌≢◌, IfErr};
    ghost use Rattle.pdb_base.specs.Left.{Yields};
    ghost use Rattle.pdb_base.specs.declared.error.Error.TheVariants.{IoError, OutOfMemory};
    ghost use Rattle.pdb_types.specs.MemberSays.{MemberSays};
    ghost use Rattle.pdb_types.specs.MemberViews.{shown_member};
    ghost use Rattle.pdb_types.specs.MemberListViews.{members_left, members_steps};

    type Item = Member<'t>;

    ghost Shown = { MemberSays };

    ghost shown = { shown_member };

    ghost left = { members_left };

    #[tactic(auto, using(crate::proofs::MemberSteps::few_left))]
    fn next(&mut self) -> Result<Option<Member<'t>>>
        ensures yields { Yields shown_member (members_left self.old) result (members_left self.new) }
        ensures few { length (members_left self.old).items < 2 ^ 64 }
        // A step reads an entry, or goes on with a list of at most 65,535 bytes.
        ensures bound { members_steps self.new ≤ 1024 * 65536 }
        ensures grows { members_steps self.old ≤ members_steps self.new }
        ensures refused { IfErr result (λ e. (e ≢ OutOfMemory) × (e ≢ IoError)) }
    {
        loop {
            if let Some(answer) = self.step() {
                return answer;
            }
        }
    }
}
