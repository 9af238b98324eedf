//! The lists of members that were read in one chain.

ghost use Rattle.std.specs.Prelude.{◌≡◌, ◌≤◌, ◌<◌, ◌++◌, [], ◌∷◌, length};
ghost use Rattle.pdb_types.specs.MemberLists.{was_read};

use crate::member_lists::LISTS;

// The indices of lists that were read, in their order.
#[derive(Clone, Copy)]
pub(crate) struct ReadLists {
    indices: [u32; LISTS as usize],
    count: usize,
    ghost few: { count ≤ 1024 },
}

impl ReadLists {
    ghost use Rattle.pdb_types.specs.ReadListViews.{lists_read};

    pub(crate) fn new() -> Self
        ensures { lists_read result ≡ [] }
    {
        ReadLists {
            indices: [0; LISTS as usize],
            count: 0,
        }
    }

    // Whether the list of an index was read.
    pub(crate) fn has(&self, index: u32) -> bool
        ensures { result ≡ was_read (lists_read self.now) index }
    {
        self.indices.split_at(self.count).0.contains(&index)
    }

    // Adds the list of an index.
    pub(crate) fn add(&mut self, index: u32)
        requires { length (lists_read self.old) < 1024 }
        ensures { lists_read self.new ≡ lists_read self.old ++ (index ∷ []) }
    {
        self.indices[self.count] = index;
        self.count += 1;
    }
}
