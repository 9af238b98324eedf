//! An opened file.

ghost use Rattle.std.specs.Prelude.{◌≡◌, ℕ, ◌+◌, ◌*◌, ◌<◌, ◌≤◌, ◌^◌, List, length, true, false, Ok, IfOk, IfErr, IsOk, IsErrOf, ◌≢◌};
ghost use Rattle.pdb_base.specs.Refusal.{Gives};
ghost use Rattle.pdb_base.specs.Source.{State, Continues, MayFail, IsKnown, view_bytes};
ghost use Rattle.pdb_base.specs.Container.{opens, stream_of, pages_needed, stream_count as count_in, stream_size as size_in, limited as limited_size};

use crate::directory::{count_of, pages_at, pages_before, read_head, read_list, size_of};
use crate::error::{Error, Result};
use crate::pages::view_pages;
use crate::source::{Meaning, Source, View};
use crate::stream::Stream;
use std::alloc::Global;
use std::marker::Model;

/// The container of an opened file.
#[derive(Drop)]
pub struct Msf<'s, S: Meaning> {
    alloc: Global,
    source: S,
    page_size: u32,
    pages_used: u32,
    directory: View<'s>,
    before: Vec<u64>,
}

impl<'s, S: Meaning> Model for Msf<'s, S> {
    ghost use Rattle.pdb_base.specs.Source.{State, view_bytes};
    ghost use Rattle.std.specs.Prelude.{◌≡◌, ◌≤◌, true};
    ghost use Rattle.pdb_base.specs.Container.{IsOpened, ArePagesBefore};

    ghost Value = { State };

    ghost view = { λ m. S.state m.source };

    ghost invariant = { λ m. ((S.state m.source).told ≡ true → IsOpened (S.state m.source).file m.page_size m.pages_used (view_bytes m.directory) m.before.items)
        × (256 ≤ m.page_size) × ArePagesBefore (view_bytes m.directory) m.page_size m.before.items };
}

fn limited(limit: Option<u32>, size: u32) -> u32
    ensures { result ≡ limited_size limit size }
{
    match limit {
        None => size,
        Some(limit) => limit.min(size),
    }
}

impl<'s, S: Source<'s>> Msf<'s, S> {
    /// Opens a file.
    pub fn open(alloc: Global, mut source: S) -> Result<Self>
        ensures continues { IfOk result (λ m. Continues (S.state source) m) }
        ensures failed { IsErrOf result Error.IoError → (S.state source).steady ≡ false }
        ensures opened { IfOk result (λ m. m.told ≡ true → opens (S.state source).file ≡ Ok tt) }
        ensures answer { IsKnown (S.state source) → Gives (λ _. tt) ((S.state source).steady ≡ false) result (opens (S.state source).file) }
    {
        let head = read_head(alloc, &mut source)?;
        let list = read_list(alloc, &mut source, head)?;
        let directory = view_pages(
            alloc,
            &mut source,
            list.as_slice(),
            head.page_size,
            head.pages_used,
            head.directory_size as usize,
        )?;
        let before = pages_before(alloc, directory.as_slice(), head.page_size)?;
        Ok(Msf {
            alloc,
            source,
            page_size: head.page_size,
            pages_used: head.pages_used,
            directory,
            before,
        })
    }

    /// The first bytes of a stream, as many as the limit says, or all.
    #[tactic(auto, using(crate::proofs::OpenLemmas::opened_opens))]
    pub fn get(&mut self, number: u32, limit: Option<u32>) -> Result<Stream<'s>>
        ensures continues { Continues self.old self.new }
        ensures failed { IsErrOf result Error.IoError → MayFail self.old self.new }
        ensures bytes { self.new.told ≡ true → Gives (λ s. s) (MayFail self.old self.new) result (stream_of self.old.file number limit) }
        ensures memory { self.new.told ≡ true → IsErrOf result Error.OutOfMemory → IsOk (pages_needed self.old.file number limit) }
        // Its front isn't what refuses it.
        ensures opened { self.new.told ≡ true → opens self.old.file ≡ Ok tt }
    {
        let directory = self.directory.as_slice();
        let size = size_of(directory, number)?;
        let size = limited(limit, size);
        let list = pages_at(directory, &self.before, self.page_size, number, size)?;
        let view = view_pages(
            self.alloc,
            &mut self.source,
            list,
            self.page_size,
            self.pages_used,
            size as usize,
        )?;
        Ok(Stream::of(self.alloc, view)?)
    }

    /// How many streams the directory lists, absent ones too. `UnexpectedEof` where the directory ends before their
    /// sizes do.
    #[tactic(auto, unfolding(crate::specs::Container::stream_count), using(crate::proofs::OpenLemmas::opened_opens))]
    pub fn stream_count(&self) -> Result<u32>
        ensures count { self.now.told ≡ true → Gives (λ n. n) ⊥ result (count_in self.now.file) }
        ensures memory { IfErr result (λ e. e ≢ Error.OutOfMemory) }
        ensures read { IfErr result (λ e. e ≢ Error.IoError) }
        ensures opened { self.now.told ≡ true → opens self.now.file ≡ Ok tt }
    {
        count_of(self.directory.as_slice())
    }

    /// How many bytes a stream has, by the directory. `StreamNotFound` where there is no such stream or it is absent,
    /// and `UnexpectedEof` where the directory ends before the sizes do.
    #[tactic(auto, unfolding(crate::specs::Container::stream_size), using(crate::proofs::OpenLemmas::opened_opens))]
    pub fn stream_size(&self, number: u32) -> Result<u32>
        ensures size { self.now.told ≡ true → Gives (λ n. n) ⊥ result (size_in self.now.file number) }
        ensures memory { IfErr result (λ e. e ≢ Error.OutOfMemory) }
        ensures read { IfErr result (λ e. e ≢ Error.IoError) }
        ensures opened { self.now.told ≡ true → opens self.now.file ≡ Ok tt }
    {
        size_of(self.directory.as_slice(), number)
    }

    /// How many views of the source failed so far.
    #[tactic(auto, using(crate::proofs::OpenLemmas::opened_opens))]
    pub fn failures(&self) -> u64
        ensures failures { result ≡ self.now.failures }
        ensures opened { self.now.told ≡ true → opens self.now.file ≡ Ok tt }
    {
        self.source.failures()
    }

    /// Whether no view of the source can fail.
    #[tactic(auto, using(crate::proofs::OpenLemmas::opened_opens))]
    pub fn steady(&self) -> bool
        ensures steady { result ≡ self.now.steady }
        ensures opened { self.now.told ≡ true → opens self.now.file ≡ Ok tt }
    {
        self.source.steady()
    }
}
