//! Trimming steps over a table and its index, and the pages that are left.
ghost use Rattle.std.specs.Prelude.{◌≡◌};
ghost use Rattle.key_index.specs.Agrees.{Agrees};
ghost use Rattle.version_table.specs.Rising.{IsBehind};

use bytes::Bytes;
use key_index::KeyIndex;
use kv_model::version::{Body, Rev, Version};
use std::alloc::Global;
use std::marker::Model;
use trim_core::{Trim, Trimmer};
use version_table::VersionTable;

/// A table, its index, and how far trimming has come.
#[derive(Drop)]
struct Kept {
    table: VersionTable,
    index: KeyIndex,
    trimmer: Trimmer,
}

impl Model for Kept {
    ghost use Rattle.std.specs.Prelude.{List};
    ghost use Rattle.kv_model.specs.declared.version.Version.{Version};
    ghost use Rattle.key_index.specs.Agrees.{Agrees};

    ghost Value = { List Version };

    ghost view = { λ k. k.table };

    ghost invariant = { λ k. Agrees k.index k.table };
}

fn put_at(main: u64, key: &'static [u8]) -> Version
    ensures rev { result.rev ≡ record { main = main; sub = 0 } }
    ensures key { result.key ≡ key.now }
{
    Version {
        rev: Rev { main, sub: 0 },
        key: Bytes::from_static(key),
        body: Body::Put {
            create: main,
            version: 1,
            lease: 0,
            value: Bytes::new(),
        },
    }
}

/// Adds a put to a table and to its index. Where one finds no memory both are begun anew.
fn add(alloc: Global, table: &mut VersionTable, index: &mut KeyIndex, main: u64, key: &'static [u8])
    requires agrees { Agrees index.old table.old }
    requires behind { IsBehind (record { main = main; sub = 0 }) table.old }
    ensures { Agrees index.new table.new }
{
    let name = Bytes::from_static(key);
    let indexed = index.put(&name, Rev { main, sub: 0 }).is_ok();
    drop(name);
    if !indexed {
        return;
    }
    match table.push(put_at(main, key)) {
        Ok(()) => {}
        Err(_) => {
            *table = VersionTable::new(alloc);
            *index = KeyIndex::new(alloc);
        }
    }
}

impl Kept {
    fn new(alloc: Global) -> Self {
        Kept {
            table: VersionTable::new(alloc),
            index: KeyIndex::new(alloc),
            trimmer: Trimmer::new(),
        }
    }

    /// Adds a put of a key at a main revision, where it is above all others.
    fn put(&mut self, alloc: Global, main: u64, key: &'static [u8]) {
        match self.table.next_from(Rev { main, sub: 0 }) {
            Some(_) => {}
            None => add(alloc, &mut self.table, &mut self.index, main, key),
        }
    }

    fn step(&mut self, compacted: u64) -> Trim {
        self.trimmer
            .step(&mut self.table, &mut self.index, compacted)
    }
}

fn put_below(alloc: Global, kept: &mut Kept, end: u64) {
    for main in 2..end {
        kept.put(alloc, main, b"a");
    }
}

/// What one more step than so many says.
fn last_of(kept: &mut Kept, compacted: u64, count: u64) -> Trim {
    for _ in 0..count {
        kept.step(compacted);
    }
    kept.step(compacted)
}

/// 1,024 puts of a, at the revisions from 2 to 1025, and one of b at 1026: how many pages they make,
/// what the last of as many steps and one more says after a compaction at 1026, and how many pages
/// are left.
fn pages_before_and_after(alloc: Global) -> (usize, Trim, usize) {
    let mut kept = Kept::new(alloc);
    put_below(alloc, &mut kept, 1_026);
    kept.put(alloc, 1_026, b"b");
    let before = kept.table.pages();
    let last = last_of(&mut kept, 1_026, 1_025);
    let after = kept.table.pages();
    drop(kept);
    (before, last, after)
}

#[test]
fn frees_the_pages_whose_versions_all_go(rt: HostRuntime) {
    assert_eq!(rt; pages_before_and_after(rt.alloc()), (5, Trim::Done(2), 2));
}
