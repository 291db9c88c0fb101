//! The versions that a store keeps, shown.
ghost use Rattle.std.specs.Prelude.{◌≡◌, IfOk};
ghost use Rattle.witness_core.specs.Making.{dump_of};

use kv_model::version::Version;
use range_view::View;
use std::alloc::{AllocError, Global};
use std::marker::Model;

/// The versions that a store keeps, with its numbers. One that was read from a text may be any
/// list: its versions need not rise, and its floor may be above its revision.
#[derive(Debug, Drop)]
pub struct Dump {
    /// The revision of the last compaction, 0 before the first.
    pub floor: u64,
    /// The present revision.
    pub revision: u64,
    /// The versions, the oldest first.
    pub versions: Vec<Version>,
}

impl Model for Dump {
    ghost use Rattle.kv_model.specs.Certificates.{Dump as SeenDump};

    ghost Value = { SeenDump };

    ghost view = { λ d. record {
      floor = d.floor;
      revision = d.revision;
      versions = d.versions.items;
    } };
}

/// The versions that a store keeps, once more.
fn copies(alloc: Global, view: &View<'_>) -> Result<Vec<Version>, AllocError>
    ensures { IfOk result (λ copies. copies.items ≡ view.now.versions) }
{
    let mut copies = Vec::with_capacity(alloc, view.count())?;
    let mut versions = view.versions();
    while let Some(version) = versions.next() {
        copies.push(version.clone()?)?;
    }
    Ok(copies)
}

impl Dump {
    /// What a store keeps, just as it is, whatever the view's place: its versions, which share
    /// their keys and values with it, the revision of its last compaction and the present one.
    ///
    /// The error is want of memory. The time is linear in the number of versions.
    pub fn of(alloc: Global, view: &View<'_>) -> Result<Dump, AllocError>
        ensures { IfOk result (λ dump. dump ≡ dump_of view.now) }
    {
        let versions = copies(alloc, view)?;
        Ok(Dump {
            floor: view.compacted(),
            revision: view.revision(),
            versions,
        })
    }
}
