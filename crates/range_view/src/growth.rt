//! How a table of versions and its index grow together, and shrink again where the growth fails.
ghost use Rattle.std.specs.Prelude.{◌≡◌, ◌++◌, ◌∷◌, [], IfOk, OnOk, OnErr};
ghost use Rattle.version_table.specs.Rising.{IsBehind, IsRising, retracted};
ghost use Rattle.key_index.specs.Agrees.{Agrees};
ghost use Rattle.range_view.specs.Stored.{IsUpTo, IsBelow, AreOf, AreTied};

use key_index::KeyIndex;
use kv_model::version::{Rev, Version};
use std::alloc::AllocError;
use version_table::VersionTable;

/// Takes the changes of the newest main revision out of the index, as many at a time as lie side by
/// side in the table.
fn unindex(table: &VersionTable, index: &mut KeyIndex, main: u64)
    requires upto { IsUpTo main table.now }
    requires tied { AreTied index.old table.now }
    ensures { Agrees index.new (retracted main table.now) }
{
    let mut changes = table.versions_from(Rev { main, sub: 0 });
    while let Some(slice) = changes.next_slice() {
        index.retract(main, slice);
    }
}

/// Takes the newest main revision back, out of the index and out of the table. Takes no memory.
///
/// For each of the changes the time is logarithmic in the number of versions and in that of the
/// keys: no other key is walked, where no later main revision was ever added.
pub fn take_back(table: &mut VersionTable, index: &mut KeyIndex, main: u64)
    requires upto { IsUpTo main table.old }
    requires tied { AreTied index.old table.old }
    ensures table { table.new ≡ retracted main table.old }
    ensures older { IsBelow main table.new }
    ensures tied { AreTied index.new table.new }
{
    unindex(table, index, main);
    table.retract(main);
}

/// The version once more, with its key and value shared by count.
fn copy_of(version: &Version) -> Result<Version, AllocError>
    ensures { IfOk result (λ v. v ≡ version.now) }
{
    version.clone()
}

/// Adds a version to the table and its revision to the index, or to none of the two. To the index
/// it is the same whether the version is a put or a tombstone.
pub fn add(
    table: &mut VersionTable,
    index: &mut KeyIndex,
    version: &Version,
) -> Result<(), AllocError>
    requires behind { IsBehind version.now.rev table.old }
    requires tied { AreTied index.old table.old }
    ensures ok { OnOk result (table.new ≡ table.old ++ version.now ∷ []) }
    ensures err { OnErr result (table.new ≡ table.old) }
    ensures tied { AreTied index.new table.new }
{
    table.push(copy_of(version)?)?;
    match index.put(&version.key, version.rev) {
        Ok(()) => Ok(()),
        Err(error) => {
            table.remove(version.rev);
            Err(error)
        }
    }
}

/// Adds the versions of a main revision that is above all in the table, or none of them.
pub fn add_all(
    table: &mut VersionTable,
    index: &mut KeyIndex,
    main: u64,
    versions: &[Version],
) -> Result<(), AllocError>
    requires rising { IsRising (table.old ++ versions.now) }
    requires older { IsBelow main table.old }
    requires newest { AreOf main versions.now }
    requires tied { AreTied index.old table.old }
    ensures ok { OnOk result (table.new ≡ table.old ++ versions.now) }
    ensures err { OnErr result (table.new ≡ table.old) }
    ensures tied { AreTied index.new table.new }
{
    for version in versions {
        match add(table, index, version) {
            Ok(()) => {}
            Err(error) => {
                take_back(table, index, main);
                return Err(error);
            }
        }
    }
    Ok(())
}
