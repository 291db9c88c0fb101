//! The copy that is not shown, as it is lent and shown again.
ghost use Rattle.std.specs.Prelude.{◌≡◌, [], fold, MatchResult};
ghost use Rattle.store_laws.specs.Snapshots.{absorb};
ghost use Rattle.left_right.specs.Sides.{view};
ghost use Rattle.snapshot_feed.specs.Shown.{ShowsWell, IsOf};

use crate::entry::{Nothing, ReadTables};
use crate::ops::Ops;
use crate::rule::{Sees, Shown, Sight};
use core::mem::replace;
use left_right::writer::Writer;
use range_view::Tables;
use std::sync::Wait;

pub type FeedWriter = Writer<ReadTables, Nothing, Sight, Shown>;

/// Tables that are lent, and the operations that were done on them since.
#[derive(Drop)]
pub struct Lent {
    pub tables: Tables,
    pub ops: Ops,
}

/// Waits until readers have left the copy that is not shown, and has it take in what it lacks. Where
/// it took all of it, its tables are lent, and this blank copy is in its place; else what it still
/// lacks is left.
pub fn lend<R: Wait>(
    writer: FeedWriter,
    by: (&R, Ops, ReadTables),
) -> (FeedWriter, Result<Lent, Ops>)
    ensures shown { result.0.desk.shown.value ≡ writer.desk.shown.value }
    ensures view { view result.0.desk.place ≡ view writer.desk.place }
    ensures tables { MatchResult result.1
        (λ l. (l.tables ≡ fold absorb writer.desk.spare.value.tables by.entry.1) × (l.ops ≡ []))
        (λ left. fold absorb result.0.desk.spare.value.tables left
        ≡ fold absorb writer.desk.spare.value.tables by.entry.1) }
{
    let (rt, mut ops, blank) = by;
    let mut writer = writer;
    let (open, mut spare) = writer.desk.open(rt);
    if !ops.level(&mut spare.tables) {
        writer.desk = open.shelve(spare);
        return (writer, Err(ops));
    }
    let ReadTables {
        tables,
        front: _front,
    } = replace(&mut *spare, blank);
    writer.desk = open.shelve(spare);
    (writer, Ok(Lent { tables, ops }))
}

/// Shows readers this copy, in place of the one that they are shown, which is the spare one then.
/// It waits for nobody where the spare copy is lent.
pub fn show<R: Wait>(writer: FeedWriter, by: (&R, ReadTables)) -> (FeedWriter, ())
    requires shows { ShowsWell by.1.tables by.1.front }
    requires book { by.1.front.book ≡ writer.desk.shown.value.front.book }
    ensures shown { result.0.desk.shown.value ≡ by.entry.1 }
    ensures spare { result.0.desk.spare.value ≡ writer.desk.shown.value }
    ensures known { IsOf by.entry.1.front.book (view result.0.desk.place).front }
{
    let (rt, next) = by;
    let mut writer = writer;
    let (open, mut spare) = writer.desk.open(rt);
    *spare = next;
    writer.desk = open.show_as::<Sees>(spare);
    (writer, ())
}
