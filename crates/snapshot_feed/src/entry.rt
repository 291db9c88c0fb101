//! A copy of the tables, and what it takes in.
ghost use Rattle.std.specs.Prelude.{◌≡◌, OnOk, OnErr};
ghost use Rattle.kv_model.specs.Feed.{published};
ghost use Rattle.store_laws.specs.Snapshots.{absorb, blank};

use event_book::Front;
use kv_model::feed::Op;
use left_right::Absorb;
use range_view::Tables;
use std::alloc::{AllocError, Global};

/// A copy of the tables, with the front of the events that are in it.
#[derive(Drop)]
pub struct ReadTables {
    pub tables: Tables,
    pub front: Front,
}

impl ReadTables {
    /// Empty tables, of a front that has seen nothing. Takes no memory.
    pub fn new(alloc: Global, front: Front) -> Self
        ensures tables { result.tables ≡ blank }
        ensures front { result.front ≡ front }
    {
        ReadTables {
            tables: Tables::new(alloc),
            front,
        }
    }
}

/// What `left_right` logs here: nothing. The copy that is not shown is changed by whoever has it.
#[derive(Drop)]
pub struct Nothing;

impl Absorb<Nothing> for ReadTables {
    type State = ();

    ghost state = { λ t. tt };

    ghost applied = { λ s o. s };

    fn absorb_first(&mut self, _operation: &Nothing, _other: &Self) -> Result<(), AllocError> {
        Ok(())
    }
}

/// Takes an operation into the tables. `AllocError` comes where a growth found no memory, or a
/// batch is not of the next revision, and the tables are then as they were.
pub fn take_in(tables: &mut Tables, op: &Op) -> Result<(), AllocError>
    ensures ok { OnOk result (tables.new ≡ absorb tables.old (published op.now)) }
    ensures err { OnErr result (tables.new ≡ tables.old) }
{
    match op {
        Op::Batch(versions) => {
            if !tables.takes(versions) {
                return Err(AllocError);
            }
            tables.append(versions)
        }
        Op::Floor(revision) => {
            tables.compact(*revision);
            Ok(())
        }
        Op::Trim => {
            let _told = tables.trim_step();
            Ok(())
        }
    }
}
