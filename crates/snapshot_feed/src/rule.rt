//! What readers and the writer know: which list of events the shown tables are of, and how often
//! each has looked at them.
use crate::entry::ReadTables;
use atomic_table::{Join, Split};
use crossbeam_utils::rule::{Outcome, Protocol};
use event_book::Front;

/// What one knows: the front that was shown when one looked last, and how often one has looked. No
/// value of it is made.
pub struct Sight {
    front: Option<Front>,
    looks: u64,
}

/// The shown tables are those of the shown front, which readers may be shown, and whoever knows of a
/// list knows of its list.
pub struct Shown;

impl Protocol<ReadTables, Sight> for Shown {
    ghost use Rattle.std.specs.Prelude.{None};
    ghost use Rattle.snapshot_feed.specs.Shown.{Keeps};

    ghost holds = { Keeps };

    ghost first = { record { front = None; looks = 0 } };
}

/// An entry or a publication, which is a look at the tables that are shown then.
pub struct Sees;

impl Outcome<ReadTables, Sight> for Sees {
    ghost use Rattle.snapshot_feed.specs.Shown.{SeesFront};

    ghost then = { SeesFront };
}

/// The writer tells a new reader which list it is.
pub struct Tells;

impl Split<Sight> for Tells {
    ghost left = { λ v. v };

    ghost right = { λ v. v };
}

impl Join<Sight> for Tells {
    ghost use Rattle.std.specs.Prelude.{None};

    ghost both = { λ v w. record { front = w.front; looks = v.looks } };

    ghost spent = { record { front = None; looks = 0 } };
}
