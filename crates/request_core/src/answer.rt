//! What a command did, and what is answered to it.
ghost use Rattle.std.specs.Prelude.{◌≡◌};

use bytes::Bytes;
use kv_model::call::RangeQuery;
use kv_model::version::KeyRange;
use lease_book::TimeLeft;
use range_view::reply::{KvRef, OpReply, RangeReply};
use txn_core::step::Step;

/// What an accepted command did, and what is left to read for its answer.
#[derive(Drop)]
pub struct Receipt<'c> {
    /// The number of changing calls, wrapping, when the command was done.
    pub stamp: u64,
    /// The revision of the store after the command.
    pub revision: u64,
    /// The new revision, where the command raised it.
    pub raised: Option<u64>,
    /// The number of a watch that the command made.
    pub watch: Option<u64>,
    pub todo: Todo<'c>,
}

impl Receipt<'_> {
    ghost use Rattle.request_core.specs.Answers.{has_changed};

    /// Whether the command changed the store. Takes no memory.
    pub fn has_changed(&self) -> bool
        ensures { result ≡ has_changed self.now }
    {
        self.raised.is_some() || self.todo.is_beside()
    }
}

/// What is left to read for an answer.
#[derive(Drop)]
pub enum Todo<'c> {
    /// The live keys of a range.
    Range(&'c RangeQuery),
    /// What the key held before the put, where that is asked for.
    Put {
        key: &'c Bytes,
        previous: bool,
    },
    /// What the deleted keys held before, where that is asked for and some key was deleted.
    Delete {
        range: &'c KeyRange,
        previous: bool,
        deleted: u64,
    },
    /// What the operations of a transaction saw.
    Txn {
        /// The revision that the transaction found.
        before: u64,
        /// Whether all its compares held.
        succeeded: bool,
        /// The operations that ran.
        steps: Vec<Step<'c>>,
    },
    /// A granted lease, with its time to live in seconds.
    Grant {
        id: i64,
        ttl: u64,
    },
    /// A lease is revoked.
    Revoke,
    /// A renewed lease, with its time to live in seconds; `None` where no lease has the ID, and
    /// then nothing changed.
    KeepAlive {
        id: i64,
        ttl: Option<u64>,
    },
    /// How long a lease still has and, where `keys` says so, its keys.
    TimeToLive {
        id: i64,
        keys: bool,
    },
    /// The IDs of all leases.
    Leases,
    /// What comes before a revision is compacted.
    Compact,
    /// A watch that is made, with the client's number for it and the store's.
    Watch {
        id: i64,
        number: u64,
    },
}

impl Todo<'_> {
    ghost use Rattle.request_core.specs.Answers.{is_beside, watch_of};

    /// Whether the command changed something besides the versions.
    pub(crate) fn is_beside(&self) -> bool
        ensures { result ≡ is_beside self.now }
    {
        match self {
            Todo::Grant { .. } | Todo::Revoke | Todo::Compact | Todo::Watch { .. } => true,
            Todo::KeepAlive { ttl, .. } => ttl.is_some(),
            _ => false,
        }
    }

    /// The store's number of the watch that the command made, if it made one.
    pub(crate) fn watch(&self) -> Option<u64>
        ensures { result ≡ watch_of self.now }
    {
        match self {
            Todo::Watch { number, .. } => Some(*number),
            _ => None,
        }
    }
}

/// The answer to a command, which lends from the core (the etcd documentation's API reference).
#[derive(Drop)]
pub enum Answer<'a> {
    Range(RangeReply<'a>),
    Put {
        revision: u64,
        previous: Option<KvRef<'a>>,
    },
    Delete {
        revision: u64,
        /// How many keys were deleted.
        deleted: u64,
        /// What they held before, in the order of the keys; empty where that is not asked for.
        previous: Vec<KvRef<'a>>,
    },
    Txn {
        revision: u64,
        /// Whether all its compares held.
        succeeded: bool,
        /// The answers to the operations that ran, in their order.
        replies: Vec<OpReply<'a>>,
    },
    Grant {
        revision: u64,
        /// The lease that is granted.
        id: i64,
        /// Its time to live, in seconds.
        ttl: u64,
    },
    Revoke {
        revision: u64,
    },
    KeepAlive {
        revision: u64,
        id: i64,
        /// The time to live, in seconds, and 0 where no lease has the ID.
        ttl: u64,
    },
    TimeToLive {
        revision: u64,
        id: i64,
        /// How long the lease still has; `None` where no lease has the ID.
        left: Option<TimeLeft>,
        /// The live keys whose last put names the lease, ascending; empty where they are not asked
        /// for.
        keys: Vec<&'a [u8]>,
    },
    Leases {
        revision: u64,
        /// The IDs of the granted leases, ascending.
        ids: Vec<i64>,
    },
    Compact {
        revision: u64,
    },
    Watch {
        revision: u64,
        /// The client's number for the watch.
        id: i64,
        /// The store's.
        number: u64,
    },
}

/// What a step of expiry did.
#[derive(Clone, Copy, Debug, PartialEq, Eq)]
pub enum Expiry {
    /// No lease is due.
    Nothing,
    /// This lease is revoked, and that is the revision after it; `raised` says whether some key was
    /// deleted with it, so that the revision rose.
    Expired {
        id: i64,
        revision: u64,
        raised: bool,
    },
}

/// The store's numbers.
#[derive(Clone, Copy, Debug, PartialEq, Eq)]
pub struct Status {
    pub revision: u64,
    /// The revision of the last accepted compaction, 0 before the first.
    pub compacted: u64,
    /// The clock, in milliseconds.
    pub clock: u64,
    /// How many versions are kept.
    pub versions: u64,
}
