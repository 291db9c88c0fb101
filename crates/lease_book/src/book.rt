//! The leases that are granted, and the clock (etcd: LeaseGrant, LeaseRevoke, LeaseKeepAlive,
//! LeaseTimeToLive).
ghost use Rattle.std.specs.Prelude.{◌≡◌, ◌⊎◌, ◌^◌, ◌<◌, false, [], length, map, max, min};
ghost use Rattle.std.specs.Prelude.{is_ok, option_map, IfOk, IfErr, OnOk, OnErr, Some, None};
ghost use Rattle.kv_model.specs.declared.refusal.Refusal.TheVariants.{Memory, LeaseMissing};
ghost use Rattle.kv_model.specs.Leases.{is_granted, lease_at, insert_lease, without_lease, renewed};
ghost use Rattle.kv_model.specs.Leases.{seconds_left, due, id_asked, ttl_asked, most_leases};
ghost use Rattle.lease_book.specs.Book.{refusal_of, lease_asked};

use crate::entry::Entry;
use crate::tree::Tree;
use kv_model::refusal::Refusal;
use std::alloc::{AllocError, Global};
use std::marker::Model;

/// The greatest number of leases at one time.
const MOST_LEASES: u32 = 65_536;

/// The greatest time to live, in seconds.
const LONGEST_TTL: u64 = 9_000_000_000;

/// The greatest moment, in milliseconds.
const LAST_MOMENT: u64 = 1 << 62;

/// What a grant answers.
#[derive(Clone, Copy, Debug, PartialEq, Eq)]
pub struct Granted {
    pub id: i64,
    /// The time to live, in seconds.
    pub ttl: u64,
}

/// How long a lease still has.
#[derive(Clone, Copy, Debug, PartialEq, Eq)]
pub struct TimeLeft {
    /// Whole seconds to the deadline, 0 from it on.
    pub seconds: u64,
    /// The time to live that was granted, in seconds.
    pub granted: u64,
}

/// The granted leases, ascending by ID, and a clock in milliseconds that only goes forward.
///
/// The leases stand in a search tree by ID that is balanced by weight. Each node also knows of the
/// leases below it how many there are, how many have an ID above 0, and which expires first: so one
/// path from the root answers which ID is free, and the root itself which lease is due. A grant
/// takes one node; nothing else takes memory.
#[derive(Drop)]
pub struct LeaseBook {
    leases: Tree,
    clock: u64,
    alloc: Global,
}

impl Model for LeaseBook {
    ghost use Rattle.std.specs.Prelude.{◌≤◌, ◌^◌};
    ghost use Rattle.lease_book.specs.Book.{Book};

    ghost Value = { Book };

    ghost view = { λ b. record { leases = b.leases; clock = b.clock } };

    ghost invariant = { λ b. b.clock ≤ 2 ^ 62 };
}

impl LeaseBook {
    /// No lease, and the clock at 0. Its grants take their memory from `alloc`.
    pub fn new(alloc: Global) -> Self
        ensures { result ≡ record { leases = []; clock = 0 } }
    {
        LeaseBook {
            leases: Tree::new(),
            clock: 0,
            alloc,
        }
    }

    /// Hands in the present moment, in milliseconds, and answers the clock: the greatest moment so
    /// far. An earlier one changes nothing, and one above 2^62 counts as 2^62. Takes no memory.
    /// Constant time.
    pub fn moment(&mut self, now: u64) -> u64
        ensures clock { self.new
            ≡ record self.old { clock = max self.old.clock (min now (2 ^ 62)) } }
        ensures answer { result ≡ self.new.clock }
    {
        self.clock = self.clock.max(now.min(LAST_MOMENT));
        self.clock
    }

    /// The clock, in milliseconds: the greatest moment so far, at first 0. Takes no memory.
    /// Constant time.
    pub fn clock(&self) -> u64
        ensures { result ≡ self.now.clock }
    {
        self.clock
    }

    /// Whether a lease has the ID. Takes no memory. Logarithmic time.
    pub fn is_granted(&self, id: i64) -> bool
        ensures { result ≡ is_granted self.now.leases id }
    {
        self.leases.get(id).is_some()
    }

    /// Grants a lease of `ttl` seconds, where less than 1 counts as 1, under `id`, where 0 asks for
    /// the least ID above 0 that is not in use. Its deadline is the clock and the time to live.
    /// Logarithmic time (etcd: LeaseGrant).
    ///
    /// The refusals, in this order: `TtlTooLarge` above 9,000,000,000 seconds, `LeaseExists` for an
    /// ID in use, `TooManyLeases` where 65,536 are granted, `Memory`. A refusal changes nothing.
    pub fn grant(&mut self, ttl: i64, id: i64) -> Result<Granted, Refusal>
        ensures allowed { OnOk result (refusal_of self.old ttl id ≡ None) }
        ensures answer { IfOk result (λ g. g
            ≡ record { id = id_asked self.old.leases id; ttl = ttl_asked ttl }) }
        ensures granted { OnOk result (self.new ≡ record self.old {
          leases = insert_lease (lease_asked self.old ttl id) self.old.leases;
        }) }
        ensures refused { IfErr result (λ e. (refusal_of self.old ttl id ≡ Some e)
            ⊎ ((refusal_of self.old ttl id ≡ None) × (e ≡ Memory))) }
        ensures unchanged { OnErr result (self.new ≡ self.old) }
    {
        let ttl = at_least_one(ttl);
        if ttl > LONGEST_TTL {
            return Err(Refusal::TtlTooLarge);
        }
        if self.is_granted(id) {
            return Err(Refusal::LeaseExists);
        }
        if self.leases.len() >= MOST_LEASES {
            return Err(Refusal::TooManyLeases);
        }
        let id = self.id_for(id);
        let deadline = self.clock + ttl * 1000;
        match self.leases.insert(self.alloc, Entry { id, ttl, deadline }) {
            Ok(()) => Ok(Granted { id, ttl }),
            Err(_) => Err(Refusal::Memory),
        }
    }

    /// The ID that a grant gives where it is asked for `id`.
    fn id_for(&self, id: i64) -> i64
        requires { length self.now.leases < most_leases }
        ensures asked { result ≡ id_asked self.now.leases id }
        ensures free { is_granted self.now.leases id ≡ false
            → is_granted self.now.leases result ≡ false }
    {
        if id == 0 {
            i64::from(self.leases.least_free())
        } else {
            id
        }
    }

    /// Takes a lease out. `LeaseMissing` comes where no lease has the ID, and then nothing has
    /// changed. Takes no memory. Logarithmic time (etcd: LeaseRevoke).
    pub fn revoke(&mut self, id: i64) -> Result<(), Refusal>
        ensures found { is_ok result ≡ is_granted self.old.leases id }
        ensures missing { IfErr result (λ e. e ≡ LeaseMissing) }
        ensures leases { self.new ≡ record self.old { leases = without_lease id self.old.leases } }
    {
        if self.leases.remove(id) {
            Ok(())
        } else {
            Err(Refusal::LeaseMissing)
        }
    }

    /// Sets the deadline of a lease anew, from the clock on, and answers its time to live in
    /// seconds, or `None` where no lease has the ID. It may be past its deadline. Takes no memory.
    /// Logarithmic time (etcd: LeaseKeepAlive).
    pub fn keep_alive(&mut self, id: i64) -> Option<u64>
        ensures ttl { result ≡ option_map (λ l. l.ttl) (lease_at self.old.leases id) }
        ensures leases { self.new
            ≡ record self.old { leases = map (renewed self.old.clock id) self.old.leases } }
    {
        let clock = self.clock;
        self.leases.renew(id, clock)
    }

    /// How long a lease still has, or `None` where no lease has the ID. Takes no memory.
    /// Logarithmic time (etcd: LeaseTimeToLive).
    pub fn time_left(&self, id: i64) -> Option<TimeLeft>
        ensures { result ≡ option_map
            (λ l. record { seconds = seconds_left self.now.clock l; granted = l.ttl })
            (lease_at self.now.leases id) }
    {
        match self.leases.get(id) {
            None => None,
            Some(entry) => Some(TimeLeft {
                seconds: entry.deadline.saturating_sub(self.clock) / 1000,
                granted: entry.ttl,
            }),
        }
    }

    /// The ID of the lease that expires first, the least one among equal deadlines, where its
    /// deadline is not after the clock. Takes no memory. Constant time.
    pub fn due(&self) -> Option<i64>
        ensures { result ≡ option_map (λ l. l.id) (due self.now.clock self.now.leases) }
    {
        match self.leases.earliest() {
            None => None,
            Some(entry) => if entry.deadline <= self.clock {
                Some(entry.id)
            } else {
                None
            },
        }
    }

    /// The IDs, ascending. The error is want of memory. Linear time (etcd: LeaseLeases).
    pub fn ids(&self) -> Result<Vec<i64>, AllocError>
        ensures { IfOk result (λ v. v.items ≡ map (λ l. l.id) self.now.leases) }
    {
        let mut ids = Vec::new(self.alloc);
        self.leases.push_ids(&mut ids)?;
        Ok(ids)
    }
}

/// A time to live, of at least one second.
fn at_least_one(ttl: i64) -> u64
    ensures { result ≡ ttl_asked ttl }
{
    if ttl < 1 { 1 } else { ttl as u64 }
}
