//! A lease as the book keeps it.
ghost use Rattle.std.specs.Prelude.{◌≤◌};

/// A granted lease: its ID, its time to live in seconds, and its deadline in milliseconds of the
/// clock.
#[derive(Clone, Copy)]
pub struct Entry {
    pub id: i64,
    pub ttl: u64,
    pub deadline: u64,
    ghost ttl_fits: { ttl ≤ 9_000_000_000 },
}

impl Entry {
    ghost use Rattle.std.specs.Prelude.{◌≡◌, ◌≤◌, ◌^◌, pos, int_lt};
    ghost use Rattle.std.specs.Prelude.{if◌then◌else◌, Some, option_map};
    ghost use Rattle.kv_model.specs.Leases.{sooner, renewed, deadline_of};
    ghost use Rattle.lease_book.specs.Entries.{lease_of, first_of};

    /// The one of two leases that expires first: the earlier deadline, and the lesser ID among
    /// equal ones.
    pub fn sooner(self, other: Option<Entry>) -> Entry
        ensures { Some (lease_of result) ≡ sooner (lease_of self) (option_map lease_of other) }
    {
        match other {
            None => self,
            Some(other) => {
                if self.deadline < other.deadline
                    || (self.deadline == other.deadline && self.id < other.id)
                {
                    self
                } else {
                    other
                }
            }
        }
    }

    /// The one of two leases that expires first, where this one stands behind the other.
    pub fn sooner_behind(self, first: Option<Entry>) -> Entry
        ensures { Some (lease_of result) ≡ first_of (option_map lease_of first)
            (Some (lease_of self)) }
    {
        match first {
            None => self,
            Some(first) => first.sooner(Some(self)),
        }
    }

    /// 1 where the ID is above 0, and else 0.
    pub fn positive(self) -> u32
        ensures { result ≡ (if int_lt (pos 0) self.id then 1 else 0) }
    {
        if self.id > 0 { 1 } else { 0 }
    }

    /// The lease with the deadline that a clock in milliseconds gives it.
    pub fn renewed(self, clock: u64) -> Entry
        requires { clock ≤ 2 ^ 62 }
        ensures { lease_of result ≡ record
            (lease_of self) { deadline = deadline_of clock self.ttl } }
    {
        Entry {
            id: self.id,
            ttl: self.ttl,
            deadline: clock + self.ttl * 1000,
        }
    }
}
