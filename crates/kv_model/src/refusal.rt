//! Why a command is refused.
ghost use Rattle.std.specs.Prelude.{◌≡◌};
ghost use Rattle.kv_model.specs.Refusals.{number_of};

/// Why the store refuses a command. A refused command changes nothing but the clock.
#[derive(Clone, Copy, Debug, PartialEq, Eq)]
pub enum Refusal {
    /// A growth found no memory.
    Memory,
    /// The revision asked for is below that of the last compaction, which it carries.
    Compacted(u64),
    /// The revision asked for is above the store's, which it carries.
    Future(u64),
    /// A key is empty.
    NoKey,
    /// A transaction has more than 1,024 compares or operations in a branch.
    TooManyOps,
    /// Two operations of a transaction that can run together change one key, one of them by a put.
    DuplicateKey,
    /// A put keeps the old value and brings one.
    ValueGiven,
    /// A put keeps the old lease and brings one.
    LeaseGiven,
    /// Transactions are nested deeper than 8.
    TooDeep,
    /// A put keeps the old value or lease of a key that is not there.
    KeyMissing,
    /// The lease is not granted.
    LeaseMissing,
    /// A lease with this ID is granted already.
    LeaseExists,
    /// A time to live is above 9,000,000,000 seconds.
    TtlTooLarge,
    /// 65,536 leases are granted already.
    TooManyLeases,
    /// 1,024 watches stand already, or their numbers are spent.
    TooManyWatches,
    /// No watch has this number.
    NoWatch,
    /// A change would need a revision above 2^63 - 1.
    RevisionsSpent,
    /// The engine has made all the clients it can, or no reader's place is free. It never comes on
    /// the wire.
    NoPlace,
}

impl Refusal {
    /// The refusal's number, by which tests name it. Takes no memory.
    pub fn number(self) -> u8
        ensures { result ≡ number_of self }
    {
        match self {
            Refusal::Memory => 1,
            Refusal::Compacted(_) => 2,
            Refusal::Future(_) => 3,
            Refusal::NoKey => 4,
            Refusal::TooManyOps => 5,
            Refusal::DuplicateKey => 6,
            Refusal::ValueGiven => 7,
            Refusal::LeaseGiven => 8,
            Refusal::TooDeep => 9,
            Refusal::KeyMissing => 10,
            Refusal::LeaseMissing => 11,
            Refusal::LeaseExists => 12,
            Refusal::TtlTooLarge => 13,
            Refusal::TooManyLeases => 14,
            Refusal::TooManyWatches => 15,
            Refusal::NoWatch => 16,
            Refusal::RevisionsSpent => 17,
            Refusal::NoPlace => 18,
        }
    }
}
