//! What a client asks.
use crate::version::KeyRange;
use bytes::Bytes;

#[derive(Clone, Copy, Debug, PartialEq, Eq, Drop)]
pub enum SortOrder {
    Unsorted,
    Ascend,
    Descend,
}

#[derive(Clone, Copy, Debug, PartialEq, Eq, Drop)]
pub enum SortTarget {
    ByKey,
    ByVersion,
    ByCreate,
    ByMod,
    ByValue,
}

/// A read of the live keys of a range.
#[derive(Debug, Drop)]
pub struct RangeQuery {
    pub range: KeyRange,
    pub limit: i64,
    pub revision: i64,
    pub order: SortOrder,
    pub target: SortTarget,
    pub serializable: bool,
    pub keys_only: bool,
    pub count_only: bool,
    pub min_mod: i64,
    pub max_mod: i64,
    pub min_create: i64,
    pub max_create: i64,
}

#[derive(Debug, Drop)]
pub struct PutRequest {
    pub key: Bytes,
    pub value: Bytes,
    pub lease: i64,
    pub prev_kv: bool,
    pub ignore_value: bool,
    pub ignore_lease: bool,
}

#[derive(Debug, Drop)]
pub struct DeleteRequest {
    pub range: KeyRange,
    pub prev_kv: bool,
}

#[derive(Clone, Copy, Debug, PartialEq, Eq, Drop)]
pub enum Relation {
    IsEqual,
    IsGreater,
    IsLess,
    IsNotEqual,
}

/// What a compare looks at, and the operand given.
#[derive(Debug, Drop)]
pub enum Operand {
    OfVersion(i64),
    OfCreate(i64),
    OfMod(i64),
    OfValue(Bytes),
    OfLease(i64),
}

#[derive(Debug, Drop)]
pub struct Compare {
    pub range: KeyRange,
    pub relation: Relation,
    pub operand: Operand,
}

#[derive(Debug, Drop)]
#[cycle(txn)]
pub enum Operation {
    Range(RangeQuery),
    Put(PutRequest),
    Delete(DeleteRequest),
    Inner(Txn),
}

#[derive(Debug, Drop)]
#[cycle(txn)]
pub struct Txn {
    pub compare: Vec<Compare>,
    pub success: Vec<Operation>,
    pub failure: Vec<Operation>,
}

/// What a watch looks at.
#[derive(Debug, Drop)]
pub struct Watched {
    pub range: KeyRange,
    pub no_put: bool,
    pub no_delete: bool,
    pub prev_kv: bool,
}

/// What a client asks of the store, by one request (the etcd documentation's API reference).
#[derive(Debug, Drop)]
pub enum Command {
    /// Reads the live keys of a range.
    Range(RangeQuery),
    /// Puts a value under a key.
    Put(PutRequest),
    /// Deletes the live keys of a range.
    Delete(DeleteRequest),
    /// Compares, and does one of two lists of operations as one change.
    Txn(Txn),
    /// Forgets the history before a revision, for which no read of an earlier one is answered from
    /// then on. Where `physical` says so, the answer waits until trimming is done.
    Compact {
        revision: i64,
        physical: bool,
    },
    /// Makes a watch from the revision `start` on, where 0 and below mean the next one. `id` is the
    /// client's number for it.
    Watch {
        watched: Watched,
        start: i64,
        id: i64,
    },
    /// Grants a lease of `ttl` seconds under an ID, where 0 asks for a free one.
    Grant {
        ttl: i64,
        id: i64,
    },
    /// Revokes a lease and deletes its keys.
    Revoke {
        id: i64,
    },
    /// Renews a lease.
    KeepAlive {
        id: i64,
    },
    /// Asks how long a lease still has and, where `keys` says so, for its keys.
    TimeToLive {
        id: i64,
        keys: bool,
    },
    /// Asks for the IDs of all leases.
    Leases,
}
