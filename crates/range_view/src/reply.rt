//! What a read lends.
ghost use Rattle.std.specs.Prelude.{◌≡◌, option_map};
ghost use Rattle.kv_model.specs.History.{key_value};
ghost use Rattle.range_view.specs.Replies.{kv_view};

use kv_model::version::{Body, Version};

/// A live key, lent from the version that holds it (the etcd documentation's KeyValue).
#[derive(Clone, Copy, Debug)]
pub struct KvRef<'a> {
    pub key: &'a [u8],
    pub value: &'a [u8],
    /// The revision of the put that created the key.
    pub create: u64,
    /// The revision of the key's last put.
    pub modified: u64,
    /// The number of the key's puts since it was created.
    pub version: u64,
    /// The lease that the last put named, 0 for none.
    pub lease: i64,
}

/// The answer to a Range (the etcd documentation's RangeResponse).
#[derive(Debug, Drop)]
pub struct RangeReply<'a> {
    /// What is shown, in the order asked for.
    pub kvs: Vec<KvRef<'a>>,
    /// How many live keys the range has, before filters and limit.
    pub count: u64,
    /// Whether the limit cut some.
    pub more: bool,
    /// The revision of the store that was read.
    pub revision: u64,
}

/// What an operation of a transaction is answered (the etcd documentation's ResponseOp).
#[derive(Drop)]
pub enum OpReply<'a> {
    Range(RangeReply<'a>),
    /// What the key held before the put; `None` where that is not asked for.
    Put(Option<KvRef<'a>>),
    Delete {
        /// How many keys were deleted.
        deleted: u64,
        /// What they held before, in the order of the keys; empty where that is not asked for.
        previous: Vec<KvRef<'a>>,
    },
    /// A transaction within.
    Inner {
        /// Whether its compares held.
        succeeded: bool,
        /// The answers to the operations of the branch that ran, in order.
        replies: Vec<OpReply<'a>>,
    },
}

/// The key-value of a put, lent from its version; nothing for a tombstone. Constant time. Takes no
/// memory.
pub fn key_value_of(version: &Version) -> Option<KvRef<'_>>
    ensures { option_map kv_view result ≡ key_value version.now }
{
    match &version.body {
        Body::Put {
            create,
            version: number,
            lease,
            value,
        } => Some(KvRef {
            key: version.key.as_slice(),
            value: value.as_slice(),
            create: *create,
            modified: version.rev.main,
            version: *number,
            lease: *lease,
        }),
        Body::Gone => None,
    }
}
