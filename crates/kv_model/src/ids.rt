//! The numbers that each answer's header names.

/// The cluster and the member that answer (the etcd documentation's ResponseHeader).
#[derive(Clone, Copy, Debug, PartialEq, Eq)]
pub struct Ids {
    pub cluster: u64,
    pub member: u64,
}
