//! The operations of a transaction that run.
use kv_model::call::{DeleteRequest, PutRequest, RangeQuery};
use kv_model::version::Version;

/// An operation that runs, in the order of the document (the etcd documentation's RequestOp).
#[derive(Drop)]
pub enum Step<'t> {
    Range(&'t RangeQuery),
    Put(&'t PutRequest),
    Delete(&'t DeleteRequest),
    /// A transaction within.
    Inner {
        /// Whether all its compares hold.
        succeeded: bool,
        /// The operations of the branch that runs.
        steps: Vec<Step<'t>>,
    },
}

/// What a transaction does.
#[derive(Drop)]
pub struct Plan<'t> {
    /// Whether all its compares hold.
    pub succeeded: bool,
    /// The operations of the branch that runs.
    pub steps: Vec<Step<'t>>,
    /// The versions that they make, in the order of the operations.
    pub versions: Vec<Version>,
}
