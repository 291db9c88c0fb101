//! The bodies of the store's refusals, which are fixed.
ghost use Rattle.std.specs.Prelude.{◌≡◌};
ghost use Rattle.kv_model.specs.Answers.{fault_of, refused};

use crate::refusals::memory_text;
use kv_model::refusal::Refusal;

const COMPACTED: &[u8] =
    b"{\"code\":11,\"error\":\"etcdserver: mvcc: required revision has been compacted\",\
      \"message\":\"etcdserver: mvcc: required revision has been compacted\"}";

const FUTURE: &[u8] =
    b"{\"code\":11,\"error\":\"etcdserver: mvcc: required revision is a future revision\",\
      \"message\":\"etcdserver: mvcc: required revision is a future revision\"}";

const NO_KEY: &[u8] = b"{\"code\":3,\"error\":\"etcdserver: key is not provided\",\
      \"message\":\"etcdserver: key is not provided\"}";

const TOO_MANY_OPERATIONS: &[u8] =
    b"{\"code\":3,\"error\":\"etcdserver: too many operations in txn request\",\
      \"message\":\"etcdserver: too many operations in txn request\"}";

const DUPLICATE_KEY: &[u8] =
    b"{\"code\":3,\"error\":\"etcdserver: duplicate key given in txn request\",\
      \"message\":\"etcdserver: duplicate key given in txn request\"}";

const VALUE_GIVEN: &[u8] = b"{\"code\":3,\"error\":\"etcdserver: value is provided\",\
      \"message\":\"etcdserver: value is provided\"}";

const LEASE_GIVEN: &[u8] = b"{\"code\":3,\"error\":\"etcdserver: lease is provided\",\
      \"message\":\"etcdserver: lease is provided\"}";

const KEY_MISSING: &[u8] = b"{\"code\":3,\"error\":\"etcdserver: key not found\",\
      \"message\":\"etcdserver: key not found\"}";

const LEASE_MISSING: &[u8] = b"{\"code\":5,\"error\":\"etcdserver: requested lease not found\",\
      \"message\":\"etcdserver: requested lease not found\"}";

const LEASE_EXISTS: &[u8] = b"{\"code\":9,\"error\":\"etcdserver: lease already exists\",\
      \"message\":\"etcdserver: lease already exists\"}";

const TTL_TOO_LARGE: &[u8] = b"{\"code\":11,\"error\":\"etcdserver: too large lease TTL\",\
      \"message\":\"etcdserver: too large lease TTL\"}";

const TOO_MANY_LEASES: &[u8] = b"{\"code\":8,\"error\":\"etcdserver: too many leases\",\
      \"message\":\"etcdserver: too many leases\"}";

const TOO_MANY_WATCHES: &[u8] = b"{\"code\":8,\"error\":\"etcdserver: too many watches\",\
      \"message\":\"etcdserver: too many watches\"}";

const NO_WATCH: &[u8] = b"{\"code\":5,\"error\":\"\",\"message\":\"\"}";

const REVISIONS_SPENT: &[u8] = b"{\"code\":11,\"error\":\"etcdserver: revisions are spent\",\
      \"message\":\"etcdserver: revisions are spent\"}";

const NO_PLACE: &[u8] = b"{\"code\":8,\"error\":\"\",\"message\":\"\"}";

/// The body of a refusal of the store: `{"code":N,"error":TEXT,"message":TEXT}`. Takes no memory.
pub fn refusal_body(refusal: Refusal) -> &'static [u8]
    ensures { result.now ≡ (refused (fault_of refusal)).body }
{
    match refusal {
        Refusal::Memory => memory_text(),
        Refusal::Compacted(_) => COMPACTED,
        Refusal::Future(_) => FUTURE,
        Refusal::NoKey => NO_KEY,
        Refusal::TooManyOps | Refusal::TooDeep => TOO_MANY_OPERATIONS,
        Refusal::DuplicateKey => DUPLICATE_KEY,
        Refusal::ValueGiven => VALUE_GIVEN,
        Refusal::LeaseGiven => LEASE_GIVEN,
        Refusal::KeyMissing => KEY_MISSING,
        Refusal::LeaseMissing => LEASE_MISSING,
        Refusal::LeaseExists => LEASE_EXISTS,
        Refusal::TtlTooLarge => TTL_TOO_LARGE,
        Refusal::TooManyLeases => TOO_MANY_LEASES,
        Refusal::TooManyWatches => TOO_MANY_WATCHES,
        Refusal::NoWatch => NO_WATCH,
        Refusal::RevisionsSpent => REVISIONS_SPENT,
        Refusal::NoPlace => NO_PLACE,
    }
}
