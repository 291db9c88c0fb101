//! What a transaction is refused for, whatever the state.
ghost use Rattle.std.specs.Prelude.{◌≡◌, ◌⊎◌, OnOk, IfErr, Some, None};
ghost use Rattle.kv_model.specs.declared.refusal.Refusal.TheVariants.{Memory};
ghost use Rattle.kv_model.specs.Commands.{txn_view};
ghost use Rattle.kv_model.specs.Txns as txns;
ghost use Rattle.txn_core.specs.Checking as checking;

use crate::clash::any_clash;
use crate::fault::walk_fault;
use kv_model::call::Txn;
use kv_model::refusal::Refusal;
use std::alloc::{AllocError, Global};

/// Whether a transaction may run, as far as the request itself shows (the etcd documentation,
/// TxnRequest). Its keys are listed in memory of `alloc`.
///
/// Refused for the first fault in the order of its document: `TooDeep`, `TooManyOps`, `NoKey`,
/// `ValueGiven` or `LeaseGiven`, as `walk_fault` says. Then as `DuplicateKey` where two operations
/// that can run together put one key, or one of them puts a key in the range of the other's delete.
/// `Memory` comes where there is no fault, and the lists of keys for that found none.
///
/// The walk is linear. The search sorts the keys that are put, so it takes n log n comparisons of
/// keys in the number of operations; where a key that is put is touched twice, in opposite branches
/// maybe, it takes as many again for each of the at most eight levels.
#[tactic(auto, using(crate::proofs::StaticFaults::refused_by_fault))]
pub fn check(alloc: Global, txn: &Txn) -> Result<(), Refusal>
    ensures allowed { OnOk result (txns.static_fault (txn_view txn.now) ≡ None) }
    ensures refused { IfErr result (λ e. (txns.static_fault (txn_view txn.now) ≡ Some e)
        ⊎ ((txns.walk_fault 0 (txn_view txn.now) ≡ None) × (e ≡ Memory))) }
{
    if let Some(fault) = walk_fault(txn) {
        return Err(fault);
    }
    told_of_search(any_clash(alloc, txn))
}

/// What the search for a clash comes to: `DuplicateKey` where it found one, and `Memory` only where
/// it found no memory.
fn told_of_search(found: Result<bool, AllocError>) -> Result<(), Refusal>
    ensures { result ≡ checking.told_of_search found }
{
    match found {
        Ok(true) => Err(Refusal::DuplicateKey),
        Ok(false) => Ok(()),
        Err(_) => Err(Refusal::Memory),
    }
}
