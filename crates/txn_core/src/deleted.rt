//! Which keys a transaction has deleted so far: an ordered set of the standard library, of keys
//! that are lent.
ghost use Rattle.std.specs.Prelude.{◌≡◌, ◌||◌, ℕ, List, false, IfOk, OnOk, OnErr};
ghost use Rattle.kv_model.specs.Keys.{same_key};
ghost use Rattle.txn_core.specs.Graves.{has_key};

use std::alloc::{AllocError, Global};
use std::collections::BTreeSet;

/// No key.
pub(crate) fn none<'a>(alloc: Global) -> BTreeSet<&'a [u8]>
    ensures { (k : List ℕ) → has_key k result ≡ false }
{
    BTreeSet::new(alloc)
}

/// Whether the key is among them. The time is logarithmic in their number.
pub(crate) fn has(deleted: &BTreeSet<&[u8]>, key: &[u8]) -> bool
    ensures { result ≡ has_key key.now deleted.now }
{
    deleted.contains(key)
}

/// Adds a key. The error is want of memory. The time is logarithmic in their number.
pub(crate) fn add<'a>(deleted: &mut BTreeSet<&'a [u8]>, key: &'a [u8]) -> Result<(), AllocError>
    ensures ok { OnOk result
        ((k : List ℕ) → has_key k deleted.new ≡ (has_key k deleted.old || same_key key.now k)) }
    ensures err { OnErr result ((k : List ℕ) → has_key k deleted.new ≡ has_key k deleted.old) }
{
    deleted.insert(key)?;
    Ok(())
}
