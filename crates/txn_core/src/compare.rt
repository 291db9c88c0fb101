//! Whether the compares of a transaction hold (the etcd documentation's Compare).
ghost use Rattle.std.specs.Prelude.{◌≡◌, ◌≢◌, [], IfOk, OnErr};
ghost use Rattle.std.specs.List.{list_all};
ghost use Rattle.kv_model.specs.History as history;
ghost use Rattle.kv_model.specs.Txns as txns;

use kv_model::call::Compare;
use live_keys::LiveKeys;
use range_view::View;
use std::alloc::{AllocError, Global};

/// Whether all the compares hold of what is kept at the end of the view's revision, whose live keys
/// `keys` are.
///
/// `AllocError` comes where a list of what the keys of a range hold, or of all live keys, found no
/// memory. The ranges are looked at one after another, up to the first compare that does not hold,
/// each as `LiveKeys::holds` says; one key is looked up. Where there are no compares, no memory is
/// taken.
pub(crate) fn all_hold(
    alloc: Global,
    view: &View<'_>,
    keys: &mut LiveKeys<'_>,
    compares: &[Compare],
) -> Result<bool, AllocError>
    requires present { view.now.place ≡ history.end_of view.now.revision }
    requires keys { keys.old ≡ view.now }
    ensures hold { IfOk result (λ b. b
        ≡ list_all (txns.holds view.now.versions view.now.revision) compares.now) }
    ensures free { OnErr result (compares.now ≢ []) }
    ensures keys { keys.new ≡ view.now }
{
    for compare in compares {
        if !keys.holds(alloc, compare)? {
            return Ok(false);
        }
    }
    Ok(true)
}
