//! At which revision a Range reads, and where it may not (the etcd documentation's RangeRequest:
//! revision).
ghost use Rattle.std.specs.Prelude.{◌≡◌};
ghost use Rattle.kv_model.specs.History.{end_of};
ghost use Rattle.kv_model.specs.Ranges.{revision_refusal, read_place};

use kv_model::call::RangeQuery;
use kv_model::refusal::Refusal;
use kv_model::version::Rev;

/// The place behind every change of a revision.
pub fn end_of(revision: u64) -> Rev
    ensures { result ≡ end_of revision }
{
    Rev {
        main: revision,
        sub: u64::MAX,
    }
}

/// Why a read at the revision asked for is refused, if it is: one below the last compaction is
/// compacted, and one above the present revision is in the future. 0 and below asks for the
/// present. Takes no memory.
pub fn revision_refusal(compacted: u64, present: u64, query: &RangeQuery) -> Option<Refusal>
    ensures { result ≡ revision_refusal compacted present query.now.revision }
{
    if query.revision <= 0 {
        return None;
    }
    let revision = query.revision as u64;
    if revision < compacted {
        Some(Refusal::Compacted(compacted))
    } else if revision > present {
        Some(Refusal::Future(present))
    } else {
        None
    }
}

/// The place that a read sees: the end of the revision asked for, or the given place where none is.
pub fn read_place(query: &RangeQuery, place: Rev) -> Rev
    ensures { result ≡ read_place query.now.revision place }
{
    if query.revision > 0 {
        end_of(query.revision as u64)
    } else {
        place
    }
}
