//! Range.
ghost use Rattle.kv_model.specs.History.{end_of};
ghost use Rattle.kv_model.specs.Ranges.{range_reply, revision_refusal};
ghost use Rattle.range_view.specs.Replies.{reply_view};
ghost use Rattle.std.specs.Prelude.{◌≡◌, IfOk, IfErr, None};

use super::Core;
use crate::answer::Todo;
use kv_model::call::RangeQuery;
use kv_model::refusal::Refusal;
use range_view::reply::RangeReply;
use range_view::revision::revision_refusal;
use std::alloc::AllocError;

impl Core {
    ghost use Rattle.kv_model.specs.Calls.{Call};
    ghost use Rattle.store_laws.specs.Stores.{refusal_of_range};
    ghost use Rattle.request_core.specs.Commands.{CarriesOut, Refuses};

    /// A Range changes nothing, and takes no memory before its answer.
    pub(crate) fn apply_range<'c>(&self, query: &'c RangeQuery) -> Result<Todo<'c>, Refusal>
        ensures done { IfOk result (λ t. CarriesOut self.now self.now (Call.range query.now) t) }
        ensures refused { IfErr result (λ e. Refuses self.now self.now (Call.range query.now) e) }
    {
        match self.fault_of_range(query) {
            Some(refusal) => Err(refusal),
            None => Ok(Todo::Range(query)),
        }
    }

    /// The first refusal of a Range, if there is one.
    fn fault_of_range(&self, query: &RangeQuery) -> Option<Refusal>
        ensures { result ≡ refusal_of_range self.now.store query.now }
    {
        if query.range.key.is_empty() {
            return Some(Refusal::NoKey);
        }
        revision_refusal(self.tables.compacted(), self.tables.revision(), query)
    }

    /// The reply to a Range whose revision is not refused.
    pub(crate) fn range(&self, query: &RangeQuery) -> Result<RangeReply<'_>, AllocError>
        requires { revision_refusal self.now.store.compacted self.now.store.revision
            query.now.revision ≡ None }
        ensures { IfOk result (λ r. reply_view r
            ≡ range_reply self.now.store.versions self.now.store.revision
            (end_of self.now.store.revision) query.now) }
    {
        match self.tables.view().range(self.alloc, query) {
            Ok(reply) => Ok(reply),
            Err(Refusal::Memory) => Err(AllocError),
            Err(_) => unreachable!(),
        }
    }
}
