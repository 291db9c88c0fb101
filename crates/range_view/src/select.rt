//! What a Range shows of the live keys that a walk finds (the etcd documentation's RangeRequest and
//! RangeResponse).
ghost use Rattle.std.specs.Prelude.{◌≡◌, ◌-◌, ◌^◌, ◌<◌, ◌≤◌, List, [], ◌∷◌, ◌++◌, map, true};
ghost use Rattle.std.specs.Prelude.{not, ◌&&◌, nat_lt, OnOk, IfOk};
ghost use Rattle.kv_model.specs.declared.call.RangeQuery.{RangeQuery};
ghost use Rattle.kv_model.specs.History.{KeyValue};
ghost use Rattle.kv_model.specs.Ranges.{first_few, stripped, reply_from};
ghost use Rattle.range_view.specs.Replies.{kv_view, reply_view};
ghost use Rattle.range_view.specs.Selecting.{arranged, most_needed, IsFound, AreByKey};

use crate::filter::passes;
use crate::order::{keeps_order, sort};
use crate::reply::{KvRef, RangeReply};
use kv_model::call::RangeQuery;
use std::alloc::{AllocError, Global};

/// What a walk over the live keys of a range, in their order, has found so far.
#[derive(Drop)]
pub struct Found<'a> {
    /// The first of those that pass the filters, as many as the answer can need.
    pub kvs: Vec<KvRef<'a>>,
    /// How many of the keys pass the filters.
    pub hits: u64,
    /// How many keys there are.
    pub count: u64,
}

/// How many of those that pass the filters the answer can need, where there is a bound.
fn most_needed(query: &RangeQuery) -> Option<u64>
    ensures { result ≡ most_needed query.now }
{
    if query.count_only {
        Some(0)
    } else if keeps_order(query.order, query.target) && query.limit > 0 {
        Some(query.limit as u64)
    } else {
        None
    }
}

/// Brings what was found into the order asked for. `AllocError` comes where a sort finds no memory.
fn arrange(kvs: &mut Vec<KvRef<'_>>, query: &RangeQuery) -> Result<(), AllocError>
    ensures { OnOk result
        (map kv_view kvs.new.items ≡ arranged query.now (map kv_view kvs.old.items)) }
{
    if keeps_order(query.order, query.target) {
        Ok(())
    } else {
        sort(kvs, query.order, query.target)
    }
}

/// Cuts a list to the limit asked for, where 0 and below is none.
fn cut(kvs: &mut Vec<KvRef<'_>>, query: &RangeQuery)
    ensures { kvs.new.items ≡ first_few query.now.limit kvs.old.items }
{
    if query.limit > 0 {
        kvs.truncate(query.limit as usize);
    }
}

/// Whether the limit left some out, which a count alone does not say.
fn is_cut(count_only: bool, shown: usize, hits: u64) -> bool
    ensures { result ≡ (not count_only && nat_lt shown hits) }
{
    !count_only && (shown as u64) < hits
}

/// Leaves out every value.
fn clear_values(kvs: &mut [KvRef<'_>])
    ensures { map kv_view kvs.new ≡ map (stripped true) (map kv_view kvs.old) }
{
    for kv in kvs.iter_mut() {
        kv.value = &[];
    }
}

/// Leaves out every value where the keys alone are asked for.
fn strip(kvs: &mut [KvRef<'_>], keys_only: bool)
    ensures { map kv_view kvs.new ≡ map (stripped keys_only) (map kv_view kvs.old) }
{
    if keys_only {
        clear_values(kvs);
    }
}

impl<'a> Found<'a> {
    /// Nothing found yet.
    pub fn new(alloc: Global) -> Self
        ensures { (q : RangeQuery) → IsFound q result [] }
    {
        Found {
            kvs: Vec::new(alloc),
            hits: 0,
            count: 0,
        }
    }

    /// Takes the next live key. `AllocError` comes where the list found no memory to grow.
    pub fn add(&mut self, query: &RangeQuery, kv: KvRef<'a>) -> Result<(), AllocError>
        requires counted { self.old.count < 2 ^ 64 - 1 }
        requires passed { self.old.hits ≤ self.old.count }
        ensures { (seen : List KeyValue) → IsFound query.now self.old seen
            → OnOk result (IsFound query.now self.new (seen ++ kv_view kv.entry ∷ [])) }
    {
        self.count += 1;
        if passes(query, &kv) {
            let is_needed = match most_needed(query) {
                Some(most) => self.hits < most,
                None => true,
            };
            if is_needed {
                self.kvs.push(kv)?;
            }
            self.hits += 1;
        }
        Ok(())
    }

    /// The answer, at the revision of the store that was read. A sort takes memory, and
    /// `AllocError` comes where there is none.
    pub fn finish(self, query: &RangeQuery, revision: u64) -> Result<RangeReply<'a>, AllocError>
        ensures { (seen : List KeyValue) → AreByKey seen → IsFound query.now self.entry seen
            → IfOk result (λ r. reply_view r ≡ reply_from query.now revision seen) }
    {
        let Found {
            mut kvs,
            hits,
            count,
        } = self;
        arrange(&mut kvs, query)?;
        cut(&mut kvs, query);
        let more = is_cut(query.count_only, kvs.len(), hits);
        strip(&mut kvs, query.keys_only);
        Ok(RangeReply {
            kvs,
            count,
            more,
            revision,
        })
    }
}
