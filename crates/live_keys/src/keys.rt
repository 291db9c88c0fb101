//! The live keys of a range at the end of a revision, and whether compares hold of them.
ghost use Rattle.std.specs.Prelude.{◌≡◌, IfOk, List, ℕ, None, false, map};
ghost use Rattle.kv_model.specs.History as history;
ghost use Rattle.kv_model.specs.Keys as keys;
ghost use Rattle.kv_model.specs.Ranges as ranges;
ghost use Rattle.kv_model.specs.Ranges.{live};
ghost use Rattle.kv_model.specs.Txns as txns;
ghost use Rattle.range_view.specs.Replies.{kv_view, reply_view};

use crate::compare::holds_of;
use crate::lending::live_in;
use crate::listed::{Listed, exchanged, holds_in, list_all};
use crate::replies::reply_in;
use kv_model::call::{Compare, RangeQuery};
use kv_model::version::KeyRange;
use range_view::View;
use range_view::reply::{KvRef, RangeReply};
use shown_ranges::shown::is_present;
use std::alloc::{AllocError, Global};
use std::marker::Model;

/// How many ranges are walked at most before all live keys are listed.
const MOST_WALKS: usize = 64;

/// How many ranges of more keys than `LONG`, live or not, are walked at most.
const MOST_LONG_WALKS: usize = 8;

/// See `MOST_LONG_WALKS`.
const LONG: usize = 256;

/// The live keys of a view, of which it is asked whether compares hold, and what Ranges show.
#[derive(Drop)]
pub struct LiveKeys<'a> {
    view: View<'a>,
    /// How many ranges were walked.
    walks: usize,
    /// How many live keys these have; a long range counts for an eighth of the versions at least.
    walked: usize,
    listed: Option<Listed<'a>>,
}

impl<'a> Model for LiveKeys<'a> {
    ghost use Rattle.range_view.specs.Stored.{Viewed};
    ghost use Rattle.live_keys.specs.Listing.{MayBeListed};

    ghost Value = { Viewed };

    ghost view = { λ k. k.view };

    ghost invariant = { λ k. MayBeListed k.view k.listed };
}

impl<'a> LiveKeys<'a> {
    /// The live keys at a view's place. Takes no memory, and constant time.
    pub fn new(view: View<'a>) -> Self
        ensures { result ≡ view.entry }
    {
        LiveKeys {
            view,
            walks: 0,
            walked: 0,
            listed: None,
        }
    }

    /// Whether a compare holds of what is kept at the end of the view's revision, of which the view
    /// is.
    ///
    /// `AllocError` comes where a list of the keys of a range, or of all, or what is found about
    /// that, found no memory; no later answer is another for it.
    ///
    /// One key is looked up. The first ranges are walked, up to 64 of them, 8 of which have more
    /// than 256 keys, and as long as those walked have fewer live keys than versions are kept. Then all keys are walked once, and from
    /// there on a range is found by two halvings, and its key-values are looked at one after
    /// another: up to 32 of them, or until that were eight times as many as live keys are. From
    /// there on each takes time logarithmic in the live keys, but the first of a field: that takes
    /// linear time for a tree, and where it asks whether they differ from the operand, n log n for
    /// an order.
    pub fn holds(&mut self, alloc: Global, compare: &Compare) -> Result<bool, AllocError>
        requires { self.old.place ≡ history.end_of self.old.revision }
        ensures hold { IfOk result (λ b.
            b ≡ txns.holds self.old.versions self.old.revision compare.now) }
        ensures same { self.new ≡ self.old }
    {
        if compare.range.end.is_empty() {
            return self.holds_of_one(alloc, compare);
        }
        if self.listed.is_none() && self.is_cheap() {
            return self.walk(alloc, compare);
        }
        self.look_up(alloc, compare)
    }

    /// The answer to a Range at the view's place, or at the end of the revision that it asks for. The
    /// caller has seen that this is neither compacted nor in the future.
    ///
    /// `AllocError` comes where a list of what is found, or of all live keys, or a sort of either,
    /// found no memory; no later answer is another for it.
    ///
    /// One key is looked up, and a Range of an earlier revision costs what `View::range` does. The
    /// first ranges are walked, as by `holds`. Then all keys are walked once, and from there on a
    /// range is found by two halvings. A count costs no more. In the order of the keys, from the first
    /// on or from the last, as many key-values are looked at as it takes to find those that the limit
    /// asks for and one more. In another order the keys of the range are looked through for up to 64 that a limit asks for,
    /// and sorted where it asks for more; until that has taken as long as to sort all. From there on
    /// the list is kept in that order, too, and looked through up to those asked for, where the
    /// range is large enough for that to be sooner.
    pub fn range(&mut self, alloc: Global, query: &RangeQuery) -> Result<RangeReply<'a>, AllocError>
        requires { ranges.revision_refusal self.old.compacted self.old.revision query.now.revision
            ≡ None }
        ensures reply { IfOk result (λ r. reply_view r ≡ ranges.range_reply self.old.versions
            self.old.revision self.old.place query.now) }
        ensures same { self.new ≡ self.old }
    {
        if !is_present(query) || query.range.end.is_empty() {
            return self.range_of_view(alloc, query);
        }
        if self.listed.is_none() && self.is_cheap() {
            return self.range_walked(alloc, query);
        }
        self.range_listed(alloc, query)
    }

    /// The answer to a Range by the view.
    fn range_of_view(&self, alloc: Global, query: &RangeQuery) -> Result<RangeReply<'a>, AllocError>
        ensures { IfOk result (λ r. reply_view r ≡ ranges.range_reply self.now.versions
            self.now.revision self.now.place query.now) }
    {
        match self.view.range(alloc, query) {
            Ok(reply) => Ok(reply),
            Err(_) => Err(AllocError),
        }
    }

    /// The same, whose walk is counted.
    fn range_walked(
        &mut self,
        alloc: Global,
        query: &RangeQuery,
    ) -> Result<RangeReply<'a>, AllocError>
        ensures reply { IfOk result (λ r. reply_view r ≡ ranges.range_reply self.old.versions
            self.old.revision self.old.place query.now) }
        ensures same { self.new ≡ self.old }
    {
        let reply = self.range_of_view(alloc, query)?;
        self.note_walk(&query.range, reply.count as usize);
        Ok(reply)
    }

    /// The answer to a Range at the view's place by the list of all live keys, which is made where
    /// there is none.
    fn range_listed(
        &mut self,
        alloc: Global,
        query: &RangeQuery,
    ) -> Result<RangeReply<'a>, AllocError>
        ensures reply { IfOk result (λ r. reply_view r ≡ ranges.reply_from query.now
            self.old.revision (live self.old.versions self.old.place query.now.range)) }
        ensures same { self.new ≡ self.old }
    {
        let mut listed = match self.listed.take() {
            Some(listed) => listed,
            None => list_all(alloc, &self.view)?,
        };
        let reply = reply_in(alloc, &self.view, &mut listed, query);
        self.listed = Some(listed);
        reply
    }

    /// Goes on to another place, or to other tables, where the keys of the range hold these
    /// key-values, and every other key what it held.
    ///
    /// Where there is no memory to note that, what is known of the keys is dropped: no answer is
    /// another for it. A list of all live keys stays: a part of it is found by two halvings, and
    /// what stands behind that is moved. What was found about it is dropped.
    pub fn replace(&mut self, next: View<'a>, range: &KeyRange, kvs: Vec<KvRef<'a>>)
        requires here { map kv_view kvs.items ≡ live next.versions next.place range.now }
        requires beside { (k : List ℕ) → keys.in_range range.now k ≡ false
            → history.value_at next.versions next.place k
            ≡ history.value_at self.old.versions self.old.place k }
        ensures { self.new ≡ next.entry }
    {
        let listed = match self.listed.take() {
            Some(listed) => exchanged(listed, range, kvs),
            None => None,
        };
        self.view = next;
        self.listed = listed;
    }

    /// Goes on to another place, or to other tables, and drops what is known of the keys.
    pub fn skip(&mut self, next: View<'a>)
        ensures { self.new ≡ next.entry }
    {
        self.view = next;
        self.listed = None;
    }

    /// Whether all live keys are listed, so that `replace` has a list to go on with.
    pub fn is_listed(&self) -> bool {
        self.listed.is_some()
    }

    /// Whether one range more may be walked.
    fn is_cheap(&self) -> bool {
        self.walks < MOST_WALKS && self.walked < self.view.count()
    }

    /// A range was walked, of which so many keys are live. A long one of which few are, since they were
    /// deleted, was walked all the same.
    fn note_walk(&mut self, range: &KeyRange, live: usize)
        ensures { self.new ≡ self.old }
    {
        let long = match self.view.nth_key(range, LONG) {
            Some(_) => self.view.count() / MOST_LONG_WALKS,
            None => 0,
        };
        self.walks = self.walks.saturating_add(1);
        self.walked = self.walked.saturating_add(live.max(long));
    }

    /// Whether a compare of one key holds.
    fn holds_of_one(&self, alloc: Global, compare: &Compare) -> Result<bool, AllocError>
        ensures { IfOk result (λ b. b ≡ txns.holds_of compare.now
            (live self.now.versions self.now.place compare.now.range)) }
    {
        let kvs = self.view.live(alloc, &compare.range)?;
        Ok(holds_of(compare, &kvs))
    }

    /// The same by a walk over the keys of its range.
    fn walk(&mut self, alloc: Global, compare: &Compare) -> Result<bool, AllocError>
        ensures hold { IfOk result (λ b. b ≡ txns.holds_of compare.now
            (live self.old.versions self.old.place compare.now.range)) }
        ensures same { self.new ≡ self.old }
    {
        let kvs = self.view.live(alloc, &compare.range)?;
        self.note_walk(&compare.range, kvs.len());
        Ok(holds_of(compare, &kvs))
    }

    /// The same by the list of all live keys, which is made where there is none.
    fn look_up(&mut self, alloc: Global, compare: &Compare) -> Result<bool, AllocError>
        ensures hold { IfOk result (λ b. b ≡ txns.holds_of compare.now
            (live self.old.versions self.old.place compare.now.range)) }
        ensures same { self.new ≡ self.old }
    {
        let mut listed = match self.listed.take() {
            Some(listed) => listed,
            None => list_all(alloc, &self.view)?,
        };
        let is_so = holds_in(alloc, &self.view, &mut listed, compare);
        self.listed = Some(listed);
        is_so
    }

    /// The key-values of the live keys of a range at the view's place, in the order of the keys.
    ///
    /// `AllocError` comes where a list of them, or of all live keys, found no memory; no later answer
    /// is another for it. One key is looked up, and a range is found as by `range`; what is found is
    /// copied, keys and values lent.
    pub fn live(&mut self, alloc: Global, range: &KeyRange) -> Result<Vec<KvRef<'a>>, AllocError>
        ensures kvs { IfOk result (λ kvs. map kv_view kvs.items
            ≡ live self.old.versions self.old.place range.now) }
        ensures same { self.new ≡ self.old }
    {
        if range.end.is_empty() {
            return self.view.live(alloc, range);
        }
        if self.listed.is_none() && self.is_cheap() {
            return self.live_walked(alloc, range);
        }
        self.live_listed(alloc, range)
    }

    /// The same by a walk over the keys of the range.
    fn live_walked(&mut self, alloc: Global, range: &KeyRange) -> Result<Vec<KvRef<'a>>, AllocError>
        ensures kvs { IfOk result (λ kvs. map kv_view kvs.items
            ≡ live self.old.versions self.old.place range.now) }
        ensures same { self.new ≡ self.old }
    {
        let kvs = self.view.live(alloc, range)?;
        self.note_walk(range, kvs.len());
        Ok(kvs)
    }

    /// The same by the list of all live keys, which is made where there is none.
    fn live_listed(&mut self, alloc: Global, range: &KeyRange) -> Result<Vec<KvRef<'a>>, AllocError>
        ensures kvs { IfOk result (λ kvs. map kv_view kvs.items
            ≡ live self.old.versions self.old.place range.now) }
        ensures same { self.new ≡ self.old }
    {
        let listed = match self.listed.take() {
            Some(listed) => listed,
            None => list_all(alloc, &self.view)?,
        };
        let kvs = live_in(alloc, &listed, range);
        self.listed = Some(listed);
        kvs
    }
}
