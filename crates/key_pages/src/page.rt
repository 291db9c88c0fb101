//! A page: keys in order, each with its value, side by side.
ghost use Rattle.std.specs.Prelude.{◌≡◌, ◌<◌, ◌≤◌, [], ◌∷◌, length, take, drop, option_copied};
ghost use Rattle.std.specs.Prelude.{ℕ, List, Some, false, get_or, slice_set};
ghost use Rattle.std.specs.Prelude.{IfOk, OnOk, OnErr, IsTrue};
ghost use Rattle.std.specs.List.{insert, remove, slice_get};
ghost use Rattle.kv_model.specs.Lists.{is_empty};
ghost use Rattle.store_laws.specs.Rising.{newest};
ghost use Rattle.key_pages.specs.Pairs.{IsAscending, cut_in, found, put_in, told_by};
ghost use Rattle.key_pages.specs.Paged.{count_below, cut_at, ends_below, is_below, is_below_at, is_place_behind, is_there};
ghost use Rattle.key_pages.specs.Paged.{starts_up_to, value_if};

use crate::change::{Cut, Growth};
use crate::comparing::order;
use crate::heads::Heads;
use bytes::Bytes;
use std::alloc::{AllocError, Global};
use std::marker::Model;

/// The most keys that a page takes.
const PLACES: usize = 64;

/// How many keys stay on a page that is split.
const HALF: usize = 32;

/// Keys in order, each with its value, and hints of where each stands.
#[derive(Drop)]
pub(crate) struct Page<V> {
    heads: Heads,
    pairs: Vec<(Bytes, V)>,
}

impl<V> Model for Page<V> {
    ghost use Rattle.std.specs.Prelude.{ℕ, List};

    ghost Value = { List (List ℕ × V) };

    ghost view = { λ p. p.pairs.items };
}

impl<V> Page<V> {
    /// A page of one key. The error is want of memory.
    pub(crate) fn of(alloc: Global, key: &Bytes, value: V) -> Result<Page<V>, AllocError>
    where
        V: Drop,
        ensures { IfOk result (λ p. p ≡ (key.now, value) ∷ []) }
    {
        let mut heads = Heads::of(alloc, 1)?;
        let mut pairs = Vec::new(alloc);
        pairs.push((key.clone()?, value))?;
        heads.renew(pairs.as_slice());
        Ok(Page { heads, pairs })
    }

    /// The keys with their values, lent.
    pub(crate) fn pairs(&self) -> &[(Bytes, V)]
        ensures { result.now ≡ self.now }
    {
        self.pairs.as_slice()
    }

    /// Whether the page takes no more keys.
    pub(crate) fn is_full(&self) -> bool
        ensures { IsTrue result → 64 ≤ length self.now }
    {
        self.pairs.len() >= PLACES
    }

    /// Whether the page has no key.
    pub(crate) fn is_empty(&self) -> bool
        ensures { result ≡ is_empty self.now }
    {
        match self.pairs.first() {
            Some(_) => false,
            None => true,
        }
    }

    /// Whether the first key, if there is one, is not above a key.
    pub(crate) fn starts_up_to(&self, key: &Bytes) -> bool
        ensures { result ≡ starts_up_to key.now self.now }
    {
        match self.pairs.first() {
            Some(pair) => order(key.as_slice(), pair.0.as_slice()).is_ge(),
            None => true,
        }
    }

    /// The bytes of the first key: none where there is no key.
    pub(crate) fn first_key(&self) -> &[u8] {
        match self.pairs.first() {
            Some(pair) => pair.0.as_slice(),
            None => &[],
        }
    }

    /// Whether the last key, if there is one, is below a key.
    pub(crate) fn ends_below(&self, key: &Bytes) -> bool
        ensures { result ≡ ends_below key.now self.now }
    {
        match self.last() {
            Some(pair) => is_below(key, pair),
            None => true,
        }
    }

    /// The last key with its value.
    fn last(&self) -> Option<&(Bytes, V)>
        ensures { option_copied result ≡ newest self.now }
    {
        self.pairs.last()
    }

    /// How many keys are below a key. It goes by the hints where they are right, which one look at a key
    /// tells where it is there, and else two, and else halves.
    pub(crate) fn count_below(&self, key: &Bytes) -> usize
        requires { IsAscending self.now }
        ensures value { result ≡ count_below key.now self.now }
        ensures bound { result ≤ length self.now }
    {
        let (low, high) = self.heads.bounds(key.as_slice());
        if self.is_standing(low, key) {
            return low;
        }
        let hint = self.hint(low, high, key);
        if self.is_place(hint, key) {
            hint
        } else {
            self.halved(key)
        }
    }

    /// Where a key has its place, as far as the hints tell: among the keys of equal hints, between these
    /// indices, it halves.
    fn hint(&self, low: usize, high: usize, key: &Bytes) -> usize {
        if low >= high {
            return low;
        }
        match self.pairs.get(low..high) {
            Some(pairs) => low.saturating_add(pairs.partition_point(|pair| is_below(key, pair))),
            None => low,
        }
    }

    /// Whether a key stands at an index: all before it are below it then.
    fn is_standing(&self, index: usize, key: &Bytes) -> bool
        requires { IsAscending self.now }
        ensures place { IsTrue result → index ≡ count_below key.now self.now }
        ensures bound { IsTrue result → index ≤ length self.now }
    {
        self.is_there(index, key)
    }

    /// Whether a key has its place at an index: the key before is below it, and the key there is not.
    fn is_place(&self, index: usize, key: &Bytes) -> bool
        requires { IsAscending self.now }
        ensures { IsTrue result → index ≡ count_below key.now self.now }
    {
        self.is_behind(index, key) && !self.is_below_at(index, key)
    }

    /// Whether the key before an index, if it is not the first, is below another.
    fn is_behind(&self, index: usize, key: &Bytes) -> bool
        ensures { result ≡ is_place_behind key.now index self.now }
    {
        match index.checked_sub(1) {
            Some(before) => self.is_below_at(before, key),
            None => true,
        }
    }

    /// Whether there is a key at an index that is below another.
    fn is_below_at(&self, index: usize, key: &Bytes) -> bool
        ensures { result ≡ is_below_at key.now index self.now }
    {
        match self.pair_at(index) {
            Some(pair) => is_below(key, pair),
            None => false,
        }
    }

    /// How many keys are below a key. It halves.
    fn halved(&self, key: &Bytes) -> usize
        requires { IsAscending self.now }
        ensures value { result ≡ count_below key.now self.now }
        ensures bound { result ≤ length self.now }
    {
        self.pairs.partition_point(|pair| is_below(key, pair))
    }

    /// The pair at an index.
    fn pair_at(&self, index: usize) -> Option<&(Bytes, V)>
        ensures { option_copied result ≡ slice_get self.now index }
    {
        self.pairs.get(index)
    }

    /// Whether a key stands at an index.
    fn is_there(&self, index: usize, key: &Bytes) -> bool
        ensures { result ≡ is_there key.now index self.now }
    {
        match self.pair_at(index) {
            Some(pair) => order(key.as_slice(), pair.0.as_slice()).is_eq(),
            None => false,
        }
    }

    /// The value of a key. It halves.
    pub(crate) fn get(&self, key: &Bytes) -> Option<&V>
        requires { IsAscending self.now }
        ensures { option_copied result ≡ found key.now self.now }
    {
        match self.pair_at(self.count_below(key)) {
            Some(pair) => value_if(key, pair),
            None => None,
        }
    }

    /// Puts a key in, or adds to the value that it has. The error is want of memory.
    pub(crate) fn put<G: Growth<V>>(&mut self, key: &Bytes, growth: &G) -> Result<(), AllocError>
    where
        V: Drop,
        requires ascending { IsAscending self.old }
        requires may { (w : V) → found key.now self.old ≡ Some w → G.may_grow growth.now w }
        ensures ok { OnOk result (self.new
            ≡ put_in (G.grown growth.now) key.now (G.fresh growth.now) self.old) }
        ensures err { OnErr result (self.new ≡ self.old) }
    {
        let index = self.count_below(key);
        self.put_at(index, key, growth)
    }

    /// The same where the key is there or the page takes one more, and tells whether it was done:
    /// else nothing changes. The error is want of memory.
    pub(crate) fn try_put<G: Growth<V>>(
        &mut self,
        key: &Bytes,
        growth: &G,
    ) -> Result<bool, AllocError>
    where
        V: Drop,
        requires ascending { IsAscending self.old }
        requires may { (w : V) → found key.now self.old ≡ Some w → G.may_grow growth.now w }
        ensures done { IfOk result (λ done. IsTrue done → self.new
            ≡ put_in (G.grown growth.now) key.now (G.fresh growth.now) self.old) }
        ensures full { IfOk result (λ done. done ≡ false
            → (self.new ≡ self.old) × (64 ≤ length self.old)) }
        ensures err { OnErr result (self.new ≡ self.old) }
    {
        let index = self.count_below(key);
        if self.is_full() && !self.is_there(index, key) {
            return Ok(false);
        }
        match self.put_at(index, key, growth) {
            Ok(()) => Ok(true),
            Err(error) => Err(error),
        }
    }

    /// Puts a key in at the index of its place, or adds to the value that it has there.
    fn put_at<G: Growth<V>>(
        &mut self,
        index: usize,
        key: &Bytes,
        growth: &G,
    ) -> Result<(), AllocError>
    where
        V: Drop,
        requires ascending { IsAscending self.old }
        requires index { index ≡ count_below key.now self.old }
        requires bound { index ≤ length self.old }
        requires may { (w : V) → found key.now self.old ≡ Some w → G.may_grow growth.now w }
        ensures ok { OnOk result (self.new
            ≡ put_in (G.grown growth.now) key.now (G.fresh growth.now) self.old) }
        ensures err { OnErr result (self.new ≡ self.old) }
    {
        if self.is_there(index, key) {
            self.grow_at(index, key, growth)
        } else {
            self.insert_at(index, key, growth.first())
        }
    }

    /// Adds to the value at an index, of a key that is there, and keeps this key in place of the equal one
    /// that was there: its block may be that of what is put, and the former one goes with what was put
    /// before. The error is want of memory.
    fn grow_at<G: Growth<V>>(
        &mut self,
        index: usize,
        key: &Bytes,
        growth: &G,
    ) -> Result<(), AllocError>
        requires inside { index < length self.old }
        requires same { (d : List ℕ × V) → (get_or self.old index d).0 ≡ key.now }
        requires may { (d : List ℕ × V) → G.may_grow growth.now (get_or self.old index d).1 }
        ensures ok { (d : List ℕ × V) → OnOk result (self.new ≡ slice_set self.old index
            ((get_or self.old index d).0, G.grown growth.now (get_or self.old index d).1)) }
        ensures err { OnErr result (self.new ≡ self.old) }
    {
        let owned = key.clone()?;
        let pair = &mut self.pairs[index];
        growth.grow(&mut pair.1)?;
        pair.0 = owned;
        Ok(())
    }

    /// Puts a key in at an index. The error is want of memory.
    fn insert_at(&mut self, index: usize, key: &Bytes, value: V) -> Result<(), AllocError>
    where
        V: Drop,
        requires { index ≤ length self.old }
        ensures ok { OnOk result (self.new ≡ insert self.old index (key.now, value)) }
        ensures err { OnErr result (self.new ≡ self.old) }
    {
        let owned = key.clone()?;
        self.pairs.reserve(1)?;
        self.heads.insert(index, key.as_slice())?;
        self.pairs.insert(index, (owned, value))?;
        self.note(key);
        Ok(())
    }

    /// Makes the hints anew where a key that came begins otherwise than the others.
    fn note(&mut self, key: &Bytes)
        ensures { self.new ≡ self.old }
    {
        let fits = match self.pairs.first() {
            Some(first) => self.heads.fits(key.as_slice(), first.0.as_slice()),
            None => true,
        };
        if !fits {
            self.heads.renew(self.pairs.as_slice());
        }
    }

    /// Takes from the value of a key, where it is there, and the key out where nothing is left.
    pub(crate) fn cut<C: Cut<V>>(&mut self, key: &Bytes, cut: &mut C)
    where
        V: Drop,
        requires { IsAscending self.old }
        ensures pairs { self.new ≡ cut_in (C.left cut.old) (C.is_spent cut.old) key.now self.old }
        ensures told { cut.new ≡ told_by (C.told cut.old) cut.old (found key.now self.old) }
    {
        let index = self.count_below(key);
        if self.is_there(index, key) {
            self.cut_there(index, cut);
        }
    }

    /// Takes from the value at an index, and the pair out where nothing is left.
    fn cut_there<C: Cut<V>>(&mut self, index: usize, cut: &mut C)
    where
        V: Drop,
        requires { index < length self.old }
        ensures pairs { (d : List ℕ × V) → self.new
            ≡ cut_at (C.left cut.old) (C.is_spent cut.old) index (get_or self.old index d) self.old }
        ensures told { (d : List ℕ × V) → cut.new ≡ C.told cut.old (get_or self.old index d).1 }
    {
        if self.cut_at(index, cut) {
            self.take_out(index);
        }
    }

    /// Takes from the value at an index, and tells whether nothing is left.
    fn cut_at<C: Cut<V>>(&mut self, index: usize, cut: &mut C) -> bool
        requires { index < length self.old }
        ensures pairs { (d : List ℕ × V) → self.new ≡ slice_set self.old index
            ((get_or self.old index d).0, C.left cut.old (get_or self.old index d).1) }
        ensures spent { (d : List ℕ × V) → result
            ≡ C.is_spent cut.old (get_or self.old index d).1 }
        ensures told { (d : List ℕ × V) → cut.new ≡ C.told cut.old (get_or self.old index d).1 }
    {
        let pair = &mut self.pairs[index];
        cut.cut(&mut pair.1)
    }

    /// Takes the pair at an index out.
    fn take_out(&mut self, index: usize)
    where
        V: Drop,
        requires { index < length self.old }
        ensures { self.new ≡ remove self.old index }
    {
        let _ = self.pairs.remove(index);
        self.heads.remove(index);
        self.lighten();
    }

    /// Gives room back where seven of eight places stand empty, and keeps twice that of what is
    /// left.
    fn lighten(&mut self)
        ensures { self.new ≡ self.old }
    {
        if self.pairs.len() <= self.pairs.capacity() / 8 {
            self.pairs.shrink_to(self.pairs.len() * 2);
            self.heads.shrink_to(self.pairs.len() * 2);
        }
    }

    /// Takes the upper half off. The error is want of memory.
    pub(crate) fn split(&mut self, alloc: Global) -> Result<Page<V>, AllocError>
        requires { 64 ≤ length self.old }
        ensures lower { OnOk result (self.new ≡ take 32 self.old) }
        ensures upper { IfOk result (λ p. p ≡ drop 32 self.old) }
        ensures err { OnErr result (self.new ≡ self.old) }
    {
        let mut heads = Heads::of(alloc, self.pairs.len() - HALF)?;
        let pairs = self.pairs.split_off(HALF)?;
        heads.renew(pairs.as_slice());
        self.heads.truncate(HALF);
        self.heads.renew(self.pairs.as_slice());
        Ok(Page { heads, pairs })
    }
}

/// Whether the key of a pair is below another.
fn is_below<V>(key: &Bytes, pair: &(Bytes, V)) -> bool
    ensures { result ≡ is_below key.now pair.now }
{
    order(key.as_slice(), pair.0.as_slice()).is_gt()
}

/// The value of a pair, where its key is this one.
fn value_if<'a, V>(key: &Bytes, pair: &'a (Bytes, V)) -> Option<&'a V>
    ensures { option_copied result ≡ value_if key.now (Some pair.now) }
{
    if order(key.as_slice(), pair.0.as_slice()).is_eq() {
        Some(&pair.1)
    } else {
        None
    }
}
