//! The keys of a map with their values, lent one after another.
ghost use Rattle.std.specs.Prelude.{◌≡◌, ◌<◌, ◌∷◌, ◌++◌, [], length, MatchOption};
ghost use Rattle.std.specs.Prelude.{true};
ghost use Rattle.std.specs.Ordering.{is_gt};
ghost use Rattle.kv_model.specs.Keys.{key_cmp};
ghost use Rattle.key_pages.specs.Pairs.{IsAscending, below_key};
ghost use Rattle.key_pages.specs.Paged.{HavePairs, flat};

use crate::comparing::order;
use crate::page::Page;
use bytes::Bytes;
use std::marker::Model;

/// The keys that are left of a walk over a map, in order, each with its value.
#[derive(Drop)]
pub struct Walk<'a, V> {
    page: &'a [(Bytes, V)],
    pages: &'a [Page<V>],
}

impl<'a, V> Model for Walk<'a, V> {
    ghost use Rattle.std.specs.Prelude.{ℕ, List, ◌++◌};
    ghost use Rattle.key_pages.specs.Pairs.{IsAscending};
    ghost use Rattle.key_pages.specs.Paged.{HavePairs, flat};

    ghost Value = { List (List ℕ × V) };

    ghost view = { λ w. w.page.now ++ flat w.pages.now };

    ghost invariant = { λ w. HavePairs w.pages.now × IsAscending (w.page.now ++ flat w.pages.now) };
}

impl<'a, V> Walk<'a, V> {
    /// A walk over what is left of a page, and then over the pages behind it.
    pub(crate) fn of(page: &'a [(Bytes, V)], pages: &'a [Page<V>]) -> Self
        requires held { HavePairs pages.now }
        requires ascending { IsAscending (page.now ++ flat pages.now) }
        ensures { result ≡ page.now ++ flat pages.now }
    {
        Walk { page, pages }
    }

    /// The next key with its value. Takes no memory, and constant time.
    pub fn next(&mut self) -> Option<(&'a Bytes, &'a V)>
        ensures next { MatchOption result ((self.old ≡ []) × (self.new ≡ []))
            (λ e. self.old ≡ (e.0.now, e.1.now) ∷ self.new) }
        ensures ascending { IsAscending self.old }
    {
        match take_first(&mut self.page) {
            Some(pair) => Some(pair),
            None => match take_page(&mut self.pages) {
                Some(page) => {
                    self.page = page;
                    take_first(&mut self.page)
                }
                None => None,
            },
        }
    }
}

impl<'a, V> Walk<'a, V> {
    /// The next key with its value, where it is below another key. Where it is not, the walk is over
    /// as far as keys below that one go. Takes no memory, and constant time.
    pub fn next_below(&mut self, end: &Bytes) -> Option<(&'a Bytes, &'a V)>
        ensures { MatchOption result (below_key end.now self.old ≡ [])
            (λ e. (self.old ≡ (e.0.now, e.1.now) ∷ self.new)
            × (is_gt (key_cmp end.now e.0.now) ≡ true)) }
    {
        match self.next() {
            Some((key, value)) => {
                if is_below(key, end) {
                    Some((key, value))
                } else {
                    None
                }
            }
            None => None,
        }
    }
}

/// Whether a key is below another.
fn is_below(key: &Bytes, end: &Bytes) -> bool
    ensures { result ≡ is_gt (key_cmp end.now key.now) }
{
    order(end.as_slice(), key.as_slice()).is_gt()
}

/// Takes the first of the pairs off.
fn take_first<'a, V>(rest: &mut &'a [(Bytes, V)]) -> Option<(&'a Bytes, &'a V)>
    ensures { MatchOption result ((rest.old.now ≡ []) × (rest.new.now ≡ []))
        (λ e. rest.old.now ≡ (e.0.now, e.1.now) ∷ rest.new.now) }
{
    match rest.split_first() {
        Some((pair, later)) => {
            *rest = later;
            Some((&pair.0, &pair.1))
        }
        None => None,
    }
}

/// Takes the first of the pages off, and gives its pairs.
fn take_page<'a, V>(rest: &mut &'a [Page<V>]) -> Option<&'a [(Bytes, V)]>
    requires { HavePairs rest.old.now }
    ensures held { HavePairs rest.new.now }
    ensures next { MatchOption result ((flat rest.old.now ≡ []) × (flat rest.new.now ≡ []))
        (λ es. (flat rest.old.now ≡ es.now ++ flat rest.new.now) × (0 < length es.now)) }
{
    match rest.split_first() {
        Some((page, later)) => {
            *rest = later;
            Some(page.pairs())
        }
        None => None,
    }
}
