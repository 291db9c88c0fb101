//! A map from keys, in pages.
ghost use Rattle.std.specs.Prelude.{◌≡◌, [], option_copied, Some, OnOk, OnErr};
ghost use Rattle.key_pages.specs.Pairs.{IsAscending, cut_in, found, from_key, put_in, told_by};

use crate::change::{Cut, Growth};
use crate::heads::Heads;
use crate::page::Page;
use crate::walk::Walk;
use crate::{changes, look_up};
use bytes::Bytes;
use std::alloc::{AllocError, Global};
use std::marker::Model;

/// Keys in order, each with its value: a sorted map.
///
/// A look-up halves, first over the pages and then within one, so its time is logarithmic in the
/// number of keys. A key that goes in or out moves those behind it on its page, at most 63, and
/// where a page comes or goes, which for a page among others is at most once in 32 such keys, the
/// pages behind it move one place in the list of pages. Hints tell where to halve; those of the
/// pages are made anew, which takes time linear in their number, where a page comes whose first key
/// begins otherwise than those of all others.
#[derive(Drop)]
pub struct KeyPages<V> {
    alloc: Global,
    /// Hints of the first key of each page but the first one.
    firsts: Heads,
    pages: Vec<Page<V>>,
}

impl<V> Model for KeyPages<V> {
    ghost use Rattle.std.specs.Prelude.{ℕ, List};
    ghost use Rattle.key_pages.specs.Paged.{ArePages, flat};

    ghost Value = { List (List ℕ × V) };

    ghost view = { λ m. flat m.pages.items };

    ghost invariant = { λ m. ArePages m.pages.items };
}

impl<V> KeyPages<V> {
    /// The empty map, which takes its memory from `alloc` as it grows.
    pub fn new(alloc: Global) -> Self
        ensures { result ≡ [] }
    {
        KeyPages {
            alloc,
            firsts: Heads::new(alloc),
            pages: Vec::new(alloc),
        }
    }

    /// The value of a key, lent: none where the key is not there. Takes no memory, and time
    /// logarithmic in the number of keys.
    pub fn get(&self, key: &Bytes) -> Option<&V>
        ensures value { option_copied result ≡ found key.now self.now }
        ensures ascending { IsAscending self.now }
    {
        look_up::get(&self.pages, &self.firsts, key)
    }

    /// Puts a key in with a first value where it is not there, and else adds to the value that it
    /// has, in place, and keeps this key for the equal one that was there. It is one look-up.
    ///
    /// The error is want of memory, and the map is then as it was.
    pub fn put<G: Growth<V>>(&mut self, key: &Bytes, growth: &G) -> Result<(), AllocError>
    where
        V: Drop,
        requires { (w : V) → found key.now self.old ≡ Some w → G.may_grow growth.now w }
        ensures ok { OnOk result (self.new
            ≡ put_in (G.grown growth.now) key.now (G.fresh growth.now) self.old) }
        ensures err { OnErr result (self.new ≡ self.old) }
    {
        changes::put(&mut self.pages, &mut self.firsts, self.alloc, key, growth)
    }

    /// Takes from the value of a key, in place, and the key out where nothing of it is left; where
    /// the key is not there nothing changes. It is one look-up. Takes no memory.
    pub fn cut<C: Cut<V>>(&mut self, key: &Bytes, cut: &mut C)
    where
        V: Drop,
        ensures pairs { self.new ≡ cut_in (C.left cut.old) (C.is_spent cut.old) key.now self.old }
        ensures told { cut.new ≡ told_by (C.told cut.old) cut.old (found key.now self.old) }
    {
        changes::cut(&mut self.pages, &mut self.firsts, key, cut);
    }

    /// All keys with their values, lent one after another. Takes no memory, and constant time.
    pub fn all(&self) -> Walk<'_, V>
        ensures value { result ≡ self.now }
        ensures ascending { IsAscending self.now }
    {
        Walk::of(&[], &self.pages)
    }

    /// The keys from one on with their values, lent one after another. Takes no memory, and time
    /// logarithmic in the number of keys.
    pub fn from(&self, key: &Bytes) -> Walk<'_, V>
        ensures value { result ≡ from_key key.now self.now }
        ensures ascending { IsAscending self.now }
    {
        look_up::walk_from(&self.pages, &self.firsts, key)
    }
}
