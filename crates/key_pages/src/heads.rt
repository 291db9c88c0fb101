//! Where a key stands among others in order, as far as four bytes of each tell. What is told is a hint:
//! no clause rests on it, and who asks looks at the keys there before it goes by it.

use crate::page::Page;
use bytes::Bytes;
use std::alloc::{AllocError, Global};

/// Of each key of a page, or of the first key of each page but the first one, the four bytes behind those
/// with which all of them begin, as one number, of which the first byte counts most. They lie side by
/// side, where the keys lie each behind a pointer.
#[derive(Drop)]
pub(crate) struct Heads {
    skip: usize,
    words: Vec<u32>,
}

impl Heads {
    /// Those of no keys, which take their memory from `alloc` as they grow.
    pub(crate) fn new(alloc: Global) -> Heads {
        Heads {
            skip: 0,
            words: Vec::new(alloc),
        }
    }

    /// Those of so many keys, all of them 0 until [`Heads::renew`]. The error is want of memory.
    pub(crate) fn of(alloc: Global, count: usize) -> Result<Heads, AllocError> {
        let mut words = Vec::new(alloc);
        words.resize(count, 0)?;
        Ok(Heads { skip: 0, words })
    }

    /// From which index on, and below which, a key has its place.
    pub(crate) fn bounds(&self, key: &[u8]) -> (usize, usize) {
        let word = word_at(key, self.skip);
        let low = self.words.partition_point(|other| *other < word);
        let high = self.words.partition_point(|other| *other <= word);
        (low, high)
    }

    /// Takes note of a key that comes to an index. The error is want of memory.
    pub(crate) fn insert(&mut self, index: usize, key: &[u8]) -> Result<(), AllocError> {
        if index <= self.words.len() {
            self.words.insert(index, word_at(key, self.skip))?;
        }
        Ok(())
    }

    /// Makes room for one more. The error is want of memory.
    pub(crate) fn make_room(&mut self) -> Result<(), AllocError> {
        self.words.reserve(1)
    }

    /// Takes note of the page that came to an index among others, for which there is room. Where its first
    /// key begins otherwise than theirs they are made anew, which is linear in the number of the pages, and
    /// comes at most once for each byte with which the first keys of all pages begin alike.
    pub(crate) fn note<V>(&mut self, pages: &[Page<V>], index: usize) {
        let Some((_, later)) = pages.split_first() else {
            return;
        };
        let (Some(place), Some(page)) = (index.checked_sub(1), pages.get(index)) else {
            return;
        };
        let key = page.first_key();
        let _ = self.insert(place, key);
        if later.len() == 1 || !self.fits_ends(key, later) {
            self.renew_firsts(later);
        }
    }

    /// Whether a key begins as the first keys of the first and of the last of these pages do.
    fn fits_ends<V>(&self, key: &[u8], pages: &[Page<V>]) -> bool {
        match (pages.first(), pages.last()) {
            (Some(first), Some(last)) => {
                self.fits(key, first.first_key()) && self.fits(key, last.first_key())
            }
            _ => true,
        }
    }

    /// Takes note of a key that went.
    pub(crate) fn remove(&mut self, index: usize) {
        if index < self.words.len() {
            let _ = self.words.remove(index);
        }
    }

    /// Keeps the first of them alone.
    pub(crate) fn truncate(&mut self, count: usize) {
        self.words.truncate(count);
    }

    /// Gives room back that is not needed for so many keys.
    pub(crate) fn shrink_to(&mut self, count: usize) {
        self.words.shrink_to(count);
    }

    /// Whether a key begins as all others do, of which this is the first.
    pub(crate) fn fits(&self, key: &[u8], first: &[u8]) -> bool {
        match (
            key.split_at_checked(self.skip),
            first.split_at_checked(self.skip),
        ) {
            (Some((start, _)), Some((other, _))) => start == other,
            _ => false,
        }
    }

    /// Makes them anew, of these keys in order. Linear in the number of the keys.
    pub(crate) fn renew<V>(&mut self, pairs: &[(Bytes, V)]) {
        let skip = common_of(pairs);
        self.skip = skip;
        for (word, pair) in self.words.iter_mut().zip(pairs.iter()) {
            *word = word_at(pair.0.as_slice(), skip);
        }
    }
}

impl Heads {
    /// Makes them anew, of the first keys of these pages in order. Linear in the number of the pages.
    fn renew_firsts<V>(&mut self, pages: &[Page<V>]) {
        let skip = match (pages.first(), pages.last()) {
            (Some(first), Some(last)) => common(first.first_key(), last.first_key()),
            _ => 0,
        };
        self.skip = skip;
        for (word, page) in self.words.iter_mut().zip(pages.iter()) {
            *word = word_at(page.first_key(), skip);
        }
    }
}

/// With how many bytes the first and the last key begin alike, and so all between.
fn common_of<V>(pairs: &[(Bytes, V)]) -> usize {
    match (pairs.first(), pairs.last()) {
        (Some(first), Some(last)) => common(first.0.as_slice(), last.0.as_slice()),
        _ => 0,
    }
}

/// With how many bytes two keys begin alike.
fn common(left: &[u8], right: &[u8]) -> usize {
    for index in 0..left.len() {
        if left.get(index) != right.get(index) {
            return index;
        }
    }
    left.len()
}

/// Four bytes of a key from an index on as a number; those that it has not are 0.
fn word_at(key: &[u8], index: usize) -> u32 {
    match key.split_at_checked(index) {
        Some((_, rest)) => match rest.split_first_chunk::<4>() {
            Some((word, _)) => u32::from_be_bytes(*word),
            None => short_word(rest),
        },
        None => 0,
    }
}

/// At most three bytes as a number of four.
fn short_word(bytes: &[u8]) -> u32 {
    u32::from_be_bytes([byte_at(bytes, 0), byte_at(bytes, 1), byte_at(bytes, 2), 0])
}

/// The byte at an index, or 0.
fn byte_at(bytes: &[u8], index: usize) -> u8 {
    match bytes.get(index) {
        Some(byte) => *byte,
        None => 0,
    }
}
