//! Changes of pages.
ghost use Rattle.std.specs.Prelude.{◌≡◌, ◌<◌, ◌≤◌, [], ◌∷◌, ◌++◌, length, option_copied};
ghost use Rattle.std.specs.Prelude.{ℕ, List, Some, get_or, IfOk, OnOk, OnErr, IsTrue, false};
ghost use Rattle.std.specs.List.{slice_get};
ghost use Rattle.store_laws.specs.Rising.{newest};
ghost use Rattle.key_pages.specs.Pairs.{IsAscending, cut_in, found, put_in, told_by};
ghost use Rattle.key_pages.specs.Paged.{ArePages, change_at, flat, freed, is_behind};
ghost use Rattle.key_pages.specs.Paged.{is_void, page_index};

use crate::change::{Cut, Growth};
use crate::heads::Heads;
use crate::look_up::{page_at, page_index};
use crate::page::Page;
use bytes::Bytes;
use std::alloc::{AllocError, Global};

/// Whether all keys are below a key: the last one of the last page is.
fn is_behind<V>(pages: &[Page<V>], key: &Bytes) -> bool
    ensures { result ≡ is_behind key.now pages.now }
{
    match last_page(pages) {
        Some(page) => page.ends_below(key),
        None => true,
    }
}

/// The last page.
fn last_page<V>(pages: &[Page<V>]) -> Option<&Page<V>>
    ensures { option_copied result ≡ newest pages.now }
{
    pages.last()
}

/// Adds a page of a key alone behind all others. The error is want of memory.
fn push_page<V: Drop>(
    pages: &mut Vec<Page<V>>,
    firsts: &mut Heads,
    alloc: Global,
    key: &Bytes,
    value: V,
) -> Result<(), AllocError>
    ensures ok { OnOk result (pages.new.items
        ≡ pages.old.items ++ ((key.now, value) ∷ []) ∷ []) }
    ensures err { OnErr result (pages.new.items ≡ pages.old.items) }
{
    let page = Page::of(alloc, key, value)?;
    pages.reserve(1)?;
    firsts.make_room()?;
    pages.push(page)?;
    firsts.note(pages, pages.len().saturating_sub(1));
    Ok(())
}

/// Splits the page at an index, which is full, in half. The error is want of memory.
fn split_page<V: Drop>(
    pages: &mut Vec<Page<V>>,
    firsts: &mut Heads,
    alloc: Global,
    index: usize,
) -> Result<(), AllocError>
    requires pages { ArePages pages.old.items }
    requires inside { index < length pages.old.items }
    requires full { (d : List (List ℕ × V)) → 64 ≤ length (get_or pages.old.items index d) }
    ensures same { flat pages.new.items ≡ flat pages.old.items }
    ensures pages { ArePages pages.new.items }
    ensures some { 0 < length pages.new.items }
{
    pages.reserve(1)?;
    firsts.make_room()?;
    let upper = pages[index].split(alloc)?;
    pages.insert(index + 1, upper)?;
    firsts.note(pages, index + 1);
    Ok(())
}

/// Puts a key in on the page at an index, on which it has its place, or adds to the value that it
/// has. The error is want of memory.
fn put_at<V: Drop, G: Growth<V>>(
    pages: &mut Vec<Page<V>>,
    index: usize,
    key: &Bytes,
    growth: &G,
) -> Result<(), AllocError>
    requires pages { ArePages pages.old.items }
    requires index { index ≡ page_index key.now pages.old.items }
    requires inside { index < length pages.old.items }
    requires may { (w : V) → found key.now (flat pages.old.items) ≡ Some w
        → G.may_grow growth.now w }
    ensures ok { OnOk result (flat pages.new.items
        ≡ put_in (G.grown growth.now) key.now (G.fresh growth.now) (flat pages.old.items)) }
    ensures err { OnErr result (flat pages.new.items ≡ flat pages.old.items) }
    ensures pages { ArePages pages.new.items }
{
    pages[index].put(key, growth)
}

/// The same where the page takes one more key or has this one, and tells whether it was done: else
/// nothing changes. The error is want of memory.
fn try_put_at<V: Drop, G: Growth<V>>(
    pages: &mut Vec<Page<V>>,
    index: usize,
    key: &Bytes,
    growth: &G,
) -> Result<bool, AllocError>
    requires pages { ArePages pages.old.items }
    requires index { index ≡ page_index key.now pages.old.items }
    requires inside { index < length pages.old.items }
    requires may { (w : V) → found key.now (flat pages.old.items) ≡ Some w
        → G.may_grow growth.now w }
    ensures done { IfOk result (λ done. IsTrue done → flat pages.new.items
        ≡ put_in (G.grown growth.now) key.now (G.fresh growth.now) (flat pages.old.items)) }
    ensures full { IfOk result (λ done. done ≡ false → (pages.new.items ≡ pages.old.items)
        × ((d : List (List ℕ × V)) → 64 ≤ length (get_or pages.old.items index d))) }
    ensures err { OnErr result (flat pages.new.items ≡ flat pages.old.items) }
    ensures pages { ArePages pages.new.items }
{
    pages[index].try_put(key, growth)
}

/// Puts a key in that the page at an index, on which it has its place, does not take, since it is
/// full or is not there. The error is want of memory.
fn put_beside<V: Drop, G: Growth<V>>(
    pages: &mut Vec<Page<V>>,
    firsts: &mut Heads,
    alloc: Global,
    index: usize,
    key: &Bytes,
    growth: &G,
) -> Result<(), AllocError>
    requires pages { ArePages pages.old.items }
    requires index { index ≡ page_index key.now pages.old.items }
    requires full { (d : List (List ℕ × V)) → index < length pages.old.items
        → 64 ≤ length (get_or pages.old.items index d) }
    requires may { (w : V) → found key.now (flat pages.old.items) ≡ Some w
        → G.may_grow growth.now w }
    ensures ok { OnOk result (flat pages.new.items
        ≡ put_in (G.grown growth.now) key.now (G.fresh growth.now) (flat pages.old.items)) }
    ensures err { OnErr result (flat pages.new.items ≡ flat pages.old.items) }
    ensures pages { ArePages pages.new.items }
{
    if is_behind(pages, key) {
        return push_page(pages, firsts, alloc, key, growth.first());
    }
    if let Err(error) = split_page(pages, firsts, alloc, index) {
        return Err(error);
    }
    let index = page_index(pages, firsts, key);
    put_at(pages, index, key, growth)
}

/// Puts a key in, or adds to the value that it has. The error is want of memory.
pub(crate) fn put<V: Drop, G: Growth<V>>(
    pages: &mut Vec<Page<V>>,
    firsts: &mut Heads,
    alloc: Global,
    key: &Bytes,
    growth: &G,
) -> Result<(), AllocError>
    requires pages { ArePages pages.old.items }
    requires may { (w : V) → found key.now (flat pages.old.items) ≡ Some w
        → G.may_grow growth.now w }
    ensures ok { OnOk result (flat pages.new.items
        ≡ put_in (G.grown growth.now) key.now (G.fresh growth.now) (flat pages.old.items)) }
    ensures err { OnErr result (flat pages.new.items ≡ flat pages.old.items) }
    ensures pages { ArePages pages.new.items }
{
    let index = page_index(pages, firsts, key);
    if index >= pages.len() {
        return put_beside(pages, firsts, alloc, index, key, growth);
    }
    match try_put_at(pages, index, key, growth) {
        Ok(true) => Ok(()),
        Ok(false) => put_beside(pages, firsts, alloc, index, key, growth),
        Err(error) => Err(error),
    }
}

/// Takes from the value of a key on the page at an index.
fn cut_at<V: Drop, C: Cut<V>>(pages: &mut Vec<Page<V>>, index: usize, key: &Bytes, cut: &mut C)
    requires ascending { IsAscending (flat pages.old.items) }
    requires inside { index < length pages.old.items }
    ensures pages { pages.new.items
        ≡ change_at (cut_in (C.left cut.old) (C.is_spent cut.old) key.now) index pages.old.items }
    ensures told { (d : List (List ℕ × V)) → cut.new
        ≡ told_by (C.told cut.old) cut.old (found key.now (get_or pages.old.items index d)) }
{
    pages[index].cut(key, cut);
}

/// Whether the page at an index has no key.
fn is_void<V>(pages: &[Page<V>], index: usize) -> bool
    ensures { result ≡ is_void (slice_get pages.now index) }
{
    match page_at(pages, index) {
        Some(page) => page.is_empty(),
        None => false,
    }
}

/// Takes out the page at an index where it has no key.
fn free<V: Drop>(pages: &mut Vec<Page<V>>, firsts: &mut Heads, index: usize)
    requires { index < length pages.old.items }
    ensures { pages.new.items ≡ freed index pages.old.items }
{
    if is_void(pages, index) {
        let _ = pages.remove(index);
        firsts.remove(index.saturating_sub(1));
    }
}

/// Takes from the value of a key, where it is there, the key out where nothing is left, and its page
/// where it was the last key on it.
pub(crate) fn cut<V: Drop, C: Cut<V>>(
    pages: &mut Vec<Page<V>>,
    firsts: &mut Heads,
    key: &Bytes,
    cut: &mut C,
)
    requires { ArePages pages.old.items }
    ensures pairs { flat pages.new.items
        ≡ cut_in (C.left cut.old) (C.is_spent cut.old) key.now (flat pages.old.items) }
    ensures told { cut.new
        ≡ told_by (C.told cut.old) cut.old (found key.now (flat pages.old.items)) }
    ensures pages { ArePages pages.new.items }
{
    let index = page_index(pages, firsts, key);
    if index >= pages.len() {
        return;
    }
    cut_at(pages, index, key, cut);
    free(pages, firsts, index);
}
