//! Look-ups over pages.
ghost use Rattle.std.specs.Prelude.{◌≡◌, ◌≤◌, ◌&&◌, not, length, option_copied, drop, IsTrue};
ghost use Rattle.std.specs.List.{slice_get};
ghost use Rattle.store_laws.specs.Rising.{count_while};
ghost use Rattle.key_pages.specs.Pairs.{IsAscending, found, from_key};
ghost use Rattle.key_pages.specs.Paged.{ArePages, HavePairs, flat, page_index, starts_at, starts_behind, starts_up_to};

use crate::heads::Heads;
use crate::page::Page;
use crate::walk::Walk;
use bytes::Bytes;

/// How many of the pages, which stand behind the first one, do not start above a key. It goes by the
/// hints where they are right, which a look at the pages before and behind tells, and else halves.
fn count_up_to<V>(pages: &[Page<V>], firsts: &Heads, key: &Bytes) -> usize
    requires ascending { IsAscending (flat pages.now) }
    requires held { HavePairs pages.now }
    ensures value { result ≡ count_while (starts_up_to key.now) pages.now }
    ensures bound { result ≤ length pages.now }
{
    let hint = hint(pages, firsts, key);
    if is_count(pages, hint, key) {
        return hint;
    }
    halved(pages, key)
}

/// How many of the pages do not start above a key, as far as the hints tell: among pages of equal
/// hints, which stand side by side, it halves.
fn hint<V>(pages: &[Page<V>], firsts: &Heads, key: &Bytes) -> usize {
    let (low, high) = firsts.bounds(key.as_slice());
    if low >= high {
        return low;
    }
    match pages.get(low..high) {
        Some(equal) => low.saturating_add(equal.partition_point(|page| page.starts_up_to(key))),
        None => low,
    }
}

/// Whether so many of the pages do not start above a key: the last of them does not, and the one
/// behind them does.
fn is_count<V>(pages: &[Page<V>], count: usize, key: &Bytes) -> bool
    requires ascending { IsAscending (flat pages.now) }
    requires held { HavePairs pages.now }
    ensures told { result ≡ (starts_behind key.now count pages.now
        && not (starts_at key.now count pages.now)) }
    ensures value { IsTrue result → count ≡ count_while (starts_up_to key.now) pages.now }
    ensures bound { IsTrue result → count ≤ length pages.now }
{
    starts_behind(pages, count, key) && !starts_at(pages, count, key)
}

/// Whether the page before an index, if it is not the first, does not start above a key.
fn starts_behind<V>(pages: &[Page<V>], index: usize, key: &Bytes) -> bool
    ensures { result ≡ starts_behind key.now index pages.now }
{
    match index.checked_sub(1) {
        Some(before) => starts_at(pages, before, key),
        None => true,
    }
}

/// Whether there is a page at an index that does not start above a key.
fn starts_at<V>(pages: &[Page<V>], index: usize, key: &Bytes) -> bool
    ensures { result ≡ starts_at key.now index pages.now }
{
    match page_at(pages, index) {
        Some(page) => page.starts_up_to(key),
        None => false,
    }
}

/// How many of the pages do not start above a key. It halves.
fn halved<V>(pages: &[Page<V>], key: &Bytes) -> usize
    requires ascending { IsAscending (flat pages.now) }
    requires held { HavePairs pages.now }
    ensures value { result ≡ count_while (starts_up_to key.now) pages.now }
    ensures bound { result ≤ length pages.now }
{
    pages.partition_point(|page| page.starts_up_to(key))
}

/// The index of the page on which a key stands, or has its place. The hints are those of the first
/// keys of all pages but the first one.
pub(crate) fn page_index<V>(pages: &[Page<V>], firsts: &Heads, key: &Bytes) -> usize
    requires { ArePages pages.now }
    ensures value { result ≡ page_index key.now pages.now }
    ensures bound { result ≤ length pages.now }
{
    match pages.split_first() {
        Some((_, later)) => count_up_to(later, firsts, key),
        None => 0,
    }
}

/// The page at an index.
pub(crate) fn page_at<V>(pages: &[Page<V>], index: usize) -> Option<&Page<V>>
    ensures { option_copied result ≡ slice_get pages.now index }
{
    pages.get(index)
}

/// The value of a key.
pub(crate) fn get<'a, V>(pages: &'a [Page<V>], firsts: &Heads, key: &Bytes) -> Option<&'a V>
    requires { ArePages pages.now }
    ensures { option_copied result ≡ found key.now (flat pages.now) }
{
    match page_at(pages, page_index(pages, firsts, key)) {
        Some(page) => page.get(key),
        None => None,
    }
}

/// The pages from that on in which a key stands, or has its place.
fn pages_from<'a, V>(pages: &'a [Page<V>], firsts: &Heads, key: &Bytes) -> &'a [Page<V>]
    requires { ArePages pages.now }
    ensures { result.now ≡ drop (page_index key.now pages.now) pages.now }
{
    let (_, rest) = pages.split_at(page_index(pages, firsts, key));
    rest
}

/// The pairs of a page from a key on.
fn pairs_from<'a, V>(page: &'a Page<V>, key: &Bytes) -> &'a [(Bytes, V)]
    requires { IsAscending page.now }
    ensures { result.now ≡ from_key key.now page.now }
{
    let (_, pairs) = page.pairs().split_at(page.count_below(key));
    pairs
}

/// A walk from a key on.
pub(crate) fn walk_from<'a, V>(pages: &'a [Page<V>], firsts: &Heads, key: &Bytes) -> Walk<'a, V>
    requires { ArePages pages.now }
    ensures { result ≡ from_key key.now (flat pages.now) }
{
    match pages_from(pages, firsts, key).split_first() {
        Some((page, later)) => Walk::of(pairs_from(page, key), later),
        None => Walk::of(&[], &[]),
    }
}
