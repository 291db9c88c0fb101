//! Pages one after another: which of them a revision falls into.
ghost use Rattle.std.specs.Prelude.{◌≡◌, ◌≤◌, length, drop, filter, not, IfSome, option_copied};
ghost use Rattle.std.specs.Prelude.{option_map, Some};
ghost use Rattle.std.specs.List.{find, slice_get};
ghost use Rattle.kv_model.specs.History.{rev_lt, is_at};
ghost use Rattle.version_table.specs.Paged.{HaveVersions, flat, pages_before, place_of};
ghost use Rattle.version_table.specs.Paged.{versions_in};
ghost use Rattle.version_table.specs.Rising.{IsRising, newest, rev_of};

use crate::page::{PLACES, Page};
use crate::walk::Versions;
use crate::{galloping, halving};
use kv_model::version::{Rev, Version};

/// How many of the pages stand wholly before a revision. It gallops from the page in which the
/// revision stands where each main revision has one version and none was taken out: the time is
/// logarithmic in how many pages away that is.
pub(crate) fn pages_before(pages: &[Page], rev: Rev) -> usize
    requires rising { IsRising (flat pages.now) }
    requires held { HaveVersions pages.now }
    ensures { result ≡ pages_before rev pages.now }
{
    galloping::pages_before(pages, rev, guess(pages, rev) / PLACES)
}

/// The page at an index.
pub(crate) fn page_at(pages: &[Page], index: usize) -> Option<&Page>
    ensures { option_copied result ≡ slice_get pages.now index }
{
    pages.get(index)
}

/// The versions of the page at an index.
fn versions_at(pages: &[Page], index: usize) -> Option<&[Version]>
    ensures { option_copied result ≡ option_map versions_in (slice_get pages.now index) }
{
    match page_at(pages, index) {
        Some(page) => Some(page.versions()),
        None => None,
    }
}

/// The versions of the first page that does not stand wholly before a revision. It gallops.
fn versions_by(pages: &[Page], rev: Rev) -> Option<&[Version]>
    requires rising { IsRising (flat pages.now) }
    requires held { HaveVersions pages.now }
    ensures { option_copied result
        ≡ option_map versions_in (slice_get pages.now (pages_before rev pages.now)) }
{
    versions_at(pages, pages_before(pages, rev))
}

/// The last page.
pub(crate) fn last_page(pages: &[Page]) -> Option<&Page>
    ensures { option_copied result ≡ newest pages.now }
{
    pages.last()
}

/// The last version of the last page.
pub(crate) fn newest(pages: &[Page]) -> Option<&Version>
    requires { HaveVersions pages.now }
    ensures { option_copied result ≡ newest (flat pages.now) }
{
    match last_page(pages) {
        Some(page) => halving::newest(page.versions()),
        None => None,
    }
}

/// The revision of the first version.
fn oldest(pages: &[Page]) -> Option<Rev>
    requires { HaveVersions pages.now }
    ensures { result ≡ option_map rev_of (slice_get (flat pages.now) 0) }
{
    match versions_at(pages, 0) {
        Some(versions) => halving::rev_at(versions, 0),
        None => None,
    }
}

/// The place at which a revision stands where each main revision from that of the first version on
/// has one version.
fn guess(pages: &[Page], rev: Rev) -> usize
    requires { HaveVersions pages.now }
    ensures { result ≡ place_of rev (option_map rev_of (slice_get (flat pages.now) 0)) }
{
    match oldest(pages) {
        Some(oldest) => rev.main.saturating_sub(oldest.main) as usize,
        None => 0,
    }
}

/// The version at a place, counted over pages in which each place has its version, where it is at
/// the revision: none of the others, which rise, is.
fn version_if(pages: &[Page], place: usize, rev: Rev) -> Option<&Version>
    requires { IsRising (flat pages.now) }
    ensures { IfSome result (λ v. find (is_at rev) (flat pages.now) ≡ Some v.now) }
{
    match versions_at(pages, place / PLACES) {
        Some(versions) => halving::version_if(versions, place % PLACES, rev),
        None => None,
    }
}

/// The version at a revision. It gallops over the pages, and halves within one.
fn search(pages: &[Page], rev: Rev) -> Option<&Version>
    requires rising { IsRising (flat pages.now) }
    requires held { HaveVersions pages.now }
    ensures { option_copied result ≡ find (is_at rev) (flat pages.now) }
{
    match versions_by(pages, rev) {
        Some(versions) => halving::search(versions, rev),
        None => None,
    }
}

/// The version at a revision, which is looked for first where it stands if nothing was taken out.
pub(crate) fn get(pages: &[Page], rev: Rev) -> Option<&Version>
    requires rising { IsRising (flat pages.now) }
    requires held { HaveVersions pages.now }
    ensures { option_copied result ≡ find (is_at rev) (flat pages.now) }
{
    match version_if(pages, guess(pages, rev), rev) {
        Some(version) => Some(version),
        None => search(pages, rev),
    }
}

/// The first version that is not before a revision. It gallops, and halves within a page.
pub(crate) fn first_from(pages: &[Page], rev: Rev) -> Option<&Version>
    requires rising { IsRising (flat pages.now) }
    requires held { HaveVersions pages.now }
    ensures { option_copied result ≡ find (λ v. not (rev_lt v.rev rev)) (flat pages.now) }
{
    match versions_by(pages, rev) {
        Some(versions) => halving::version_at(versions, halving::count_before(versions, rev)),
        None => None,
    }
}

/// The pages from an index on.
fn pages_from(pages: &[Page], index: usize) -> &[Page]
    requires { index ≤ length pages.now }
    ensures { result.now ≡ drop index pages.now }
{
    let (_, rest) = pages.split_at(index);
    rest
}

/// A walk over the versions that are not before a revision. It begins by galloping.
pub(crate) fn walk_from(pages: &[Page], rev: Rev) -> Versions<'_>
    requires rising { IsRising (flat pages.now) }
    requires held { HaveVersions pages.now }
    ensures { result ≡ filter (λ v. not (rev_lt v.rev rev)) (flat pages.now) }
{
    let rest = pages_from(pages, pages_before(pages, rev));
    match rest.split_first() {
        Some((page, later)) => Versions::of(halving::versions_from(page.versions(), rev), later),
        None => Versions::all(rest),
    }
}
