//! How pages grow and shrink.
ghost use Rattle.std.specs.Prelude.{◌≡◌, ◌+◌, ◌<◌, length, true, false, Some, IfOk, IsOk};
ghost use Rattle.std.specs.Prelude.{OnOk, OnErr};
ghost use Rattle.std.specs.List.{slice_get};
ghost use Rattle.kv_model.specs.History.{without_rev};
ghost use Rattle.version_table.specs.Paged.{Fit, HaveVersions, IsSpare, blank, change_at, flat};
ghost use Rattle.version_table.specs.Paged.{freed, fresh, has_room, is_void, pushed};
ghost use Rattle.version_table.specs.Paged.{without_version};
ghost use Rattle.version_table.specs.Rising.{IsRising};

use crate::page::Page;
use crate::pages::{last_page, page_at, pages_before};
use kv_model::version::{Rev, Version};
use std::alloc::{AllocError, Global};

/// Whether the last page has a place that was never used.
fn has_room(pages: &[Page]) -> bool
    ensures { result ≡ has_room pages.now }
{
    match last_page(pages) {
        Some(page) => page.has_room(),
        None => false,
    }
}

/// Adds a version behind those of the last page, which has room. It never fails, and takes no
/// memory.
fn push_last(pages: &mut Vec<Page>, version: Version) -> Result<(), AllocError>
    requires { has_room pages.old.items ≡ true }
    ensures ok { OnOk result (pages.new.items ≡ pushed version pages.old.items) }
    ensures err { OnErr result (pages.new.items ≡ pages.old.items) }
    ensures room { IsOk result }
{
    let last = pages.len() - 1;
    pages[last].push(version)
}

/// A page of which no place was used: the spare one, and else one of two that are made, of which
/// the second is the next spare one. The error is want of memory.
///
/// The memory of two that are made lies side by side, as a rule. So when the second of them is freed
/// the C library has a free block above 64 KiB, at which it joins the small blocks that were freed
/// before: some at a time, and not all that a million of trimming steps freed in one of them.
fn take_blank(spare: &mut Option<Page>, alloc: Global) -> Result<Page, AllocError>
    requires { IsSpare spare.old }
    ensures page { IfOk result (λ p. p ≡ blank) }
    ensures spare { IsSpare spare.new }
{
    if let Some(page) = spare.take() {
        return Ok(page);
    }
    let page = Page::blank(alloc)?;
    *spare = Some(Page::blank(alloc)?);
    Ok(page)
}

/// A page whose first place has a version, and the others none.
fn page_with(spare: &mut Option<Page>, alloc: Global, version: Version) -> Result<Page, AllocError>
    requires { IsSpare spare.old }
    ensures page { IfOk result (λ p. p ≡ fresh version) }
    ensures spare { IsSpare spare.new }
{
    let mut page = take_blank(spare, alloc)?;
    page.push(version)?;
    Ok(page)
}

/// Adds a version behind all others: on the last page where that has room, and else on a new one.
/// The error is want of memory for a new page.
pub(crate) fn push(
    pages: &mut Vec<Page>,
    spare: &mut Option<Page>,
    alloc: Global,
    version: Version,
) -> Result<(), AllocError>
    requires { IsSpare spare.old }
    ensures ok { OnOk result (pages.new.items ≡ pushed version pages.old.items) }
    ensures err { OnErr result (pages.new.items ≡ pages.old.items) }
    ensures full { OnErr result (has_room pages.old.items ≡ false) }
    ensures spare { IsSpare spare.new }
{
    if has_room(pages) {
        return push_last(pages, version);
    }
    pages.push(page_with(spare, alloc, version)?)?;
    Ok(())
}

/// Takes the version at a revision out of the page at an index, and tells how many went.
fn remove_in(pages: &mut Vec<Page>, index: usize, rev: Rev) -> usize
    requires inside { index < length pages.old.items }
    requires rising { IsRising (flat pages.old.items) }
    ensures value { pages.new.items ≡ change_at (without_version rev) index pages.old.items }
    ensures count { result + length (flat pages.new.items) ≡ length (flat pages.old.items) }
{
    pages[index].remove(rev)
}

/// Whether the page at an index has no version.
fn is_void(pages: &[Page], index: usize) -> bool
    ensures { result ≡ is_void (slice_get pages.now index) }
{
    match page_at(pages, index) {
        Some(page) => page.is_empty(),
        None => false,
    }
}

/// Takes out the page at an index where it has no version.
fn free(pages: &mut Vec<Page>, index: usize)
    requires { index < length pages.old.items }
    ensures { pages.new.items ≡ freed index pages.old.items }
{
    if is_void(pages, index) {
        let _ = pages.remove(index);
    }
}

/// Takes out the version at a revision, and its page where it was the last one on it. Tells how
/// many versions went.
pub(crate) fn remove(pages: &mut Vec<Page>, rev: Rev) -> usize
    requires rising { IsRising (flat pages.old.items) }
    requires held { HaveVersions pages.old.items }
    requires fit { Fit pages.old.items }
    ensures value { flat pages.new.items ≡ without_rev (Some rev) (flat pages.old.items) }
    ensures held { HaveVersions pages.new.items }
    ensures fit { Fit pages.new.items }
    ensures count { result + length (flat pages.new.items) ≡ length (flat pages.old.items) }
{
    let index = pages_before(pages, rev);
    if index >= pages.len() {
        return 0;
    }
    let gone = remove_in(pages, index, rev);
    free(pages, index);
    gone
}
