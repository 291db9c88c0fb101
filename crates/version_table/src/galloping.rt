//! Galloping: in which of rising pages a revision falls, looked for first near the page in which it
//! should stand. Each step goes eight times as far as the one before, and what it has found is then
//! halved: a page `d` away is found in a number of steps that is logarithmic in `d`.
ghost use Rattle.std.specs.Prelude.{◌≡◌, ◌≤◌, ◌++◌, length};
ghost use Rattle.version_table.specs.Paged.{HaveVersions, ends_past, flat, pages_before};
ghost use Rattle.version_table.specs.Rising.{IsRising};

use crate::page::Page;
use crate::pages::last_page;
use kv_model::version::Rev;

/// How many times as far each step goes as the one before.
const STRIDE: usize = 8;

/// How many of the pages stand wholly before a revision. It halves.
fn halved(pages: &[Page], rev: Rev) -> usize
    requires rising { IsRising (flat pages.now) }
    requires held { HaveVersions pages.now }
    ensures count { result ≡ pages_before rev pages.now }
    ensures bound { result ≤ length pages.now }
{
    pages.partition_point(|page| page.is_past(rev))
}

/// Whether all of the pages stand wholly before a revision: the last one does.
fn ends_past(pages: &[Page], rev: Rev) -> bool
    ensures { result ≡ ends_past rev pages.now }
{
    match last_page(pages) {
        Some(page) => page.is_past(rev),
        None => true,
    }
}

/// The pages up to an index, and those from it on.
fn parts(pages: &[Page], index: usize) -> (&[Page], &[Page])
    requires inside { index ≤ length pages.now }
    requires rising { IsRising (flat pages.now) }
    requires held { HaveVersions pages.now }
    ensures whole { pages.now ≡ result.0.now ++ result.1.now }
    ensures index { length result.0.now ≡ index }
    ensures rising { IsRising (flat result.0.now) × IsRising (flat result.1.now) }
    ensures held { HaveVersions result.0.now × HaveVersions result.1.now }
{
    pages.split_at(index)
}

/// How many of the pages stand wholly before a revision, looked for from the first one on.
fn forward(pages: &[Page], rev: Rev, step: usize) -> usize
    requires rising { IsRising (flat pages.now) }
    requires held { HaveVersions pages.now }
    ensures count { result ≡ pages_before rev pages.now }
    ensures bound { result ≤ length pages.now }
{
    if step == 0 || step >= pages.len() {
        return halved(pages, rev);
    }
    let (near, far) = parts(pages, step);
    if ends_past(near, rev) {
        return step + forward(far, rev, step.saturating_mul(STRIDE));
    }
    halved(near, rev)
}

/// How many of the pages stand wholly before a revision, looked for from the last one on.
fn backward(pages: &[Page], rev: Rev, step: usize) -> usize
    requires rising { IsRising (flat pages.now) }
    requires held { HaveVersions pages.now }
    ensures count { result ≡ pages_before rev pages.now }
    ensures bound { result ≤ length pages.now }
{
    if step == 0 || step >= pages.len() {
        return halved(pages, rev);
    }
    let (far, near) = parts(pages, pages.len() - step);
    if ends_past(far, rev) {
        return far.len() + halved(near, rev);
    }
    backward(far, rev, step.saturating_mul(STRIDE))
}

/// How many of the pages stand wholly before a revision. It gallops from the page at an index,
/// forward or backward.
pub(crate) fn pages_before(pages: &[Page], rev: Rev, index: usize) -> usize
    requires rising { IsRising (flat pages.now) }
    requires held { HaveVersions pages.now }
    ensures count { result ≡ pages_before rev pages.now }
    ensures bound { result ≤ length pages.now }
{
    let (before, behind) = parts(pages, index.min(pages.len()));
    if ends_past(before, rev) {
        return before.len() + forward(behind, rev, 1);
    }
    backward(before, rev, 1)
}
