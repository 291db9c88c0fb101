//! The versions of a table, lent one after another or a page at a time.
ghost use Rattle.std.specs.Prelude.{◌≡◌, ◌<◌, ◌∷◌, ◌++◌, [], length, MatchOption};
ghost use Rattle.version_table.specs.Paged.{HaveVersions, flat};

use crate::page::Page;
use kv_model::version::Version;
use std::marker::Model;

/// The versions that are left of a walk over a table, in their order.
#[derive(Drop)]
pub struct Versions<'a> {
    page: &'a [Version],
    pages: &'a [Page],
}

impl<'a> Model for Versions<'a> {
    ghost use Rattle.std.specs.Prelude.{List, ◌++◌};
    ghost use Rattle.kv_model.specs.declared.version.Version.{Version};
    ghost use Rattle.version_table.specs.Paged.{HaveVersions, flat};

    ghost Value = { List Version };

    ghost view = { λ w. w.page.now ++ flat w.pages.now };

    ghost invariant = { λ w. HaveVersions w.pages.now };
}

impl<'a> Versions<'a> {
    /// A walk over the versions that are left of a page, and then those of pages behind it.
    pub(crate) fn of(page: &'a [Version], pages: &'a [Page]) -> Self
        requires { HaveVersions pages.now }
        ensures { result ≡ page.now ++ flat pages.now }
    {
        Versions { page, pages }
    }

    /// A walk over the versions of pages.
    pub(crate) fn all(pages: &'a [Page]) -> Self
        requires { HaveVersions pages.now }
        ensures { result ≡ flat pages.now }
    {
        Versions { page: &[], pages }
    }

    /// The next version. Takes no memory, and constant time.
    pub fn next(&mut self) -> Option<&'a Version>
        ensures { MatchOption result ((self.old ≡ []) × (self.new ≡ []))
            (λ v. self.old ≡ v.now ∷ self.new) }
    {
        match take_first(&mut self.page) {
            Some(version) => Some(version),
            None => match take_page(&mut self.pages) {
                Some(page) => {
                    self.page = page;
                    take_first(&mut self.page)
                }
                None => None,
            },
        }
    }

    /// The next versions, as many as lie side by side. Takes no memory, and constant time.
    pub fn next_slice(&mut self) -> Option<&'a [Version]>
        ensures { MatchOption result ((self.old ≡ []) × (self.new ≡ []))
            (λ vs. (self.old ≡ vs.now ++ self.new) × (0 < length vs.now)) }
    {
        if self.page.is_empty() {
            return take_page(&mut self.pages);
        }
        let page = self.page;
        self.page = &[];
        Some(page)
    }
}

/// Takes the first of the versions off.
fn take_first<'a>(rest: &mut &'a [Version]) -> Option<&'a Version>
    ensures { MatchOption result ((rest.old.now ≡ []) × (rest.new.now ≡ []))
        (λ v. rest.old.now ≡ v.now ∷ rest.new.now) }
{
    match rest.split_first() {
        Some((version, later)) => {
            *rest = later;
            Some(version)
        }
        None => None,
    }
}

/// Takes the first of the pages off, and gives its versions.
fn take_page<'a>(rest: &mut &'a [Page]) -> Option<&'a [Version]>
    requires { HaveVersions rest.old.now }
    ensures held { HaveVersions rest.new.now }
    ensures next { MatchOption result ((flat rest.old.now ≡ []) × (flat rest.new.now ≡ []))
        (λ vs. (flat rest.old.now ≡ vs.now ++ flat rest.new.now) × (0 < length vs.now)) }
{
    match rest.split_first() {
        Some((page, later)) => {
            *rest = later;
            Some(page.versions())
        }
        None => None,
    }
}
