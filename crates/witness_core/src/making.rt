//! The certificate of what a store keeps.
ghost use Rattle.std.specs.Prelude.{◌≡◌, ◌++◌, ◌&&◌, max, nat_lt, List, option_map, IfOk, OnOk};
ghost use Rattle.std.specs.List.{cons_option};
ghost use Rattle.kv_model.specs.Certificates.{claim_of, claims_of, need_of, put_need};
ghost use Rattle.kv_model.specs.Certificates.{Claim as SeenClaim};
ghost use Rattle.kv_model.specs.History.{is_next_at, is_superseded};
ghost use Rattle.witness_core.specs.Making.{dump_of, is_first_by};
ghost use Rattle.witness_core.specs.Seen.{seen_need};

use crate::certificate::{Certificate, Claim, Need};
use crate::nexts::is_before;
use kv_model::version::{Body, Rev, Version};
use range_view::{KeyVersions, View};
use std::alloc::{AllocError, Global};

/// Whether the first of these versions behind a place is at or below a revision.
fn is_first_by(place: Rev, revision: u64, versions: KeyVersions<'_>) -> bool
    ensures { result ≡ is_first_by place revision versions.entry }
{
    let mut versions = versions;
    while let Some(version) = versions.next() {
        if is_before(place, version.rev) {
            return version.rev.main <= revision;
        }
    }
    false
}

/// Whether a later version of the key stands at or below a revision: the next one of the key does.
///
/// The time is logarithmic in the number of keys and in that of the key's revisions, where a key
/// has one version of a main revision.
fn is_superseded(view: &View<'_>, version: &Version, revision: u64) -> bool
    ensures { result ≡ is_superseded view.now.versions revision version.now }
{
    let versions = view.versions_of(&version.key, version.rev.main);
    is_first_by(version.rev, revision, versions)
}

/// Whether the next version of the key is of a revision, where versions stand above revision 0.
///
/// The time is that of two tests of whether a version is superseded.
fn is_next_at(view: &View<'_>, version: &Version, revision: u64) -> bool
    ensures { result ≡ is_next_at view.now.versions revision version.now }
{
    is_superseded(view, version, revision)
        && !is_superseded(view, version, revision.saturating_sub(1))
}

/// What a put that is kept is needed for.
fn put_need(view: &View<'_>, version: &Version) -> Option<Need>
    ensures { option_map seen_need result
        ≡ put_need
        (is_superseded view.now.versions (max version.now.rev.main view.now.compacted) version.now)
        (nat_lt version.now.rev.main view.now.compacted
        && is_next_at view.now.versions view.now.compacted version.now)
        (max version.now.rev.main view.now.compacted) view.now.compacted }
{
    let compacted = view.compacted();
    let revision = version.rev.main.max(compacted);
    if !is_superseded(view, version, revision) {
        Some(Need::Range(revision))
    } else if version.rev.main < compacted && is_next_at(view, version, compacted) {
        Some(Need::Prev(compacted))
    } else {
        None
    }
}

/// What a version that is kept is needed for.
fn need_of(view: &View<'_>, version: &Version) -> Option<Need>
    ensures { option_map seen_need result
        ≡ need_of (dump_of view.now) version.now version.now.body }
{
    match version.body {
        Body::Put { .. } => put_need(view, version),
        Body::Gone => {
            if view.compacted() <= version.rev.main {
                Some(Need::Watch(version.rev.main))
            } else {
                None
            }
        }
    }
}

/// The claim of a version that is kept.
fn claim_of(view: &View<'_>, version: &Version) -> Option<Claim>
    ensures { result ≡ claim_of (dump_of view.now) version.now }
{
    match need_of(view, version) {
        Some(need) => Some(Claim {
            rev: version.rev,
            need,
        }),
        None => None,
    }
}

/// Adds a claim, if there is one. The error is want of memory.
fn add(claims: &mut Vec<Claim>, claim: Option<Claim>) -> Result<(), AllocError>
    ensures { OnOk result ((rest : List SeenClaim)
        → claims.new.items ++ rest ≡ claims.old.items ++ cons_option claim rest) }
{
    if let Some(claim) = claim {
        claims.push(claim)?;
    }
    Ok(())
}

/// The certificate of what a view shows, behind its place too: in the order of the versions, each
/// put that is the last version of its key at or below the last compaction, or at or below its own
/// revision where that is above, has the need of a Range of that revision; each other put below the
/// last compaction whose next version is of it has the need of a watch of it, as the value before; each
/// tombstone from the last compaction on has the need of a watch of its revision; other versions
/// have none.
///
/// The error is want of memory. The time is linear in the number of versions, and for each of them
/// logarithmic in the number of keys and in that of its key's revisions.
pub fn make(alloc: Global, view: &View<'_>) -> Result<Certificate, AllocError>
    ensures { IfOk result (λ certificate. certificate ≡ claims_of (dump_of view.now)) }
{
    let mut claims = Vec::new(alloc);
    let mut versions = view.versions();
    while let Some(version) = versions.next() {
        add(&mut claims, claim_of(view, version))?;
    }
    Ok(Certificate { claims })
}
