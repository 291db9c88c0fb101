//! The check of a certificate.
ghost use Rattle.std.specs.Prelude.{◌≡◌, length, None, option_copied, IfOk, OnOk, IfErr};
ghost use Rattle.kv_model.specs.Certificates.{is_asked, first_fault, AreNeedsOf};
ghost use Rattle.kv_model.specs.Questions.{IsLeastOf};
ghost use Rattle.kv_model.specs.History.{is_tombstone};
ghost use Rattle.witness_core.specs.Faults.{Finds, IsFirst, Judges, JudgesBy, fault_by};
ghost use Rattle.witness_core.specs.Seen.{seen_need};
ghost use Rattle.witness_core.specs.Standing.{IsThere};
ghost use Rattle.witness_core.specs.Walks.{claim_fault, is_met_by, is_next_by, walked};

use crate::certificate::{Certificate, Claim, Need};
use crate::dump::Dump;
use crate::fault::NeedFault;
use crate::nexts::{are_places, first_fall, first_twin, is_next_in, next_mains};
use kv_model::version::{Body, Version};
use std::alloc::{AllocError, Global};

/// What a certificate that passes says: no list of fewer versions answers each question from the
/// floor to the revision as the dump's does.
#[derive(Clone, Copy, Debug, PartialEq, Eq)]
pub struct Least {
    /// The number of versions in the dump.
    pub count: u64,
}

/// Whether a question may be asked of the dump about the version's key at a revision.
fn is_asked(dump: &Dump, version: &Version, revision: u64) -> bool
    ensures { result ≡ is_asked dump.now version.now revision }
{
    !version.key.is_empty() && 1 <= revision && dump.floor <= revision && revision <= dump.revision
}

/// Whether a version is a tombstone.
pub(crate) fn is_tombstone(version: &Version) -> bool
    ensures { result ≡ is_tombstone version.now.body }
{
    match version.body {
        Body::Gone => true,
        Body::Put { .. } => false,
    }
}

/// Whether the next version is at or below a revision.
fn is_next_by(revision: u64, next: Option<u64>) -> bool
    ensures { result ≡ is_next_by revision next }
{
    match next {
        Some(next) => next <= revision,
        None => false,
    }
}

/// Whether a version answers the question of a need, where the next one of its key is of this main
/// revision.
fn is_met(dump: &Dump, version: &Version, next: Option<u64>, need: Need) -> bool
    ensures { result ≡ is_met_by dump.now version.now next (seen_need need) }
{
    match need {
        Need::Range(revision) => {
            is_asked(dump, version, revision)
                && !is_tombstone(version)
                && version.rev.main <= revision
                && !is_next_by(revision, next)
        }
        Need::Watch(revision) => {
            is_asked(dump, version, revision) && version.rev.main == revision
        }
        Need::Prev(revision) => {
            is_asked(dump, version, revision)
                && !is_tombstone(version)
                && is_next_in(revision, next)
        }
    }
}

/// What is wrong with the claim that stands where the version's has to.
fn claim_fault(
    dump: &Dump,
    version: &Version,
    next: Option<u64>,
    claim: Option<&Claim>,
) -> Option<NeedFault>
    ensures { Finds result (claim_fault dump.now version.now next (option_copied claim.entry)) }
{
    match claim {
        Some(claim) if claim.rev == version.rev => {
            if is_met(dump, version, next, claim.need) {
                None
            } else {
                Some(NeedFault::NeedUnmet(version.rev))
            }
        }
        _ => Some(NeedFault::NoNeed(version.rev)),
    }
}

/// The first fault of the claims, each version with the main revision of the next one of its key.
fn claims_fault(dump: &Dump, nexts: &[Option<u64>], claims: &[Claim]) -> Option<NeedFault>
    ensures { Finds result (walked dump.now dump.now.versions nexts.now claims.now) }
{
    let mut claims = claims.iter();
    for (version, next) in dump.versions.iter().zip(nexts) {
        let fault = claim_fault(dump, version, *next, claims.next());
        if fault.is_some() {
            return fault;
        }
    }
    match claims.next() {
        Some(_) => Some(NeedFault::Extra),
        None => None,
    }
}

/// What a check says of a list that rises, where each version has the main revision of the next one
/// of its key: the first key that stands twice at its main revision, then the first fault of the
/// claims. Takes no memory.
fn judged(dump: &Dump, nexts: &[Option<u64>], claims: &[Claim]) -> Result<Least, NeedFault>
    ensures { Judges result dump.now (fault_by dump.now nexts.now claims.now) }
{
    if let Some(rev) = first_twin(&dump.versions, nexts) {
        return Err(NeedFault::DoubleKey(rev));
    }
    match claims_fault(dump, nexts, claims) {
        Some(fault) => Err(fault),
        None => Ok(Least {
            count: dump.versions.len() as u64,
        }),
    }
}

/// What a check says of a list that rises: want of memory is said where none was found to look for
/// each version's next one, and else what `judged` says. Takes no memory.
fn judged_by(
    dump: &Dump,
    nexts: Result<Vec<Option<u64>>, AllocError>,
    claims: &[Claim],
) -> Result<Least, NeedFault>
    ensures { JudgesBy nexts result dump.now claims.now }
{
    match nexts {
        Ok(nexts) => judged(dump, &nexts, claims),
        Err(_) => Err(NeedFault::Memory),
    }
}

/// Checks the certificate of a dump, which may be any list, and any claims.
///
/// At `Ok` each version of the dump has the need that is claimed for it, among the dump's own
/// versions, and no shorter part of them answers each question from the floor to the revision as
/// they do. The error is the first fault, in the order of [`NeedFault`]. Want of memory comes only
/// where the list rises: the test for keys that stand twice takes memory, from `alloc`, and nothing
/// else does.
///
/// The time is linear in the numbers of versions and claims: keys are found by a map, and no
/// version is compared with each other one.
pub fn check(alloc: Global, dump: &Dump, certificate: &Certificate) -> Result<Least, NeedFault>
    ensures passes { OnOk result (first_fault dump.now certificate.now ≡ None) }
    ensures count { IfOk result (λ least. least.count ≡ length dump.now.versions) }
    ensures needs { OnOk result (AreNeedsOf dump.now.floor dump.now.revision dump.now.versions
        dump.now.versions certificate.now) }
    ensures least { OnOk result (IsLeastOf dump.now.versions dump.now.floor dump.now.revision
        dump.now.versions) }
    ensures first { IfErr result (IsFirst dump.now certificate.now) }
    ensures stands { IfErr result (IsThere dump.now certificate.now) }
{
    are_places(&dump.versions);
    if let Some(rev) = first_fall(&dump.versions) {
        return Err(NeedFault::NotRising(rev));
    }
    let nexts = next_mains(alloc, &dump.versions);
    judged_by(dump, nexts, &certificate.claims)
}
