//! Faults of a list of versions by itself, and each version's next one.
ghost use Rattle.std.specs.Prelude.{◌≡◌, ◌<◌, ◌^◌, IfOk};
ghost use Rattle.std.specs.List.{AllByRecursion};
ghost use Rattle.kv_model.specs.Certificates.{fall_after, first_fall};
ghost use Rattle.kv_model.specs.History.{rev_lt};
ghost use Rattle.witness_core.specs.Walks.{first_twin, is_next_in, next_mains};

use kv_model::version::{Rev, Version};
use std::alloc::{AllocError, Global};
use std::collections::HashMap;

/// Whether a revision stands before another.
pub(crate) fn is_before(left: Rev, right: Rev) -> bool
    ensures { result ≡ rev_lt left right }
{
    left.cmp(&right).is_lt()
}

/// The first of these versions that does not stand above the one before it, where this revision
/// stands before the first.
fn fall_after(first: Rev, versions: &[Version]) -> Option<Rev>
    ensures { result ≡ fall_after first versions.now }
{
    let mut last = first;
    for version in versions {
        if !is_before(last, version.rev) {
            return Some(version.rev);
        }
        last = version.rev;
    }
    None
}

/// The first version that does not stand above the one before it. Takes no memory.
pub(crate) fn first_fall(versions: &[Version]) -> Option<Rev>
    ensures { result ≡ first_fall versions.now }
{
    match versions.split_first() {
        Some((first, rest)) => fall_after(first.rev, rest),
        None => None,
    }
}

/// For each version the main revision of the next one of its key, where one follows it.
///
/// The error is want of memory. The versions are walked once from the last on, by a map from each
/// key to the main revision of the version of it that was met last.
pub(crate) fn next_mains(
    alloc: Global,
    versions: &[Version],
) -> Result<Vec<Option<u64>>, AllocError>
    ensures { IfOk result (λ nexts. nexts.items ≡ next_mains versions.now) }
{
    let mut met = HashMap::new(alloc);
    let mut nexts = Vec::with_capacity(alloc, versions.len())?;
    for version in versions.iter().rev() {
        let next = met.insert(version.key.as_slice(), version.rev.main)?;
        nexts.push(next)?;
    }
    nexts.reverse();
    Ok(nexts)
}

/// Whether the next version is of a main revision.
pub(crate) fn is_next_in(main: u64, next: Option<u64>) -> bool
    ensures { result ≡ is_next_in main next }
{
    match next {
        Some(next) => next == main,
        None => false,
    }
}

/// The first version whose next one is of its own main revision. Takes no memory.
pub(crate) fn first_twin(versions: &[Version], nexts: &[Option<u64>]) -> Option<Rev>
    ensures { result ≡ first_twin versions.now nexts.now }
{
    for (version, next) in versions.iter().zip(nexts) {
        if is_next_in(version.rev.main, *next) {
            return Some(version.rev);
        }
    }
    None
}

/// The number of a version within its revision.
fn number_of(version: &Version) -> u64
    ensures value { result ≡ version.now.rev.sub }
    ensures fits { version.now.rev.sub < 2 ^ 64 }
{
    version.rev.sub
}

/// The numbers within a revision fit 64 bits.
pub(crate) fn are_places(versions: &[Version])
    ensures { AllByRecursion (λ v. v.rev.sub < 2 ^ 64) versions.now }
{
    for version in versions {
        number_of(version);
    }
}
