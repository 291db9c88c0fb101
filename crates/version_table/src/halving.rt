//! Rising slices of versions, as a page has one: what stands at a place, found by halving.
ghost use Rattle.std.specs.Prelude.{◌≡◌, ◌<◌, ◌≤◌, length, drop, filter, not, option_and_then};
ghost use Rattle.std.specs.Prelude.{IfSome, option_map, option_copied, Some, vec_capacity};
ghost use Rattle.std.specs.List.{find, remove, slice_get};
ghost use Rattle.kv_model.specs.History.{rev_lt, is_at, without_rev};
ghost use Rattle.version_table.specs.Rising.{IsRising, newest, count_before, without_index};

use kv_model::version::{Rev, Version};

/// Whether a revision stands before another, by main and then by sub.
pub(crate) fn is_before(left: Rev, right: Rev) -> bool
    ensures { result ≡ rev_lt left right }
{
    left.cmp(&right).is_lt()
}

/// The last version.
pub(crate) fn newest(versions: &[Version]) -> Option<&Version>
    ensures { option_copied result ≡ newest versions.now }
{
    versions.last()
}

/// The version at an index.
pub(crate) fn version_at(versions: &[Version], index: usize) -> Option<&Version>
    ensures { option_copied result ≡ slice_get versions.now index }
{
    versions.get(index)
}

/// The revision at an index.
pub(crate) fn rev_at(versions: &[Version], index: usize) -> Option<Rev>
    ensures { result ≡ option_map (λ v. v.rev) (slice_get versions.now index) }
{
    version_at(versions, index).map(|version| version.rev)
}

/// The version at an index, where it is at the revision: none of the others, which rise, is.
pub(crate) fn version_if(versions: &[Version], index: usize, rev: Rev) -> Option<&Version>
    requires { IsRising versions.now }
    ensures { IfSome result (λ v. find (is_at rev) versions.now ≡ Some v.now) }
{
    match version_at(versions, index) {
        Some(version) if version.rev == rev => Some(version),
        _ => None,
    }
}

/// The version at a revision. It halves.
pub(crate) fn search(versions: &[Version], rev: Rev) -> Option<&Version>
    requires { IsRising versions.now }
    ensures { option_copied result ≡ find (is_at rev) versions.now }
{
    match index_of(versions, rev) {
        Some(index) => version_at(versions, index),
        None => None,
    }
}

/// How many of the versions, which rise, stand before a revision. It halves.
pub(crate) fn count_before(versions: &[Version], rev: Rev) -> usize
    requires { IsRising versions.now }
    ensures { result ≡ count_before rev versions.now }
{
    versions.partition_point(|v| is_before(v.rev, rev))
}

/// The index of the version at a revision. It halves.
pub(crate) fn index_of(versions: &[Version], rev: Rev) -> Option<usize>
    requires { IsRising versions.now }
    ensures bound { IfSome result (λ i. i < length versions.now) }
    ensures found { find (is_at rev) versions.now
        ≡ option_and_then (slice_get versions.now) result }
    ensures without { without_rev (Some rev) versions.now ≡ without_index versions.now result }
{
    let index = count_before(versions, rev);
    match version_at(versions, index) {
        Some(version) if version.rev == rev => Some(index),
        _ => None,
    }
}

/// Takes out the version at an index. The room stays.
pub(crate) fn remove_at(versions: &mut Vec<Version>, index: usize)
    requires { index < length versions.old.items }
    ensures value { versions.new.items ≡ remove versions.old.items index }
    ensures room { vec_capacity versions.new ≡ vec_capacity versions.old }
{
    let _ = versions.remove(index);
}

/// The versions from an index on.
pub(crate) fn rest_from(versions: &[Version], index: usize) -> &[Version]
    requires { index ≤ length versions.now }
    ensures { result.now ≡ drop index versions.now }
{
    let (_, rest) = versions.split_at(index);
    rest
}

/// The versions that are not before a revision. It halves.
pub(crate) fn versions_from(versions: &[Version], rev: Rev) -> &[Version]
    requires { IsRising versions.now }
    ensures { result.now ≡ filter (λ v. not (rev_lt v.rev rev)) versions.now }
{
    rest_from(versions, count_before(versions, rev))
}
