//! Which versions a watch matches.
ghost use Rattle.std.specs.Prelude.{◌≡◌, ◌&&◌, filter, find, option_copied};
ghost use Rattle.kv_model.specs.Watches.{matches, wants};
ghost use Rattle.store_laws.specs.Stands.{ahead_of, first_main_of, is_reached, still_ahead};

use kv_model::call::Watched;
use kv_model::version::{Body, Version};

/// Whether the kind of a version is not left out.
fn wants(watched: &Watched, body: &Body) -> bool
    ensures { result ≡ wants watched.now body.now }
{
    match body {
        Body::Put { .. } => !watched.no_put,
        Body::Gone => !watched.no_delete,
    }
}

/// Whether a watch matches a version: its key is in the range, and its kind is not left out.
pub(crate) fn matches(watched: &Watched, version: &Version) -> bool
    ensures { result ≡ matches watched.now version.now }
{
    watched.range.contains(version.key.as_slice()) && wants(watched, &version.body)
}

/// Whether a revision is one that a watch waits for.
fn is_reached(ahead: Option<u64>, main: u64) -> bool
    ensures { result ≡ is_reached ahead main }
{
    match ahead {
        Some(next) => next <= main,
        None => true,
    }
}

/// The first of the versions that a watch waits for and matches.
fn find_reached<'a>(
    versions: &'a [Version],
    ahead: Option<u64>,
    watched: &Watched,
) -> Option<&'a Version>
    ensures { option_copied result
        ≡ find (λ v. is_reached ahead v.rev.main && matches watched.now v) versions.now }
{
    versions
        .iter()
        .find(|v| is_reached(ahead, v.rev.main) && matches(watched, v))
}

/// The main revision of the first of the versions that a watch waits for and matches.
pub(crate) fn first_reached(
    versions: &[Version],
    ahead: Option<u64>,
    watched: &Watched,
) -> Option<u64>
    ensures { result
        ≡ first_main_of
        (filter (λ v. is_reached ahead v.rev.main && matches watched.now v) versions.now) }
{
    match find_reached(versions, ahead, watched) {
        Some(version) => Some(version.rev.main),
        None => None,
    }
}

/// The revision that a watch waits for, where it is above the next one: what is added is of the
/// next one.
pub(crate) fn ahead_of(now: u64, next: u64) -> Option<u64>
    ensures { result ≡ ahead_of now next }
{
    if next > now && next - now > 1 {
        Some(next)
    } else {
        None
    }
}

/// The revision that a watch waits for, where it is still above the next one.
pub(crate) fn still_ahead(now: u64, ahead: Option<u64>) -> Option<u64>
    ensures { result ≡ still_ahead now ahead }
{
    match ahead {
        Some(next) => ahead_of(now, next),
        None => None,
    }
}
