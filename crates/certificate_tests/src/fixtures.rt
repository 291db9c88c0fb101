//! What several tests are made on. None of these tells of a failure: what found no memory is not
//! there, and the test sees that.
use bytes::Bytes;
use kv_model::version::{Body, Rev, Version};
use range_view::Tables;
use std::alloc::Global;
use witness_core::{Certificate, Claim, Dump, Least, Need, NeedFault, check, make};

/// A version: its revision, its key, and whether it is a put.
pub(crate) type Row = (u64, u64, &'static [u8], bool);

/// A claim: the version's revision, and its need.
pub(crate) type Line = (u64, u64, Need);

/// What a check says, and nothing where a dump or a certificate could not be made.
pub(crate) type Verdict = Option<Result<Least, NeedFault>>;

pub(crate) fn version(row: Row) -> Version {
    let (main, sub, key, is_put) = row;
    let body = if is_put {
        Body::Put {
            create: main,
            version: 1,
            lease: 0,
            value: Bytes::from_static(b"1"),
        }
    } else {
        Body::Gone
    };
    Version {
        rev: Rev { main, sub },
        key: Bytes::from_static(key),
        body,
    }
}

fn dump_of(alloc: Global, floor: u64, revision: u64, rows: &[Row]) -> Dump {
    let mut versions = Vec::new(alloc);
    for row in rows {
        let _ = versions.push(version(*row));
    }
    Dump {
        floor,
        revision,
        versions,
    }
}

fn claim(line: Line) -> Claim {
    let (main, sub, need) = line;
    Claim {
        rev: Rev { main, sub },
        need,
    }
}

fn certificate_of(alloc: Global, lines: &[Line]) -> Certificate {
    let mut claims = Vec::new(alloc);
    for line in lines {
        let _ = claims.push(claim(*line));
    }
    Certificate { claims }
}

/// What a check says of these versions and claims, from a floor to a revision.
pub(crate) fn verdict(
    alloc: Global,
    floor: u64,
    revision: u64,
    rows: &[Row],
    lines: &[Line],
) -> Result<Least, NeedFault> {
    let dump = dump_of(alloc, floor, revision, rows);
    let certificate = certificate_of(alloc, lines);
    let found = check(alloc, &dump, &certificate);
    drop(certificate);
    drop(dump);
    found
}

/// What a check says of what is kept and its certificate.
pub(crate) fn judged(alloc: Global, tables: &Tables) -> Verdict {
    let dump = Dump::of(alloc, &tables.view());
    let certificate = make(alloc, &tables.view());
    let found = match (&dump, &certificate) {
        (Ok(dump), Ok(certificate)) => Some(check(alloc, dump, certificate)),
        _ => None,
    };
    drop(certificate);
    drop(dump);
    found
}

/// Appends a version as a revision, where it is the next one.
pub(crate) fn append(alloc: Global, tables: &mut Tables, version: Version) {
    let mut versions = Vec::new(alloc);
    let _ = versions.push(version);
    if tables.takes(&versions) {
        let _ = tables.append(&versions);
    }
}
