//! Bytes that are no request, or none that has a command, and bytes that do not end.
use crate::peers::{Coming, Then, willing};
use crate::sides::{Side, answered};
use crate::texts::{PUT, REQUESTS};
use crate::wanted::{Wanted, comes_to};
use http_reply::{Counted, Front};
use std::alloc::Global;
use std::sync::Wait;
use std::time;

const BAD_HEAD: &[u8] =
    b"HTTP/1.1 400 Bad Request\r\nContent-Type: application/json\r\nContent-Length: 62\r\n\
    Connection: close\r\n\r\n{\"code\":3,\"error\":\"http: bad head\",\"message\":\"http\
    : bad head\"}";

const BAD_LENGTH: &[u8] =
    b"HTTP/1.1 400 Bad Request\r\nContent-Type: application/json\r\nContent-Length: 66\r\n\
    Connection: close\r\n\r\n{\"code\":3,\"error\":\"http: bad length\",\"message\":\"ht\
    tp: bad length\"}";

const TOO_LONG: &[u8] =
    b"HTTP/1.1 400 Bad Request\r\nContent-Type: application/json\r\nContent-Length: 62\r\n\
    Connection: close\r\n\r\n{\"code\":3,\"error\":\"http: too long\",\"message\":\"http\
    : too long\"}";

/// What a body that is no object is answered, and the put behind it.
const NO_OBJECT: &[u8] =
    b"HTTP/1.1 400 Bad Request\r\nContent-Type: application/json\r\nContent-Length: 102\r\
    \n\r\n{\"code\":3,\"error\":\"gateway: body is not a JSON object\",\"message\":\"gat\
    eway: body is not a JSON object\"}HTTP/1.1 200 OK\r\nContent-Type: application/json\
    \r\nContent-Length: 76\r\n\r\n{\"header\":{\"cluster_id\":\"1\",\"member_id\":\"1\",\
    \"raft_term\":\"1\",\"revision\":\"2\"}}";

/// What comes first, behind which a put comes with a second read, and what that comes to.
type Row = (&'static [u8], Wanted<'static>);

/// Each but the last two is refused, and the put behind it is not read: more header lines than there
/// may be, a body of one byte more than there may be, two lengths, chunks, and an earlier version;
/// then a body nested 200 deep, and one with a byte that no text has.
static ROWS: [Row; 7] = [
    (
        b"POST /v3/kv/put HTTP/1.1\r\nA: b\r\nA: b\r\nA: b\r\nA: b\r\nA: b\r\nA: b\r\nA: b\r\n\
            A: b\r\nA: b\r\nA: b\r\nA: b\r\nA: b\r\nA: b\r\nA: b\r\nA: b\r\nA: b\r\nA: b\r\nA: b\
            \r\nA: b\r\nA: b\r\nA: b\r\nA: b\r\nA: b\r\nA: b\r\nA: b\r\nA: b\r\nA: b\r\nA: b\r\n\
            A: b\r\nA: b\r\nA: b\r\nA: b\r\nA: b\r\nA: b\r\nA: b\r\nA: b\r\nA: b\r\nA: b\r\nA: b\
            \r\nA: b\r\nA: b\r\nA: b\r\nA: b\r\nA: b\r\nA: b\r\nA: b\r\nA: b\r\nA: b\r\nA: b\r\n\
            A: b\r\nA: b\r\nA: b\r\nA: b\r\nA: b\r\nA: b\r\nA: b\r\nA: b\r\nA: b\r\nA: b\r\nA: b\
            \r\nA: b\r\nA: b\r\nA: b\r\nA: b\r\nA: b\r\n\r\n",
        Wanted {
            ended: Err(Front::Head),
            revision: 1,
            goes: BAD_HEAD,
        },
    ),
    (
        b"POST /v3/kv/put HTTP/1.1\r\nContent-Length: 1572865\r\n\r\n",
        Wanted {
            ended: Err(Front::TooLong),
            revision: 1,
            goes: TOO_LONG,
        },
    ),
    (
        b"POST /v3/kv/put HTTP/1.1\r\nContent-Length: 29\r\nContent-Length: 29\r\n\r\n{\"key\"\
            :\"Zm9v\",\"value\":\"YmFy\"}",
        Wanted {
            ended: Err(Front::Length),
            revision: 1,
            goes: BAD_LENGTH,
        },
    ),
    (
        b"POST /v3/kv/put HTTP/1.1\r\nTransfer-Encoding: chunked\r\n\r\n1d\r\n{\"key\":\"Zm9v\
            \",\"value\":\"YmFy\"}\r\n0\r\n\r\n",
        Wanted {
            ended: Err(Front::Length),
            revision: 1,
            goes: BAD_LENGTH,
        },
    ),
    (
        b"POST /v3/kv/put HTTP/1.0\r\nContent-Length: 29\r\n\r\n{\"key\":\"Zm9v\",\"value\":\"\
            YmFy\"}",
        Wanted {
            ended: Err(Front::Head),
            revision: 1,
            goes: BAD_HEAD,
        },
    ),
    (
        b"POST /v3/kv/put HTTP/1.1\r\nHost: t\r\nContent-Length: 406\r\n\r\n{\"a\":[[[[[[[[[[[\
            [[[[[[[[[[[[[[[[[[[[[[[[[[[[[[[[[[[[[[[[[[[[[[[[[[[[[[[[[[[[[[[[[[[[[[[[[[[[[[[[[[[[\
            [[[[[[[[[[[[[[[[[[[[[[[[[[[[[[[[[[[[[[[[[[[[[[[[[[[[[[[[[[[[[[[[[[[[[[[[[[[[[[[[[[[[\
            [[[[[[[[[[[[[[[[[[[[[]]]]]]]]]]]]]]]]]]]]]]]]]]]]]]]]]]]]]]]]]]]]]]]]]]]]]]]]]]]]]]]\
            ]]]]]]]]]]]]]]]]]]]]]]]]]]]]]]]]]]]]]]]]]]]]]]]]]]]]]]]]]]]]]]]]]]]]]]]]]]]]]]]]]]]]\
            ]]]]]]]]]]]]]]]]]]]]]]]]]]]]]]]]]]]]]]]]]]]]]]]]]]]]]}",
        Wanted {
            ended: Ok(2),
            revision: 2,
            goes: NO_OBJECT,
        },
    ),
    (
        b"POST /v3/kv/put HTTP/1.1\r\nHost: t\r\nContent-Length: 11\r\n\r\n{\"key\":\"\xff\"}",
        Wanted {
            ended: Ok(2),
            revision: 2,
            goes: NO_OBJECT,
        },
    ),
];

/// The place of the first row that comes to something else.
fn first_wrong_row<R: Wait + time::Clock>(rt: &R, alloc: Global, side: Side) -> Option<usize> {
    for (index, (first, wanted)) in ROWS.iter().enumerate() {
        let coming = Coming {
            first,
            second: &REQUESTS[..PUT],
            then: Then::Ends,
        };
        if !comes_to(rt, alloc, side, coming, willing(alloc), wanted) {
            return Some(index);
        }
    }
    None
}

#[test]
fn hostile_requests(rt: HostRuntime) {
    let alloc = rt.alloc();
    assert_eq!(rt; first_wrong_row(&rt, alloc, Side::Core), None);
    assert_eq!(rt; first_wrong_row(&rt, alloc, Side::Engine), None);
}

/// A head whose body is as long as may be.
const LONG_BODY: &[u8] = b"POST /v3/kv/put HTTP/1.1\r\nContent-Length: 1572864\r\n\r\n";

/// How a connection ends, and after how many reads, that gives these bytes and then a letter with
/// each read, for ever; and how many bytes went out.
fn endless<R: Wait + time::Clock>(
    rt: &R,
    alloc: Global,
    side: Side,
    first: &[u8],
) -> Option<(Result<u64, Front>, u64, usize)> {
    let mut r = Counted::new(Coming {
        first,
        second: b"",
        then: Then::Letters,
    });
    let mut w = Counted::new(willing(alloc));
    let end = answered(rt, alloc, side, &mut r, &mut w);
    let reads = r.reads();
    let going = w.into_inner();
    let count = going.got.len();
    drop(going);
    match end {
        Some(end) => Some((end.ended, reads, count)),
        None => None,
    }
}

/// No more reads are made than one for each byte that a head may have, and a body.
#[test]
fn letters_without_end(rt: HostRuntime) {
    let alloc = rt.alloc();
    let head = Some((Err(Front::TooLong), 8192, TOO_LONG.len()));
    assert_eq!(rt; endless(&rt, alloc, Side::Core, b""), head);
    assert_eq!(rt; endless(&rt, alloc, Side::Engine, b""), head);
    let body = Some((
        Err(Front::TooLong),
        1 + 1_572_864 + 8192,
        183 + TOO_LONG.len(),
    ));
    assert_eq!(rt; endless(&rt, alloc, Side::Core, LONG_BODY), body);
    assert_eq!(rt; endless(&rt, alloc, Side::Engine, LONG_BODY), body);
}
