//! The command that a request asks for, read from its path and its body (etcd: the JSON gateway).
//!
//! The one contract is that of [`read`] and of [`Reading::read`], which keeps its room: what they
//! give is `request_of` of `kv_model`, a command or the first fault in the order of the fields, and
//! want of memory says nothing. `json_gateway` calls `read` for each request. Ranges, puts,
//! deletions, transactions, compactions, watches and what is asked of leases have a path each, or
//! two of one meaning. For example,
//!
//! ```text
//! POST /v3/kv/range  {"key":"YQ==","rangeEnd":"Yg==","limit":"2","sort_order":"DESCEND","x":1}
//! ```
//!
//! asks for the first two of the keys from `a` up to `b`, the greatest first:
//!
//! ```text
//! Command::Range(RangeQuery { range: KeyRange { key: a, end: b }, limit: 2, order: Descend, .. })
//! ```
//!
//! Bytes are base64, a number is one or a string of digits, an enum is its name or its number, a
//! name is spelled in snake or in camel case, and one that no message has is ignored. With
//! `"limit":"two"` and `"key":"?"` the refusal is `BadBase64(Key)`, since `key` is read first.
//!
//! Only tested is that calls which may find no memory succeed where there is ample: in the crate
//! `gateway_tests`, in `src/{values,faults,kept}.rt`, and in `tests/rows.d/refusals.rows`.
#![tactic(auto)]

ghost use Rattle.std.specs.Prelude.{◌≡◌, ◌<◌, length, None, Err, IsSome};
ghost use Rattle.kv_model.specs.Commands.{call_of};
ghost use Rattle.kv_model.specs.Requests as requests;
ghost use Rattle.gateway_read.specs.Parts.{command_read};
ghost use Rattle.gateway_read.specs.Reading.{Gives};
ghost use Rattle.gateway_read.specs.declared.bad.Bad.TheVariants.{NoPath, TooLong};

use bad::Bad;
use json::Scratch;
use kv_model::call::Command;
use requests::Request;
use std::alloc::Global;

pub mod bad;
mod body;
mod compacting;
mod comparing;
mod deleting;
pub mod field;
mod kinds;
mod leasing;
mod members;
mod number;
mod object;
mod pair;
mod requests;
mod sorting;
mod symbols;
mod transacting;
mod value;
mod watching;

const PATHS: [(&str, Request); 14] = [
    ("/v3/kv/range", Request::Range),
    ("/v3/kv/put", Request::Put),
    ("/v3/kv/deleterange", Request::Delete),
    ("/v3/kv/txn", Request::Txn),
    ("/v3/kv/compaction", Request::Compact),
    ("/v3/watch", Request::Watch),
    ("/v3/lease/grant", Request::Grant),
    ("/v3/lease/revoke", Request::Revoke),
    ("/v3/kv/lease/revoke", Request::Revoke),
    ("/v3/lease/keepalive", Request::KeepAlive),
    ("/v3/lease/timetolive", Request::TimeToLive),
    ("/v3/kv/lease/timetolive", Request::TimeToLive),
    ("/v3/lease/leases", Request::Leases),
    ("/v3/kv/lease/leases", Request::Leases),
];

/// The command that a POST of this body to this path asks for (the etcd documentation, "gRPC
/// gateway").
///
/// The first fault counts: `NoPath`, then `TooLong` for a body above 1,572,864 bytes, `NotJson` for
/// one that is no JSON object, and `BadField` or `BadBase64` by the fields in their order. A body
/// of no bytes is an empty object. Names are snake or camel case, and the snake one counts where
/// both stand; other names are ignored. `Memory` comes where a growth finds no memory. The time is
/// linear in the body, but for the look-up of each field. It clears 16 KiB, and takes as many bytes
/// as the body has: whoever reads many bodies keeps a [`Reading`].
pub fn read(alloc: Global, path: &[u8], body: &[u8]) -> Result<Command, Bad>
    ensures gives { Gives call_of result (requests.request_of path.now body.now) }
    ensures no_path { requests.named_value requests.paths path.now ≡ None
        → result ≡ Err NoPath }
    ensures too_long { IsSome (requests.named_value requests.paths path.now)
        → requests.longest_body < length body.now → result ≡ Err TooLong }
{
    Reading::new(alloc).read(alloc, path, body)
}

/// The longest body whose room is kept, in bytes.
const LONGEST_KEPT: usize = 65_536;

/// What is kept from one body to the next: the room that reading needs, of at most some 80 KiB.
/// Whoever reads bodies one after another keeps one.
#[derive(Drop)]
pub struct Reading {
    scratch: Scratch,
}

impl Reading {
    /// Clears 16 KiB, and takes no memory.
    pub fn new(alloc: Global) -> Self {
        Reading {
            scratch: Scratch::new(alloc),
        }
    }

    /// The command that a POST of this body to this path asks for, as [`read`] has it, and its
    /// refusals. What bodies were read before makes no difference. Nothing is cleared where a body
    /// is at most as long as one before, and a body above 65,536 bytes leaves no room behind.
    pub fn read(&mut self, alloc: Global, path: &[u8], body: &[u8]) -> Result<Command, Bad>
        ensures gives { Gives call_of result (requests.request_of path.now body.now) }
        ensures no_path { requests.named_value requests.paths path.now ≡ None
            → result ≡ Err NoPath }
        ensures too_long { IsSome (requests.named_value requests.paths path.now)
            → requests.longest_body < length body.now → result ≡ Err TooLong }
    {
        let Some(request) = kinds::named(&PATHS, path) else {
            return Err(Bad::NoPath);
        };
        let command = command_of(alloc, &mut self.scratch, request, body);
        self.keep(alloc, body.len());
        command
    }

    /// Lets the room go that a body of this length took, where that is too much to keep.
    fn keep(&mut self, alloc: Global, len: usize) {
        if len > LONGEST_KEPT {
            self.scratch = Scratch::new(alloc);
        }
    }
}

/// The command of a request of this kind. `Memory` comes where a growth finds no memory.
fn command_of(
    alloc: Global,
    scratch: &mut Scratch,
    request: Request,
    body: &[u8],
) -> Result<Command, Bad>
    ensures gives { Gives call_of result (command_read request body.now) }
    ensures too_long { requests.longest_body < length body.now → result ≡ Err TooLong }
{
    let value = match body::value_of(alloc, scratch, body) {
        Ok(value) => value,
        Err(bad) => return Err(bad),
    };
    match body::object_of(&value) {
        Ok(object) => requests::command(alloc, request, &object),
        Err(bad) => Err(bad),
    }
}
