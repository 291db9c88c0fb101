//! The header of an answer.
ghost use Rattle.std.specs.Prelude.{◌≡◌, ◌<◌, ◌≤◌, ◌^◌, ◌++◌, length, decimal, IfOk, OnOk};
ghost use Rattle.serde_json.specs.Written.{compact_text};
ghost use Rattle.kv_model.specs.Answers as answers;
ghost use Rattle.kv_model.specs.Answers.{header_alone};
ghost use Rattle.gateway_text.specs.Bare.{bare_text, number_between};
ghost use Rattle.gateway_text.specs.Rooms.{text_len};
ghost use Rattle.gateway_text.specs.Tokens.{data_tokens};

use crate::json_text::{JsonText, WriteJson};
use itoa::Buffer;
use kv_model::ids::Ids;
use std::alloc::{AllocError, Global};

/// The header of an answer (the etcd documentation's ResponseHeader).
#[derive(Clone, Copy)]
pub(crate) enum Header {
    /// Who answers, and the revision of the store after the request.
    Whole(Ids, u64),
    /// Within a transaction: the revision after the whole of it.
    Short(u64),
}

impl WriteJson for Header {
    ghost use Rattle.gateway_text.specs.Views.{header_data};

    ghost value = { header_data };

    fn write_json(&self, out: &mut JsonText) -> Result<(), AllocError> {
        match *self {
            Header::Whole(ids, revision) => whole_header(out, ids, revision),
            Header::Short(revision) => short_header(out, revision),
        }
    }
}

/// The bytes of a whole header without its numbers.
const HEADER_NAMES: usize = 62;

/// Room for the text of a whole header.
pub(crate) fn room_of_header(ids: &Ids, revision: u64) -> usize
    ensures most { result ≤ 125 }
    ensures least { text_len (answers.header ids.now revision) ≤ result }
{
    HEADER_NAMES + digits(ids.cluster) + digits(ids.member) + digits(revision)
}

/// The bytes of an answer that is a header alone, without its header.
const BARE_NAMES: usize = 11;

/// The body of an answer that is a header alone: that of most Puts, so it is written as its known
/// bytes with the numbers between them, into one buffer of its length. The error is want of memory.
#[tactic(auto, using(crate::proofs::Bare::bare))]
pub(crate) fn bare_text(alloc: Global, ids: &Ids, revision: u64) -> Result<Vec<u8>, AllocError>
    ensures { IfOk result
        (λ v. v.items ≡ compact_text (header_alone (answers.header ids.now revision))) }
{
    let room = room_of_header(ids, revision) + BARE_NAMES;
    let mut out = Vec::with_capacity(alloc, room)?;
    write_bare(&mut out, ids, revision)?;
    Ok(out)
}

#[tactic(auto, unfolding(crate::specs::Bare::bare_text))]
fn write_bare(out: &mut Vec<u8>, ids: &Ids, revision: u64) -> Result<(), AllocError>
    ensures { OnOk result (out.new.items ≡ out.old.items ++ bare_text ids.now revision) }
{
    out.extend_from_slice(b"{\"header\":{")?;
    write_number(out, b"\"cluster_id\":\"", ids.cluster, b"\",")?;
    write_number(out, b"\"member_id\":\"", ids.member, b"\",")?;
    out.extend_from_slice(b"\"raft_term\":\"1\"")?;
    write_number(out, b",\"revision\":\"", revision, b"\"")?;
    out.extend_from_slice(b"}}")
}

/// Adds the digits of a number between these bytes, and nothing for 0.
fn write_number(out: &mut Vec<u8>, before: &[u8], n: u64, behind: &[u8]) -> Result<(), AllocError>
    ensures { OnOk result (out.new.items
        ≡ out.old.items ++ number_between before.now n behind.now) }
{
    if n == 0 {
        return Ok(());
    }
    out.extend_from_slice(before)?;
    let mut digits = Buffer::new();
    out.extend_from_slice(digits.format(n).as_bytes())?;
    out.extend_from_slice(behind)
}

/// At least as many as the decimal digits of a number, and at most one more: ten bits have three
/// digits, and five bits of sixteen are a little more than that.
pub(crate) fn digits(n: u64) -> usize
    ensures most { result ≤ 21 }
    ensures least { length (decimal n) ≤ result }
    ensures fits { n < 2 ^ 64 }
{
    let bits = 64 - n.leading_zeros() as usize;
    bits * 5 / 16 + 1
}

fn whole_header(out: &mut JsonText, ids: Ids, revision: u64) -> Result<(), AllocError>
    ensures { OnOk result (out.new ≡ out.old ++ data_tokens (answers.header ids revision)) }
{
    out.begin_object()?;
    out.number_member("cluster_id", ids.cluster)?;
    out.number_member("member_id", ids.member)?;
    out.number_member("raft_term", 1)?;
    out.number_member("revision", revision)?;
    out.end_object()
}

fn short_header(out: &mut JsonText, revision: u64) -> Result<(), AllocError>
    ensures { OnOk result (out.new ≡ out.old ++ data_tokens (answers.short_header revision)) }
{
    out.begin_object()?;
    out.number_member("revision", revision)?;
    out.end_object()
}
