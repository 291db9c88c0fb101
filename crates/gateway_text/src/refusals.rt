//! The bodies of refusals.
ghost use Rattle.std.specs.Prelude.{◌≡◌, ◌<◌, ◌≤◌, ◌+◌, ◌*◌, ◌^◌, ℕ, ◌++◌, length, IfOk, OnOk};
ghost use Rattle.std.specs.Prelude.{string_bytes};
ghost use Rattle.kv_model.specs.declared.refusal.Refusal.TheVariants.{Memory};
ghost use Rattle.kv_model.specs.Requests as requests;
ghost use Rattle.kv_model.specs.Answers.{fault, fault_of, fault_of_bad};
ghost use Rattle.kv_model.specs.Answers.{lost_fault, fault_text, refused};
ghost use Rattle.gateway_text.specs.Rooms.{ArePlain, Holds, text_len};
ghost use Rattle.gateway_text.specs.Tokens.{data_tokens};
ghost use Rattle.gateway_text.specs.Views.{wording_view};

use crate::json_text::JsonText;
use kv_model::refusal::Refusal;
use std::alloc::{AllocError, Global};

/// The bytes of a refusal's body without its texts, at most.
const REFUSAL_FRAME: usize = 64;

/// What a refusal says.
#[derive(Clone, Copy, Debug)]
pub struct Wording<'a> {
    /// The HTTP status.
    pub status: u16,
    /// The gRPC status code (google.rpc.Code).
    pub code: u16,
    /// The text, up to the name.
    pub text: &'static str,
    /// The name that ends the text, or nothing.
    pub name: &'a str,
}

impl<'a> Wording<'a> {
    /// That no request has this path. Like the others here it takes no memory.
    pub fn no_path() -> Wording<'a>
        ensures { wording_view result ≡ fault_of_bad requests.Bad.no_path }
    {
        fixed(404, 5, "gateway: no such path")
    }

    /// That the body is longer than a body may be.
    pub fn too_long() -> Wording<'a>
        ensures { wording_view result ≡ fault_of_bad requests.Bad.too_long }
    {
        fixed(400, 3, "gateway: body too long")
    }

    /// That the body is no JSON object.
    pub fn not_json() -> Wording<'a>
        ensures { wording_view result ≡ fault_of_bad requests.Bad.not_json }
    {
        fixed(400, 3, "gateway: body is not a JSON object")
    }

    /// That the value of the field with this name is not of its kind.
    pub fn bad_field(name: &'a str) -> Wording<'a>
        ensures { wording_view result ≡ fault_of_bad (requests.Bad.bad_field name.now) }
    {
        Wording {
            status: 400,
            code: 3,
            text: "gateway: bad field ",
            name,
        }
    }

    /// That the text of the field with this name is no base64.
    pub fn bad_base64(name: &'a str) -> Wording<'a>
        ensures { wording_view result ≡ fault_of_bad (requests.Bad.bad_base64 name.now) }
    {
        Wording {
            status: 400,
            code: 3,
            text: "gateway: bad base64 in ",
            name,
        }
    }
}

/// A wording without a name.
fn fixed<'a>(status: u16, code: u16, text: &'static str) -> Wording<'a>
    ensures { wording_view result ≡ fault status code text.now }
{
    Wording {
        status,
        code,
        text,
        name: "",
    }
}

/// What the store's refusal of a command says. Takes no memory.
pub fn refusal_wording(refusal: Refusal) -> Wording<'static>
    ensures { wording_view result ≡ fault_of refusal }
{
    match refusal {
        Refusal::Memory => fixed(500, 13, "etcdserver: out of memory"),
        Refusal::Compacted(_) => fixed(
            400,
            11,
            "etcdserver: mvcc: required revision has been compacted",
        ),
        Refusal::Future(_) => fixed(
            400,
            11,
            "etcdserver: mvcc: required revision is a future revision",
        ),
        Refusal::NoKey => fixed(400, 3, "etcdserver: key is not provided"),
        Refusal::TooManyOps | Refusal::TooDeep => fixed(
            400,
            3,
            "etcdserver: too many operations in txn request",
        ),
        Refusal::DuplicateKey => fixed(400, 3, "etcdserver: duplicate key given in txn request"),
        Refusal::ValueGiven => fixed(400, 3, "etcdserver: value is provided"),
        Refusal::LeaseGiven => fixed(400, 3, "etcdserver: lease is provided"),
        Refusal::KeyMissing => fixed(400, 3, "etcdserver: key not found"),
        Refusal::LeaseMissing => fixed(404, 5, "etcdserver: requested lease not found"),
        Refusal::LeaseExists => fixed(400, 9, "etcdserver: lease already exists"),
        Refusal::TtlTooLarge => fixed(400, 11, "etcdserver: too large lease TTL"),
        Refusal::TooManyLeases => fixed(400, 8, "etcdserver: too many leases"),
        Refusal::TooManyWatches => fixed(400, 8, "etcdserver: too many watches"),
        Refusal::NoWatch => fixed(404, 5, ""),
        Refusal::RevisionsSpent => fixed(400, 11, "etcdserver: revisions are spent"),
        Refusal::NoPlace => fixed(400, 8, ""),
    }
}

/// The body that says this: `{"code":N,"error":TEXT,"message":TEXT}`. The only error is want of
/// memory.
///
/// Two allocations, and time for the bytes of the body.
#[tactic(auto, using(crate::proofs::Objects::written))]
pub fn refusal_text(alloc: Global, wording: &Wording<'_>) -> Result<Vec<u8>, AllocError>
    ensures { IfOk result (λ v. v.items ≡ (refused (wording_view wording.now)).body) }
{
    let text = joined(alloc, wording.text, wording.name)?;
    let mut out = JsonText::with_capacity(alloc, room_of_refusal(text.as_str()))?;
    write_refusal(&mut out, wording.code, text.as_str())?;
    Ok(out.into_bytes())
}

/// Room for the body of a refusal, in which the text stands twice.
fn room_of_refusal(text: &str) -> usize
    ensures most { result ≤ 2 * length text.now + 64 }
    ensures least { (status code : ℕ) → code < 2 ^ 16 → ArePlain text.now
        → Holds result (text_len (fault_text (fault status code text.now))) }
{
    text.len().saturating_mul(2).saturating_add(REFUSAL_FRAME)
}

/// One text after the other.
fn joined(alloc: Global, text: &str, name: &str) -> Result<String, AllocError>
    ensures { IfOk result (λ s. string_bytes s ≡ text.now ++ name.now) }
{
    let mut both = String::with_capacity(alloc, text.len().saturating_add(name.len()))?;
    both.push_str(text)?;
    both.push_str(name)?;
    Ok(both)
}

/// The body of a refusal of any status: the body does not name it.
fn write_refusal(out: &mut JsonText, code: u16, text: &str) -> Result<(), AllocError>
    ensures { (status : ℕ) → OnOk result (out.new
        ≡ out.old ++ data_tokens (fault_text (fault status code text.now))) }
{
    out.begin_object()?;
    out.code_member("code", code)?;
    out.string_member("error", text)?;
    out.string_member("message", text)?;
    out.end_object()
}

/// The body that says that no memory was found, of status 500. Takes no memory.
pub fn memory_text() -> &'static [u8]
    ensures { result.now ≡ (refused (fault_of Memory)).body }
{
    b"{\"code\":13,\"error\":\"etcdserver: out of memory\",\
      \"message\":\"etcdserver: out of memory\"}"
}

/// The body that says that a change stands though its answer is lost, of status 500. Takes no
/// memory.
pub fn lost_text() -> &'static [u8]
    ensures { result.now ≡ (refused lost_fault).body }
{
    b"{\"code\":13,\"error\":\"etcdserver: answer lost, the change stands\",\
      \"message\":\"etcdserver: answer lost, the change stands\"}"
}
