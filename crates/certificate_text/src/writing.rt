//! A text written.
ghost use Rattle.std.specs.Prelude.{◌≡◌, ◌++◌, [], ◌∷◌, false, map, decimal, IfOk, OnOk, string_bytes};
ghost use Rattle.std.specs.Fmt.{signed_decimal};
ghost use Rattle.certificate_text.specs.Texts as texts;
ghost use Rattle.certificate_text.specs.Texts.{text_of, written};
ghost use Rattle.kv_model.specs.declared.version.Body.TheVariants as body;

use base64::engine::general_purpose::STANDARD;
use bytes::Bytes;
use itoa::Buffer;
use kv_model::version::{Body, Rev, Version};
use std::alloc::{AllocError, Global};
use witness_core::{Certificate, Claim, Dump, Need};

/// The text of a dump and of its certificate, in format 2.
pub fn write(alloc: Global, dump: &Dump, certificate: &Certificate) -> Result<Vec<u8>, AllocError>
    ensures { IfOk result (λ text. text.items ≡ text_of dump.now certificate.now) }
{
    let mut out = String::new(alloc);
    write_dump(&mut out, dump)?;
    write_needs(&mut out, certificate)?;
    Ok(out.into_bytes())
}

fn write_dump(out: &mut String, dump: &Dump) -> Result<(), AllocError>
    ensures { OnOk result (string_bytes out.new
        ≡ string_bytes out.old ++ written (texts.dump_lines false dump.now)) }
{
    out.push_str("dump 2\n")?;
    write_number(out, "floor", dump.floor)?;
    write_number(out, "revision", dump.revision)?;
    write_list(out, &dump.versions)
}

/// A line of a word and a number.
fn write_number(out: &mut String, word: &str, number: u64) -> Result<(), AllocError>
    ensures { OnOk result (string_bytes out.new
        ≡ string_bytes out.old ++ texts.number_line word.now number ++ 10 ∷ []) }
{
    out.push_str(word)?;
    push_number(out, number)?;
    out.push_str("\n")
}

/// The lines of versions, and their end.
fn write_list(out: &mut String, versions: &[Version]) -> Result<(), AllocError>
    ensures { OnOk result (string_bytes out.new
        ≡ string_bytes out.old ++ written (texts.ended (map texts.version_line versions.now))) }
{
    write_versions(out, versions)?;
    out.push_str("end\n")
}

fn write_needs(out: &mut String, certificate: &Certificate) -> Result<(), AllocError>
    ensures { OnOk result (string_bytes out.new
        ≡ string_bytes out.old ++ written (texts.needs_lines false certificate.now)) }
{
    out.push_str("needs 2\n")?;
    write_claims(out, &certificate.claims)?;
    out.push_str("end\n")
}

fn write_versions(out: &mut String, versions: &[Version]) -> Result<(), AllocError>
    ensures { OnOk result (string_bytes out.new
        ≡ string_bytes out.old ++ written (map texts.version_line versions.now)) }
{
    for version in versions {
        write_version(out, version)?;
    }
    Ok(())
}

fn write_claims(out: &mut String, claims: &[Claim]) -> Result<(), AllocError>
    ensures { OnOk result (string_bytes out.new
        ≡ string_bytes out.old ++ written (map texts.claim_line claims.now)) }
{
    for claim in claims {
        write_claim(out, claim)?;
    }
    Ok(())
}

fn write_version(out: &mut String, version: &Version) -> Result<(), AllocError>
    ensures { OnOk result (string_bytes out.new
        ≡ string_bytes out.old ++ texts.version_line version.now ++ 10 ∷ []) }
{
    match &version.body {
        Body::Put {
            create,
            version: number,
            lease,
            value,
        } => write_put(
            out,
            version.rev,
            &version.key,
            *create,
            *number,
            lease,
            value,
        ),
        Body::Gone => {
            push_named(out, "gone", version.rev, &version.key)?;
            out.push_str("\n")
        }
    }
}

/// The line of a put.
fn write_put(
    out: &mut String,
    rev: Rev,
    key: &Bytes,
    create: u64,
    version: u64,
    lease: &i64,
    value: &Bytes,
) -> Result<(), AllocError>
    ensures { OnOk result (string_bytes out.new ≡ string_bytes out.old
        ++ texts.line_of (texts.body_fields rev key.now
        (body.Put create version lease.now value.now)) ++ 10 ∷ []) }
{
    push_named(out, "put", rev, key)?;
    end_put(out, create, version, lease, value)
}

/// What a put has behind its key, and the end of its line.
fn end_put(
    out: &mut String,
    create: u64,
    version: u64,
    lease: &i64,
    value: &Bytes,
) -> Result<(), AllocError>
    ensures { OnOk result (string_bytes out.new
        ≡ string_bytes out.old ++ 32 ∷ decimal create ++ 32 ∷ decimal version
        ++ 32 ∷ signed_decimal lease.now ++ 32 ∷ texts.bytes_field value.now ++ 10 ∷ []) }
{
    push_put(out, create, version, lease, value)?;
    out.push_str("\n")
}

/// What a put has behind its key.
fn push_put(
    out: &mut String,
    create: u64,
    version: u64,
    lease: &i64,
    value: &Bytes,
) -> Result<(), AllocError>
    ensures { OnOk result (string_bytes out.new
        ≡ string_bytes out.old ++ 32 ∷ decimal create ++ 32 ∷ decimal version
        ++ 32 ∷ signed_decimal lease.now ++ 32 ∷ texts.bytes_field value.now) }
{
    push_number(out, create)?;
    push_number(out, version)?;
    push_signed(out, lease)?;
    push_bytes(out, value)
}

/// A word, where a version stands, and its key.
fn push_named(out: &mut String, word: &str, rev: Rev, key: &Bytes) -> Result<(), AllocError>
    ensures { OnOk result (string_bytes out.new ≡ string_bytes out.old ++ word.now
        ++ 32 ∷ decimal rev.main ++ 32 ∷ decimal rev.sub ++ 32 ∷ texts.bytes_field key.now) }
{
    push_rev(out, word, rev)?;
    push_bytes(out, key)
}

/// A word, and where a version stands.
fn push_rev(out: &mut String, word: &str, rev: Rev) -> Result<(), AllocError>
    ensures { OnOk result (string_bytes out.new
        ≡ string_bytes out.old ++ word.now ++ 32 ∷ decimal rev.main ++ 32 ∷ decimal rev.sub) }
{
    out.push_str(word)?;
    push_number(out, rev.main)?;
    push_number(out, rev.sub)
}

fn write_claim(out: &mut String, claim: &Claim) -> Result<(), AllocError>
    ensures { OnOk result (string_bytes out.new
        ≡ string_bytes out.old ++ texts.claim_line claim.now ++ 10 ∷ []) }
{
    match claim.need {
        Need::Range(revision) => {
            push_rev(out, "range", claim.rev)?;
            push_number(out, revision)?;
        }
        Need::Watch(revision) => {
            push_rev(out, "watch", claim.rev)?;
            push_number(out, revision)?;
        }
        Need::Prev(revision) => {
            push_rev(out, "prev", claim.rev)?;
            push_number(out, revision)?;
        }
    }
    out.push_str("\n")
}

/// A space and a number.
fn push_number(out: &mut String, number: u64) -> Result<(), AllocError>
    ensures { OnOk result (string_bytes out.new ≡ string_bytes out.old ++ 32 ∷ decimal number) }
{
    out.push_str(" ")?;
    let mut digits = Buffer::new();
    out.push_str(digits.format(number))
}

/// A space and a number, with a sign where it is below zero.
fn push_signed(out: &mut String, number: &i64) -> Result<(), AllocError>
    ensures { OnOk result (string_bytes out.new
        ≡ string_bytes out.old ++ 32 ∷ signed_decimal number.now) }
{
    out.push_str(" ")?;
    let mut digits = Buffer::new();
    out.push_str(digits.format(*number))
}

/// A space, a colon and the base64 of bytes.
#[tactic(auto, unfolding(crate::specs::Texts::base64_text))]
fn push_bytes(out: &mut String, bytes: &Bytes) -> Result<(), AllocError>
    ensures { OnOk result (string_bytes out.new
        ≡ string_bytes out.old ++ 32 ∷ texts.bytes_field bytes.now) }
{
    out.push_str(" :")?;
    STANDARD.encode_string(bytes.as_slice(), out)
}
