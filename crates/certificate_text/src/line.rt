//! What a line says.
ghost use Rattle.std.specs.Prelude.{◌≡◌};
ghost use Rattle.certificate_text.specs.Outcomes.{Gives, Tells};
ghost use Rattle.certificate_text.specs.Reading as reading;
ghost use Rattle.kv_model.specs.Certificates.{Need as SeenNeed};

use crate::fields::{Fields, Unfit};
use kv_model::version::{Body, Version};
use std::alloc::Global;
use witness_core::{Claim, Need};

/// The version of a line `put MAIN SUB :KEY CREATE VERSION LEASE :VALUE` or `gone MAIN SUB :KEY`.
#[tactic(auto, unfolding(crate::specs::Reading::version_of))]
pub(crate) fn version_of(alloc: Global, line: &[u8]) -> Result<Version, Unfit>
    ensures { Gives (λ v. v) result (reading.version_of line.now) }
{
    let mut fields = Fields::new(line);
    let word = fields.next()?;
    if word == b"put".as_slice() {
        put_of(alloc, &mut fields)
    } else if word == b"gone".as_slice() {
        gone_of(alloc, &mut fields)
    } else {
        Err(Unfit::Form)
    }
}

#[tactic(auto, unfolding(crate::specs::Reading::put_of))]
fn put_of(alloc: Global, fields: &mut Fields<'_>) -> Result<Version, Unfit>
    ensures { Gives (λ v. v) result (reading.put_of fields.old) }
{
    let rev = fields.rev()?;
    let key = fields.bytes(alloc)?;
    let create = fields.revision()?;
    let version = fields.revision()?;
    let lease = fields.lease()?;
    let value = fields.bytes(alloc)?;
    fields.end()?;
    let body = Body::Put {
        create,
        version,
        lease,
        value,
    };
    Ok(Version { rev, key, body })
}

#[tactic(auto, unfolding(crate::specs::Reading::gone_of))]
fn gone_of(alloc: Global, fields: &mut Fields<'_>) -> Result<Version, Unfit>
    ensures { Gives (λ v. v) result (reading.gone_of fields.old) }
{
    let rev = fields.rev()?;
    let key = fields.bytes(alloc)?;
    fields.end()?;
    let body = Body::Gone;
    Ok(Version { rev, key, body })
}

/// The claim of a line `range MAIN SUB R`, `watch MAIN SUB R` or `prev MAIN SUB R`.
#[tactic(auto, unfolding(crate::specs::Reading::claim_of))]
fn claim_of(line: &[u8]) -> Result<Claim, Unfit>
    ensures { Tells (λ c. c) result (reading.claim_of line.now) }
{
    let mut fields = Fields::new(line);
    let word = fields.next()?;
    if word == b"range".as_slice() {
        range_of(&mut fields)
    } else if word == b"watch".as_slice() {
        watch_of(&mut fields)
    } else if word == b"prev".as_slice() {
        prev_of(&mut fields)
    } else {
        Err(Unfit::Form)
    }
}

#[tactic(auto, unfolding(crate::specs::Reading::claim_by))]
fn range_of(fields: &mut Fields<'_>) -> Result<Claim, Unfit>
    ensures { Tells (λ c. c) result (reading.claim_by SeenNeed.range fields.old) }
{
    let rev = fields.rev()?;
    let revision = fields.revision()?;
    fields.end()?;
    let need = Need::Range(revision);
    Ok(Claim { rev, need })
}

#[tactic(auto, unfolding(crate::specs::Reading::claim_by))]
fn watch_of(fields: &mut Fields<'_>) -> Result<Claim, Unfit>
    ensures { Tells (λ c. c) result (reading.claim_by SeenNeed.watch fields.old) }
{
    let rev = fields.rev()?;
    let revision = fields.revision()?;
    fields.end()?;
    let need = Need::Watch(revision);
    Ok(Claim { rev, need })
}

#[tactic(auto, unfolding(crate::specs::Reading::claim_by))]
fn prev_of(fields: &mut Fields<'_>) -> Result<Claim, Unfit>
    ensures { Tells (λ c. c) result (reading.claim_by SeenNeed.prev fields.old) }
{
    let rev = fields.rev()?;
    let revision = fields.revision()?;
    fields.end()?;
    let need = Need::Prev(revision);
    Ok(Claim { rev, need })
}

/// The claim of a line in a format. The first format has no line `prev MAIN SUB R`.
#[tactic(auto, unfolding(crate::specs::Reading::claim_in))]
pub(crate) fn claim_in(is_first: bool, line: &[u8]) -> Result<Claim, Unfit>
    ensures { Tells (λ c. c) result (reading.claim_in is_first line.now) }
{
    let claim = claim_of(line)?;
    match claim.need {
        Need::Prev(_) if is_first => Err(Unfit::Form),
        _ => Ok(claim),
    }
}

/// The number behind this word, alone on a line.
#[tactic(auto, unfolding(crate::specs::Reading::numbered, crate::specs::Reading::alone))]
pub(crate) fn numbered(word: &[u8], line: &[u8]) -> Result<u64, Unfit>
    ensures { Tells (λ n. n) result (reading.numbered word.now line.now) }
{
    let mut fields = Fields::new(line);
    let first = fields.next()?;
    if first != word {
        return Err(Unfit::Form);
    }
    let number = fields.revision()?;
    fields.end()?;
    Ok(number)
}
