//! What a core keeps, and the certificate of it.
ghost use Rattle.std.specs.Prelude.{◌≡◌, List, Option, Some, None, IfOk, IfSome, OnOk, OnErr};
ghost use Rattle.kv_model.specs.Certificates.{Claim, claims_of};
ghost use Rattle.kv_model.specs.Wire.{trim_told};
ghost use Rattle.trim_core.specs.Told.{told_of};
ghost use Rattle.json_gateway.specs.Runs.{trimmed_view};
ghost use Rattle.request_core.specs.State.{dump_kept};

use crate::outcome::{Certified, Trimmed};
use range_view::tables::Trim;
use request_core::store::Core;
use std::alloc::{AllocError, Global};
use witness_core::{Certificate, Least, NeedFault, check};

/// What a core keeps, and its certificate.
pub fn certified(core: &Core) -> Result<Certified, AllocError>
    ensures dump { IfOk result (λ shown. shown.dump ≡ dump_kept core.now.store) }
    ensures claims { IfOk result (λ shown. shown.certificate
        ≡ claims_of (dump_kept core.now.store)) }
{
    let dump = core.dump()?;
    let certificate = core.certificate()?;
    Ok(Certified { dump, certificate })
}

/// What a trimming step did; where it is done, with the certificate of what is kept.
pub fn trimmed(alloc: Global, core: &Core, trim: Trim) -> Trimmed
    ensures { (certificate : Option (List Claim))
        × (trimmed_view result ≡ trim_told (told_of trim) certificate)
        × IfSome certificate (λ claims. claims ≡ claims_of (dump_kept core.now.store)) }
{
    match trim {
        Trim::Removed(rev) => Trimmed::Removed(rev),
        Trim::Kept(rev) => Trimmed::Kept(rev),
        Trim::Done(count) => Trimmed::Done {
            count,
            certificate: checked(alloc, core),
        },
    }
}

/// The certificate of what is kept, once it has passed its check. None where no memory was found.
fn checked(alloc: Global, core: &Core) -> Option<Certificate>
    ensures { IfSome result (λ claims. claims ≡ claims_of (dump_kept core.now.store)) }
{
    let shown = certified(core).ok()?;
    let verdict = check(alloc, &shown.dump, &shown.certificate);
    passed(verdict, shown.certificate)
}

/// A certificate, if it has passed its check. Takes no memory.
fn passed(verdict: Result<Least, NeedFault>, certificate: Certificate) -> Option<Certificate>
    ensures shown { OnOk verdict (result ≡ Some certificate) }
    ensures hidden { OnErr verdict (result ≡ None) }
    ensures own { IfSome result (λ claims. claims ≡ certificate) }
{
    match verdict {
        Ok(_) => Some(certificate),
        Err(_) => None,
    }
}
