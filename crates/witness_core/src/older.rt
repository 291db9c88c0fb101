//! Certificates that somebody kept: what passes its check and needs no previous value says as much by
//! the test of previous values as it was when such certificates were written.
ghost use Rattle.std.specs.Prelude.{◌≡◌, None};
ghost use Rattle.kv_model.specs.Certificates.{first_fault};
ghost use Rattle.witness_core.specs.Older.{AreNeedsByEither, HasNoPrevious};

use crate::certificate::Certificate;
use crate::dump::Dump;
use crate::nexts::are_places;

/// Of a certificate that passes its check and claims no need of a previous value, each need is one
/// among the dump's versions, whether the previous value of an event at the floor counts as
/// compacted, as it did while the text's format was 1, or is told, as it is now. Does nothing.
pub fn needs_are_needs_by_either_test(dump: &Dump, certificate: &Certificate)
    ensures { first_fault dump.now certificate.now ≡ None → HasNoPrevious certificate.now
        → AreNeedsByEither dump.now certificate.now }
{
    let _ = certificate;
    are_places(&dump.versions);
}
