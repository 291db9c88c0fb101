//! What is kept, and why: a dump of the versions and its certificate.
ghost use Rattle.std.specs.Prelude.{◌≡◌, IfOk};

use super::Core;
use std::alloc::AllocError;
use witness_core::{Certificate, Dump, make};

impl Core {
    ghost use Rattle.kv_model.specs.Certificates.{claims_of};
    ghost use Rattle.request_core.specs.State.{dump_kept};

    /// What is kept: a copy of its versions, the oldest first, with the present revision and that
    /// of the last compaction. Takes time and memory linear in the number of versions; what a
    /// version holds is shared and not copied. `AllocError` comes where the list found no memory.
    pub fn dump(&self) -> Result<Dump, AllocError>
        ensures { IfOk result (λ dump. dump ≡ dump_kept self.now.store) }
    {
        Dump::of(self.alloc, &self.tables.view())
    }

    /// The certificate of what is kept: in order, for each version that has one, a question that no
    /// list without it answers in the same way. Where trimming is done each has one. Takes the time
    /// of `witness_core::make`; `AllocError` comes where its list found no memory.
    pub fn certificate(&self) -> Result<Certificate, AllocError>
        ensures { IfOk result (λ claims. claims ≡ claims_of (dump_kept self.now.store)) }
    {
        make(self.alloc, &self.tables.view())
    }
}
