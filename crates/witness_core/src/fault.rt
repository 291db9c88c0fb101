//! What is wrong with a certificate.
ghost use Rattle.std.specs.Prelude.{◌≡◌};
ghost use Rattle.witness_core.specs.Faults.{number_of};

use kv_model::version::Rev;
use thiserror::Error;

/// The first fault of a dump and its certificate, in this order: first those of the list by itself,
/// then version by version against the next claim, and last what is left over. The display is the
/// text of the fault.
#[derive(Clone, Copy, Debug, PartialEq, Eq, Error)]
pub enum NeedFault {
    /// The version at this revision does not stand above the one before it.
    #[error("not rising {}.{}", .0.main, .0.sub)]
    NotRising(Rev),
    /// The key of the version at this revision, the first one such, has another version of the same
    /// main revision.
    #[error("double key {}.{}", .0.main, .0.sub)]
    DoubleKey(Rev),
    /// The next claim is not one for the version at this revision, or no claim is left.
    #[error("no need {}.{}", .0.main, .0.sub)]
    NoNeed(Rev),
    /// The version at this revision does not answer the question that its claim names, or the
    /// question may not be asked.
    #[error("need unmet {}.{}", .0.main, .0.sub)]
    NeedUnmet(Rev),
    /// Claims are left behind the last version's.
    #[error("extra")]
    Extra,
    /// The test for keys that stand twice found no memory.
    #[error("out of memory")]
    Memory,
}

impl NeedFault {
    /// The fault's number, by which tests name it. Takes no memory.
    pub fn number(self) -> u8
        ensures { result ≡ number_of self }
    {
        match self {
            NeedFault::NotRising(_) => 1,
            NeedFault::DoubleKey(_) => 2,
            NeedFault::NoNeed(_) => 3,
            NeedFault::NeedUnmet(_) => 4,
            NeedFault::Extra => 5,
            NeedFault::Memory => 6,
        }
    }
}
