//! Where reading a text stops.
ghost use Rattle.std.specs.Prelude.{◌≡◌};

use std::alloc::{AllocError, AllocFailed};

/// Why reading stops before the end.
#[derive(Clone, Copy)]
pub(crate) enum Stop<'a> {
    /// The first of these lines is unreadable; where there is none, it is missing.
    At(&'a [u8]),
    /// Memory is wanting.
    Memory,
}

impl<'a> From<AllocError> for Stop<'a> {
    ghost use Rattle.certificate_text.specs.declared.stop.Stop.TheVariants.{Memory};

    ghost from_gives = { λ _ e. e ≡ Memory };

    fn from(_refused: AllocError) -> Self {
        Self::Memory
    }
}

impl<'a, T: Drop> From<AllocFailed<T>> for Stop<'a> {
    ghost use Rattle.certificate_text.specs.declared.stop.Stop.TheVariants.{Memory};

    ghost from_gives = { λ _ e. e ≡ Memory };

    fn from(_refused: AllocFailed<T>) -> Self {
        Self::Memory
    }
}
