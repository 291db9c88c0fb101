//! Why a request is not read.
ghost use Rattle.std.specs.Prelude.{◌≡◌};
ghost use Rattle.gateway_read.specs.Reading.{number_of};

use crate::field::Field;
use std::alloc::{AllocError, AllocFailed};
use thiserror::Error;

/// Why a request is refused before it reaches the store. Its display is the text of the refusal.
#[derive(Clone, Copy, Debug, PartialEq, Eq, Error)]
pub enum Bad {
    /// The body is no JSON object: not UTF-8, no JSON text (RFC 8259), nested deeper than 127, or
    /// of another kind.
    #[error("gateway: body is not a JSON object")]
    NotJson,
    /// The field's value is not of its kind, or does not fit it.
    #[error("gateway: bad field {}", .0.snake())]
    BadField(Field),
    /// The field's text is no base64 (RFC 4648, sections 4 and 5).
    #[error("gateway: bad base64 in {}", .0.snake())]
    BadBase64(Field),
    /// No request has this path.
    #[error("gateway: no such path")]
    NoPath,
    /// The body is longer than 1,572,864 bytes.
    #[error("gateway: body too long")]
    TooLong,
    /// A growth found no memory.
    #[error("etcdserver: out of memory")]
    Memory,
}

impl Bad {
    /// The refusal's number, by which tests name it. Takes no memory.
    pub fn number(self) -> u8
        ensures { result ≡ number_of self }
    {
        match self {
            Bad::NotJson => 20,
            Bad::BadField(_) => 21,
            Bad::BadBase64(_) => 22,
            Bad::NoPath => 23,
            Bad::TooLong => 24,
            Bad::Memory => 1,
        }
    }
}

impl From<AllocError> for Bad {
    ghost use Rattle.gateway_read.specs.declared.bad.Bad.TheVariants.{Memory};

    ghost from_gives = { λ _ e. e ≡ Memory };

    fn from(_refused: AllocError) -> Self {
        Self::Memory
    }
}

impl<T: Drop> From<AllocFailed<T>> for Bad {
    ghost use Rattle.gateway_read.specs.declared.bad.Bad.TheVariants.{Memory};

    ghost from_gives = { λ _ e. e ≡ Memory };

    fn from(_refused: AllocFailed<T>) -> Self {
        Self::Memory
    }
}
