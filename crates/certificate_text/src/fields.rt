//! The fields of a line.
ghost use Rattle.std.specs.Prelude.{◌≡◌, ◌<◌, ⊤, ◌∷◌, length, MatchOption};
ghost use Rattle.std.specs.List.{slice_split};
ghost use Rattle.certificate_text.specs.Fields.{parts_left};
ghost use Rattle.certificate_text.specs.Lines.{is};
ghost use Rattle.certificate_text.specs.Outcomes.{Gives, IsDecoded, IsNext, Takes, TakesPlainly, Tells};
ghost use Rattle.certificate_text.specs.Reading as reading;

use crate::numbers::{lease_of, number_of};
use base64::DecodeAllocError;
use base64::engine::general_purpose::STANDARD;
use bytes::Bytes;
use kv_model::version::Rev;
use memchr::memchr;
use std::alloc::{AllocError, AllocFailed, Global};
use std::marker::Model;

/// The greatest revision.
const MOST_REVISION: u64 = (1 << 63) - 1;

/// Why a line gives nothing.
#[derive(Clone, Copy)]
pub(crate) enum Unfit {
    /// It is of no form that stands there.
    Form,
    /// Memory is wanting.
    Memory,
}

impl From<AllocError> for Unfit {
    ghost use Rattle.certificate_text.specs.declared.fields.Unfit.TheVariants.{Memory};

    ghost from_gives = { λ _ e. e ≡ Memory };

    fn from(_refused: AllocError) -> Self {
        Self::Memory
    }
}

impl<T: Drop> From<AllocFailed<T>> for Unfit {
    ghost use Rattle.certificate_text.specs.declared.fields.Unfit.TheVariants.{Memory};

    ghost from_gives = { λ _ e. e ≡ Memory };

    fn from(_refused: AllocFailed<T>) -> Self {
        Self::Memory
    }
}

/// The fields of a line that are left, which one space parts.
#[derive(Drop)]
pub(crate) struct Fields<'a> {
    /// From the next field on; none behind the last.
    rest: Option<&'a [u8]>,
}

impl<'a> Model for Fields<'a> {
    ghost use Rattle.std.specs.Prelude.{List, ℕ};
    ghost use Rattle.certificate_text.specs.Fields.{parts_left};

    ghost Value = { List (List ℕ) };

    ghost view = { λ f. parts_left 32 f.rest };
}

impl<'a> Fields<'a> {
    /// All fields of a line.
    pub(crate) fn new(line: &'a [u8]) -> Self
        ensures { result ≡ reading.fields_of line.now }
    {
        Fields { rest: Some(line) }
    }

    /// The next field.
    pub(crate) fn next(&mut self) -> Result<&'a [u8], Unfit>
        ensures { IsNext result self.old self.new }
    {
        let Some(rest) = self.rest else {
            return Err(Unfit::Form);
        };
        let (field, later) = cut(rest, b' ');
        self.rest = later;
        Ok(field)
    }

    /// The next field, as a revision or a number of versions.
    #[tactic(auto, unfolding(crate::specs::Reading::revision_at))]
    pub(crate) fn revision(&mut self) -> Result<u64, Unfit>
        ensures { TakesPlainly result self.new (reading.revision_at self.old) }
    {
        let field = self.next()?;
        number_of(MOST_REVISION, field).ok_or(Unfit::Form)
    }

    /// The next field, as the number of a change within a revision.
    #[tactic(auto, unfolding(crate::specs::Reading::sub_at))]
    fn sub(&mut self) -> Result<u64, Unfit>
        ensures { TakesPlainly result self.new (reading.sub_at self.old) }
    {
        let field = self.next()?;
        number_of(u64::MAX, field).ok_or(Unfit::Form)
    }

    /// The next two fields, as where a version stands.
    #[tactic(auto, unfolding(crate::specs::Reading::rev_at))]
    pub(crate) fn rev(&mut self) -> Result<Rev, Unfit>
        ensures { TakesPlainly result self.new (reading.rev_at self.old) }
    {
        let main = self.revision()?;
        let sub = self.sub()?;
        Ok(Rev { main, sub })
    }

    /// The next field, as a lease's ID.
    #[tactic(auto, unfolding(crate::specs::Reading::lease_at))]
    pub(crate) fn lease(&mut self) -> Result<i64, Unfit>
        ensures { TakesPlainly result self.new (reading.lease_at self.old) }
    {
        let field = self.next()?;
        lease_of(field).ok_or(Unfit::Form)
    }

    /// The next field, as bytes: a colon, and their base64.
    #[tactic(auto, unfolding(crate::specs::Reading::bytes_at))]
    pub(crate) fn bytes(&mut self, alloc: Global) -> Result<Bytes, Unfit>
        ensures { Takes result self.new (reading.bytes_at self.old) }
    {
        let field = self.next()?;
        match field.split_first() {
            Some((b':', symbols)) => decoded(alloc, symbols),
            _ => Err(Unfit::Form),
        }
    }

    /// Says whether no field is left.
    #[tactic(auto, unfolding(crate::specs::Reading::end_at))]
    pub(crate) fn end(&self) -> Result<(), Unfit>
        ensures { Tells (λ u. u) result (reading.end_at self.now) }
    {
        match self.rest {
            Some(_) => Err(Unfit::Form),
            None => Ok(()),
        }
    }
}

/// The bytes that symbols stand for: of the standard alphabet, with their exact padding, and with
/// bits left over that are zero (RFC 4648, sections 3.5 and 4).
#[tactic(auto, unfolding(base64::specs::GeneralPurpose::decoded_of))]
fn decoded(alloc: Global, symbols: &[u8]) -> Result<Bytes, Unfit>
    ensures { Gives (λ bytes. bytes) result (reading.decoded symbols.now) }
{
    match by_form(STANDARD.decode(alloc, symbols)) {
        Ok(bytes) => Ok(Bytes::from_vec(bytes)?),
        Err(unfit) => Err(unfit),
    }
}

/// What decoding came to: symbols that are no base64 are of no form that stands there, and memory
/// was wanting where the decoder says so. Takes no memory.
fn by_form(made: Result<Vec<u8>, DecodeAllocError>) -> Result<Vec<u8>, Unfit>
    ensures { IsDecoded made result }
{
    match made {
        Ok(bytes) => Ok(bytes),
        Err(DecodeAllocError::DecodeError(_)) => Err(Unfit::Form),
        Err(DecodeAllocError::OutOfMemory) => Err(Unfit::Memory),
    }
}

/// The bytes before the first `at`, and those behind it, if there is one.
pub(crate) fn cut(text: &[u8], at: u8) -> (&[u8], Option<&[u8]>)
    ensures parts { slice_split (is at) text.now ≡ result.0.now ∷ parts_left at result.1 }
    ensures shorter { MatchOption result.1 ⊤ (λ rest. length rest.now < length text.now) }
{
    match memchr(at, text) {
        Some(end) => (&text[..end], Some(&text[end + 1..])),
        None => (text, None),
    }
}
