//! Bytes in base64 (RFC 4648).
ghost use Rattle.std.specs.Prelude.{◌≡◌, if◌then◌else◌, false, length, take, map, IfOk, MatchResult, OnOk};
ghost use Rattle.std.specs.List.{list_any};
ghost use Rattle.base64.specs.Engines.{standard, standard_no_pad};
ghost use Rattle.base64.specs.GeneralPurpose.{decoded_of};
ghost use Rattle.kv_model.specs.Requests as requests;
ghost use Rattle.gateway_read.specs.Decoding.{IsDecoded, appended};
ghost use Rattle.gateway_read.specs.Signs.{is_url, is_padding};

use base64::DecodeAllocError;
use base64::engine::general_purpose::{GeneralPurpose, STANDARD, STANDARD_NO_PAD};
use memchr::{memchr2, memrchr};
use std::alloc::{AllocError, Global};

/// The URL alphabet's symbol in the standard alphabet (RFC 4648, sections 4 and 5).
fn standard_symbol(symbol: u8) -> u8
    ensures { result ≡ requests.standard_symbol symbol }
{
    match symbol {
        b'-' => b'+',
        b'_' => b'/',
        other => other,
    }
}

fn standard_symbols(alloc: Global, text: &str) -> Result<Vec<u8>, AllocError>
    ensures { IfOk result (λ symbols. symbols.items ≡ map requests.standard_symbol text.now) }
{
    text.bytes().map(standard_symbol).collect(alloc)
}

/// Appends what symbols stand for to other bytes, and tells whether they stand for any: else nothing is
/// appended.
#[tactic(auto, unfolding(base64::specs::GeneralPurpose::decoded_of))]
fn append_by(
    engine: &GeneralPurpose,
    symbols: &[u8],
    into: &mut Vec<u8>,
) -> Result<bool, AllocError>
    ensures value { IfOk result (λ done. decoded_of engine.now symbols.now
        ≡ appended done (length into.old.items) into.new.items) }
    ensures front { OnOk result (take (length into.old.items) into.new.items ≡ into.old.items) }
    ensures same { MatchResult result (λ done. done ≡ false → into.new.items ≡ into.old.items)
        (λ _. into.new.items ≡ into.old.items) }
{
    by_form(engine.decode_vec(symbols, into))
}

/// What decoding came to: false where the symbols are no base64, and want of memory where the decoder
/// says so. Takes no memory.
fn by_form(made: Result<(), DecodeAllocError>) -> Result<bool, AllocError>
    ensures { IsDecoded made result }
{
    match made {
        Ok(()) => Ok(true),
        Err(DecodeAllocError::DecodeError(_)) => Ok(false),
        Err(DecodeAllocError::OutOfMemory) => Err(AllocError),
    }
}

/// Appends the bytes that symbols of the standard alphabet stand for, which have their exact padding
/// or none.
fn append_with(symbols: &[u8], padding: bool, into: &mut Vec<u8>) -> Result<bool, AllocError>
    ensures value { IfOk result (λ done.
        decoded_of (if padding then standard else standard_no_pad) symbols.now
        ≡ appended done (length into.old.items) into.new.items) }
    ensures front { OnOk result (take (length into.old.items) into.new.items ≡ into.old.items) }
    ensures same { MatchResult result (λ done. done ≡ false → into.new.items ≡ into.old.items)
        (λ _. into.new.items ≡ into.old.items) }
{
    if padding {
        append_by(&STANDARD, symbols, into)
    } else {
        append_by(&STANDARD_NO_PAD, symbols, into)
    }
}

/// What a text in base64 has beside letters and digits.
#[derive(Clone, Copy)]
struct Signs {
    /// A symbol that only the URL alphabet has.
    url: bool,
    padding: bool,
}

fn signs_of(text: &[u8]) -> Signs
    ensures url { result.url ≡ list_any is_url text.now }
    ensures padding { result.padding ≡ list_any is_padding text.now }
{
    let url = memchr2(b'-', b'_', text);
    let padding = memrchr(b'=', text);
    Signs {
        url: url.is_some(),
        padding: padding.is_some(),
    }
}

/// Appends the bytes that a text of either alphabet stands for to others, and tells whether it stands
/// for any: else nothing is appended. A text with `=` has its exact padding, and one with none has no
/// padding. No text stands for bytes where the bits left over are not zero. The cost is linear in the
/// text, which is copied only where it has symbols of the URL alphabet.
pub(crate) fn append_decoded(
    alloc: Global,
    text: &str,
    into: &mut Vec<u8>,
) -> Result<bool, AllocError>
    ensures value { IfOk result (λ done. requests.decoded text.now
        ≡ appended done (length into.old.items) into.new.items) }
    ensures front { OnOk result (take (length into.old.items) into.new.items ≡ into.old.items) }
    ensures same { MatchResult result (λ done. done ≡ false → into.new.items ≡ into.old.items)
        (λ _. into.new.items ≡ into.old.items) }
{
    let signs = signs_of(text.as_bytes());
    if signs.url {
        append_with(&standard_symbols(alloc, text)?, signs.padding, into)
    } else {
        append_with(text.as_bytes(), signs.padding, into)
    }
}
