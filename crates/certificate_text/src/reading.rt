//! A text read, line after line.
ghost use Rattle.std.specs.Prelude.{◌≡◌, ◌+◌, ◌-◌, ◌<◌, ◌≤◌, ⊤, ℕ, List, [], ◌∷◌, length, codes};
ghost use Rattle.std.specs.Prelude.{Err};
ghost use Rattle.std.specs.Prelude.{MatchOption, IfOk, IfErr};
ghost use Rattle.kv_model.specs.Certificates.{Dump as SeenDump, Claim as SeenClaim};
ghost use Rattle.certificate_text.specs.Lines.{lines_of, IsTextOf};
ghost use Rattle.certificate_text.specs.Outcomes.{IsEarly, IsToldAs, IsUnreadable, Reads, ReadsAll, ReadsBack};
ghost use Rattle.certificate_text.specs.Outcomes.{ReadsPlainly, stopped};
ghost use Rattle.certificate_text.specs.Reading as reading;
ghost use Rattle.certificate_text.specs.declared.reading.Unreadable.TheVariants.{Line};
ghost use Rattle.certificate_text.specs.Texts as texts;
ghost use Rattle.certificate_text.specs.Texts.{AreInLimits};
ghost use Rattle.certificate_text.specs.Walking as walking;

use crate::fields::{Unfit, cut};
use crate::line::{claim_in, numbered, version_of};
use crate::stop::Stop;
use kv_model::version::Version;
use std::alloc::Global;
use thiserror::Error;
use witness_core::{Certificate, Claim, Dump};

/// Why a text is not read.
#[derive(Clone, Copy, Debug, PartialEq, Eq, Error)]
pub enum Unreadable {
    /// The line with this number, counted from 1, is the first that is not of its form, or that
    /// stands behind the last `end`; where the lines end too soon, it is the one after the last.
    #[error("unreadable: line {0}")]
    Line(u64),
    /// Memory is wanting.
    #[error("out of memory")]
    Memory,
}

/// What a text is the text of, in format 1 or 2. Both parts of a text are of the same format, and
/// format 1 has no needs of previous values. Of what is read nothing need agree: versions need not
/// rise, claims need not name them, and the floor may be above the revision.
///
/// The time is linear in the text. Memory: what is read, of which each key and value is a copy of
/// its own.
///
/// Fails with `Unreadable::Line` where the text is that of no dump in either format, and with
/// `Unreadable::Memory` where memory is wanting, which is never so where one of the first three
/// lines is not of its form.
pub fn read(alloc: Global, text: &[u8]) -> Result<(Dump, Certificate), Unreadable>
    ensures ok { IfOk result (λ r. IsTextOf text.now r.0 r.1 × AreInLimits r.0 r.1) }
    ensures unreadable { IfErr result (λ e. IsUnreadable text.now e) }
    ensures whole { (d : SeenDump) (claims : List SeenClaim) → AreInLimits d claims
        → IsTextOf text.now d claims → ReadsBack result d claims }
    ensures early { (rest : List (List ℕ)) → walking.head_read (lines_of text.now) ≡ Err rest
        → result ≡ Err (Line (length (lines_of text.now) - length rest + 1)) }
{
    told(text, text_read(alloc, text))
}

/// What reading a text came to, with the number of the line at which it stopped. Takes no memory.
fn told(
    text: &[u8],
    made: Result<(Dump, Certificate), Stop<'_>>,
) -> Result<(Dump, Certificate), Unreadable>
    ensures { IsToldAs text.now made.entry result }
{
    match made {
        Ok(found) => Ok(found),
        Err(Stop::At(rest)) => Err(Unreadable::Line(number_of_line(text, rest))),
        Err(Stop::Memory) => Err(Unreadable::Memory),
    }
}

/// The number, counted from 1, of the first line of the rest of a text.
fn number_of_line(text: &[u8], rest: &[u8]) -> u64
    ensures { result ≡ length (lines_of text.now) - length (lines_of rest.now) + 1 }
{
    let before = count_lines(text).saturating_sub(count_lines(rest));
    before as u64 + 1
}

fn count_lines(text: &[u8]) -> usize
    ensures count { result ≡ length (lines_of text.now) }
    ensures bound { result ≤ length text.now }
{
    let mut rest = text;
    let mut count = 0;
    while let Some((_, later)) = first_line(rest) {
        rest = later;
        count += 1;
    }
    count
}

/// Reads a text in the format of its first line.
fn text_read(alloc: Global, text: &[u8]) -> Result<(Dump, Certificate), Stop<'_>>
    ensures gives { ReadsAll (λ x. x) result (walking.text_read (lines_of text.now)) }
    ensures early { IsEarly (walking.head_read (lines_of text.now)) result }
{
    read_in(alloc, begins_first(text), text)
}

/// Whether the first line is that of the first format.
fn begins_first(text: &[u8]) -> bool
    ensures { result ≡ walking.begins_first (lines_of text.now) }
{
    match first_line(text) {
        Some((line, _)) => line == dump_head(true),
        None => false,
    }
}

/// Reads a text in a format.
#[tactic(auto, unfolding(crate::specs::Walking::read_in))]
fn read_in(alloc: Global, is_first: bool, text: &[u8]) -> Result<(Dump, Certificate), Stop<'_>>
    ensures gives { ReadsAll (λ x. x) result (walking.read_in is_first (lines_of text.now)) }
    ensures early { IsEarly (walking.head_of is_first (lines_of text.now)) result }
{
    let (dump, rest) = dump_of(alloc, is_first, text)?;
    let (certificate, rest) = needs_of(alloc, is_first, rest)?;
    match first_line(rest) {
        Some(_) => Err(Stop::At(rest)),
        None => Ok((dump, certificate)),
    }
}

#[tactic(auto, unfolding(crate::specs::Walking::dump_of, crate::specs::Walking::head_of))]
fn dump_of(alloc: Global, is_first: bool, text: &[u8]) -> Result<(Dump, &[u8]), Stop<'_>>
    ensures gives { Reads (λ x. x) result (walking.dump_of is_first (lines_of text.now)) }
    ensures early { IsEarly (walking.head_of is_first (lines_of text.now)) result }
{
    let ((), rest) = expect(dump_head(is_first), text)?;
    let (floor, rest) = number_line(b"floor", rest)?;
    let (revision, rest) = number_line(b"revision", rest)?;
    let (versions, rest) = versions_up_to_end(alloc, rest)?;
    let dump = Dump {
        floor,
        revision,
        versions,
    };
    Ok((dump, rest))
}

#[tactic(auto, unfolding(crate::specs::Walking::needs_of))]
fn needs_of(alloc: Global, is_first: bool, text: &[u8]) -> Result<(Certificate, &[u8]), Stop<'_>>
    ensures { Reads (λ x. x) result (walking.needs_of is_first (lines_of text.now)) }
{
    let ((), rest) = expect(needs_head(is_first), text)?;
    let (claims, rest) = claims_up_to_end(alloc, is_first, rest)?;
    Ok((Certificate { claims }, rest))
}

/// The first line of a dump in a format.
fn dump_head(is_first: bool) -> &'static [u8]
    ensures { result.now ≡ texts.dump_head is_first }
{
    if is_first { b"dump 1" } else { b"dump 2" }
}

/// The first line of needs in a format.
fn needs_head(is_first: bool) -> &'static [u8]
    ensures { result.now ≡ texts.needs_head is_first }
{
    if is_first { b"needs 1" } else { b"needs 2" }
}

/// Passes over this very line. Takes no memory.
fn expect<'a>(known: &[u8], text: &'a [u8]) -> Result<((), &'a [u8]), Stop<'a>>
    ensures { ReadsPlainly (λ x. x) result
        (walking.line_by (walking.exactly known.now) (lines_of text.now)) }
{
    let Some((line, rest)) = first_line(text) else {
        return Err(Stop::At(text));
    };
    if line == known {
        Ok(((), rest))
    } else {
        Err(Stop::At(text))
    }
}

/// A line of a word and a number. Takes no memory.
fn number_line<'a>(word: &[u8], text: &'a [u8]) -> Result<(u64, &'a [u8]), Stop<'a>>
    ensures { ReadsPlainly (λ x. x) result
        (walking.line_by (reading.numbered word.now) (lines_of text.now)) }
{
    let Some((line, rest)) = first_line(text) else {
        return Err(Stop::At(text));
    };
    match numbered(word, line) {
        Ok(number) => Ok((number, rest)),
        Err(unfit) => Err(stop_at(text, unfit)),
    }
}

fn versions_up_to_end(alloc: Global, text: &[u8]) -> Result<(Vec<Version>, &[u8]), Stop<'_>>
    ensures { Reads (λ versions. versions.items) result
        (walking.up_to_end reading.version_of (lines_of text.now)) }
{
    let mut versions = Vec::new(alloc);
    let mut rest = text;
    while let Some((line, later)) = first_line(rest) {
        if is_end(line) {
            return Ok((versions, later));
        }
        match version_of(alloc, line) {
            Ok(version) => versions.push(version)?,
            Err(unfit) => return Err(stop_at(rest, unfit)),
        }
        rest = later;
    }
    Err(Stop::At(rest))
}

fn claims_up_to_end(
    alloc: Global,
    is_first: bool,
    text: &[u8],
) -> Result<(Vec<Claim>, &[u8]), Stop<'_>>
    ensures { Reads (λ claims. claims.items) result
        (walking.up_to_end (reading.claim_in is_first) (lines_of text.now)) }
{
    let mut claims = Vec::new(alloc);
    let mut rest = text;
    while let Some((line, later)) = first_line(rest) {
        if is_end(line) {
            return Ok((claims, later));
        }
        match claim_in(is_first, line) {
            Ok(claim) => claims.push(claim)?,
            Err(unfit) => return Err(stop_at(rest, unfit)),
        }
        rest = later;
    }
    Err(Stop::At(rest))
}

fn is_end(line: &[u8]) -> bool
    ensures { result ≡ reading.same_text line.now (codes "end") }
{
    line == b"end".as_slice()
}

/// How reading stops at the first line of a text, if that gave nothing.
fn stop_at(text: &[u8], unfit: Unfit) -> Stop<'_>
    ensures { result ≡ stopped text.entry unfit }
{
    match unfit {
        Unfit::Form => Stop::At(text),
        Unfit::Memory => Stop::Memory,
    }
}

/// The first line of a text, and what follows it.
fn first_line(text: &[u8]) -> Option<(&[u8], &[u8])>
    ensures lines { MatchOption result (lines_of text.now ≡ [])
        (λ p. lines_of text.now ≡ p.0.now ∷ lines_of p.1.now) }
    ensures shorter { MatchOption result ⊤ (λ p. length p.1.now < length text.now) }
{
    if text.is_empty() {
        return None;
    }
    let (line, rest) = cut(text, b'\n');
    match rest {
        Some(rest) => Some((line, rest)),
        None => Some((line, b"")),
    }
}
