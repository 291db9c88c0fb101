//! `check`: what the text of a certificate is worth.
ghost use Rattle.std.specs.Prelude.{◌≡◌, ◌++◌, ◌∷◌, [], false, true, codes, IfOk, IfErr, IfSome};
ghost use Rattle.std.specs.Io.KnownBytes.{Appends};
ghost use Rattle.commands.specs.Faults.{is_of_streams, is_write};
ghost use Rattle.commands.specs.Judging as spec;
ghost use Rattle.commands.specs.Judging.{IsVerdict, verdict_line};
ghost use Rattle.commands.specs.Writes.{AppendsFront, Writes};

use crate::counted::Counted;
use crate::fault::Fault;
use crate::input::read_input;
use crate::pieces::{write_bytes, write_number, write_rev};
use certificate_text::Unreadable;
use std::alloc::Global;
use std::io;
use std::io::{Read, Write};
use witness_core::{Least, NeedFault};

/// What the text of a certificate was found to be worth.
#[derive(Clone, Copy, Debug, PartialEq, Eq)]
pub enum Verdict {
    /// It passes: so many versions are listed, and no list of fewer answers as they do.
    Least(u64),
    /// It is refused, for this fault.
    Refused(NeedFault),
    /// The line of this number, counted from 1, cannot be read.
    Unreadable(u64),
}

/// Judges the text of a certificate: reads all of it, and writes one line, `least` and the number
/// of versions, `refused:` and the first fault, or `unreadable: line` and the number of the first
/// line that is not of its form.
///
/// **What is written is what the definitions say of the text**, where it is known what the reader
/// gives and the writer holds. The time is linear in the text but for the test for keys that stand
/// twice, which looks each key up. Memory: the text, what is read of it, and that test's table.
///
/// Fails with `Fault::Read` where a read fails, `Fault::Endless` where the text has not ended after
/// 2^30 reads, and `Fault::Memory` where memory is wanting; then nothing is written. Fails with
/// `Fault::Write` where a write fails or takes nothing; then a front of the line was written, and
/// nothing more is.
pub fn check<R: Read, W: Write>(alloc: Global, r: &mut R, w: &mut W) -> Result<Verdict, Fault>
    ensures verdict { IfOk result (λ verdict.
        IfSome (R.remaining r.old) (λ text. IsVerdict text verdict)) }
    ensures written { IfOk result (λ verdict.
        Appends (W.contents w.old) (W.contents w.new) (verdict_line verdict)) }
    ensures unwritten { IfErr result (λ fault. is_write fault ≡ false → w.new ≡ w.old) }
    ensures cut { IfErr result (λ fault. is_write fault ≡ true
        → IfSome (R.remaining r.old) (λ text. (verdict : Verdict) × IsVerdict text verdict
        × AppendsFront (W.contents w.old) (W.contents w.new) (verdict_line verdict))) }
    ensures fault { IfErr result (λ fault. is_of_streams fault ≡ true) }
{
    let mut reader = Counted::new(r);
    let text = read_input(alloc, &mut reader)?;
    let verdict = judge(alloc, text.as_slice())?;
    match write_out(w, verdict) {
        Ok(()) => Ok(verdict),
        Err(error) => Err(Fault::Write(error)),
    }
}

/// What a text is worth. Fails for want of memory.
fn judge(alloc: Global, text: &[u8]) -> Result<Verdict, Fault>
    ensures verdict { IfOk result (IsVerdict text.now) }
    ensures fault { IfErr result (λ fault. fault ≡ Fault.Memory) }
{
    match certificate_text::read(alloc, text) {
        Ok((dump, certificate)) => match witness_core::check(alloc, &dump, &certificate) {
            Ok(Least { count }) => Ok(Verdict::Least(count)),
            Err(NeedFault::Memory) => Err(Fault::Memory),
            Err(fault) => Ok(Verdict::Refused(fault)),
        },
        Err(Unreadable::Line(line)) => Ok(Verdict::Unreadable(line)),
        Err(Unreadable::Memory) => Err(Fault::Memory),
    }
}

/// Writes the line of a verdict, and hands it on.
fn write_out<W: Write>(w: &mut W, verdict: Verdict) -> io::Result<()>
    ensures { Writes result (W.contents w.old) (W.contents w.new) (verdict_line verdict) }
{
    write_verdict(w, verdict)?;
    w.flush()
}

fn write_verdict<W: Write>(w: &mut W, verdict: Verdict) -> io::Result<()>
    ensures { Writes result (W.contents w.old) (W.contents w.new) (verdict_line verdict) }
{
    match verdict {
        Verdict::Least(count) => write_number(w, b"least ", count),
        Verdict::Refused(fault) => write_refused(w, fault),
        Verdict::Unreadable(line) => write_number(w, b"unreadable: line ", line),
    }
}

fn write_refused<W: Write>(w: &mut W, fault: NeedFault) -> io::Result<()>
    ensures { Writes result (W.contents w.old) (W.contents w.new)
        (codes "refused: " ++ spec.fault_text fault ++ 10 ∷ []) }
{
    match fault {
        NeedFault::NotRising(rev) => write_rev(w, b"refused: not rising ", rev),
        NeedFault::DoubleKey(rev) => write_rev(w, b"refused: double key ", rev),
        NeedFault::NoNeed(rev) => write_rev(w, b"refused: no need ", rev),
        NeedFault::NeedUnmet(rev) => write_rev(w, b"refused: need unmet ", rev),
        NeedFault::Extra => write_bytes(w, b"refused: extra\n"),
        NeedFault::Memory => write_bytes(w, b"refused: out of memory\n"),
    }
}
