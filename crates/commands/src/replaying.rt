//! `replay`: the replies to a script.
ghost use Rattle.std.specs.Prelude.{◌≡◌, List, ℕ, false, true, IfOk, IfErr, OnOk, IfSome};
ghost use Rattle.std.specs.Io.KnownBytes.{Appends};
ghost use Rattle.commands.specs.Lines.{AreLines};
ghost use Rattle.commands.specs.Replies as spec;
ghost use Rattle.commands.specs.Said.{Answers};
ghost use Rattle.commands.specs.Script as script;
ghost use Rattle.commands.specs.Faults.{is_of_streams, is_write};
ghost use Rattle.commands.specs.Writes.{AppendsFront};

use crate::counted::Counted;
use crate::fault::Fault;
use crate::input::read_input;
use crate::replies::write_out;
use crate::said::{Said, said_of};
use crate::script::{Lines, line_events};
use json_gateway::{Ids, WireRun, run_wire};
use std::alloc::{AllocError, Global};
use std::io::{Read, Write};

/// The cluster and the member that answer.
const IDS: Ids = Ids {
    cluster: 1,
    member: 1,
};

/// Answers a script on a fresh store: reads all of it, makes its events one run, and then writes a
/// line for each line of the script, in order: `bad line`; a request's status, a space and its
/// body; `at` and the clock in milliseconds; of a step of expiry `expired`, the lease's ID,
/// `revision` and the revision after it, `nothing`, `revisions are spent` or `out of memory`; what
/// a watch is told, a JSON text, `nothing`, `no watch` or `out of memory`; `closed` or `no watch`;
/// of a trimming step `removed` or `kept` and a version's revision, or `done` and the number of
/// versions kept, with `unchecked` where no memory was found for their certificate; or several
/// lines, the text of what is kept and its certificate. It answers as member 1 of cluster 1.
///
/// **What is written is what the model of the whole history answers to the script**, where it is
/// known what the reader gives and the writer holds. Memory: the script and the bodies of all
/// replies at once. Nothing is written before the last of them is made, and no memory is taken from
/// then on. A reply goes to the writer in a few pieces, so it should have a buffer.
///
/// Fails with `Fault::Read` where a read fails, `Fault::Endless` where the script has not ended
/// after 2^30 reads, and `Fault::Memory` where memory is wanting outside a request; then nothing is
/// written. Fails with `Fault::Write` where a write fails or takes nothing; then a front of the
/// replies was written, and nothing more is.
pub fn replay<R: Read, W: Write>(alloc: Global, r: &mut R, w: &mut W) -> Result<(), Fault>
    ensures ok { OnOk result (IfSome (R.remaining r.old) (λ script. (replies : List ℕ)
        × spec.IsAnswered script replies × Appends (W.contents w.old) (W.contents w.new) replies)) }
    ensures unwritten { IfErr result (λ fault. is_write fault ≡ false → w.new ≡ w.old) }
    ensures cut { IfErr result (λ fault. is_write fault ≡ true
        → IfSome (R.remaining r.old) (λ script. (replies : List ℕ) × spec.IsAnswered script replies
        × AppendsFront (W.contents w.old) (W.contents w.new) replies)) }
    ensures fault { IfErr result (λ fault. is_of_streams fault ≡ true) }
{
    replay_by(alloc, &IDS, r, w)
}

/// As [`replay`], by these ids.
pub fn replay_by<R: Read, W: Write>(
    alloc: Global,
    ids: &Ids,
    r: &mut R,
    w: &mut W,
) -> Result<(), Fault>
    ensures ok { OnOk result (IfSome (R.remaining r.old) (λ script. (replies : List ℕ)
        × spec.IsAnsweredBy ids.now script replies
        × Appends (W.contents w.old) (W.contents w.new) replies)) }
    ensures unwritten { IfErr result (λ fault. is_write fault ≡ false → w.new ≡ w.old) }
    ensures cut { IfErr result (λ fault. is_write fault ≡ true
        → IfSome (R.remaining r.old) (λ script. (replies : List ℕ)
        × spec.IsAnsweredBy ids.now script replies
        × AppendsFront (W.contents w.old) (W.contents w.new) replies)) }
    ensures fault { IfErr result (λ fault. is_of_streams fault ≡ true) }
{
    let mut reader = Counted::new(r);
    let script = read_input(alloc, &mut reader)?;
    match run_of(alloc, ids, script.as_slice()) {
        Ok(run) => write_out(w, &run.lines, &run.said),
        Err(_) => Err(Fault::Memory),
    }
}

/// A script's lines, and what is said to its events.
#[derive(Drop)]
struct Run<'a> {
    lines: Lines<'a>,
    said: Said,
}

/// Runs a script's events on a fresh store. Fails for want of memory outside a request.
fn run_of<'a>(alloc: Global, ids: &Ids, text: &'a [u8]) -> Result<Run<'a>, AllocError>
    ensures lines { IfOk result (λ run. AreLines run.lines (script.line_events text.now)) }
    ensures run { IfOk result (λ run. Answers ids.now text.now run.said) }
{
    let lines = line_events(alloc, text)?;
    let WireRun { outcomes } = run_wire(alloc, lines.events.as_slice(), ids)?;
    let said = said_of(alloc, outcomes)?;
    Ok(Run { lines, said })
}
