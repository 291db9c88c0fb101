//! The whole of an input.
ghost use Rattle.std.specs.Prelude.{◌≡◌, ◌≢◌, ◌≤◌, ◌++◌, true, nat_lt, max, take};
ghost use Rattle.std.specs.Prelude.{length, IfOk, IfErr, IfSome, MatchResult};
ghost use Rattle.std.specs.IoError.{error_kind};
ghost use Rattle.commands.specs.Script as script;
ghost use Rattle.commands.specs.Faults.{is_endless, is_of_script, is_read};

use crate::counted::Counted;
use crate::fault::Fault;
use std::alloc::Global;
use std::io;
use std::io::{ErrorKind, Read};

/// The most reads that an input may take.
const READS: u64 = 1 << 30;

/// Reads to the end, by at most 2^30 reads of the reader. A read that a signal interrupts counts as
/// one.
pub fn read_input<R: Read>(alloc: Global, r: &mut Counted<R>) -> Result<Vec<u8>, Fault>
    ensures ok { IfOk result (λ script.
        IfSome (R.remaining r.old.reader) (λ text. script.items ≡ text)) }
    ensures err { IfErr result (λ fault. is_read fault ≡ true) }
    ensures endless { IfErr result (λ fault.
        is_endless fault ≡ true → script.most_reads ≤ r.new.reads) }
    ensures most { r.new.reads ≤ max r.old.reads script.most_reads }
{
    let mut script = Vec::new(alloc);
    let mut buffer = [0u8; 65536];
    while r.reads() < READS {
        let read = r.read(&mut buffer);
        let is_more = take_in(read, &buffer, &mut script)?;
        if !is_more {
            return Ok(script);
        }
    }
    Err(Fault::Endless)
}

/// Adds what a read gave to the end of a script, and says whether more may come.
fn take_in(read: io::Result<usize>, buffer: &[u8], script: &mut Vec<u8>) -> Result<bool, Fault>
    requires { IfOk read (λ count. count ≤ length buffer.now) }
    ensures ok { IfOk result (λ is_more. MatchResult read
        (λ count. (script.new.items ≡ script.old.items ++ take count buffer.now)
        × (is_more ≡ nat_lt 0 count))
        (λ error. (error_kind error ≡ ErrorKind.Interrupted)
        × (script.new.items ≡ script.old.items) × (is_more ≡ true))) }
    ensures err { IfErr result (λ fault. MatchResult read (λ _. fault ≡ Fault.Memory)
        (λ error. (error_kind error ≢ ErrorKind.Interrupted) × (fault ≡ Fault.Read error))) }
{
    match read {
        Ok(count) => {
            if script.extend_from_slice(&buffer[..count]).is_err() {
                return Err(Fault::Memory);
            }
            Ok(count > 0)
        }
        Err(error) => {
            if error.kind() == ErrorKind::Interrupted {
                Ok(true)
            } else {
                Err(Fault::Read(error))
            }
        }
    }
}

/// Reads the script that a server goes on from to its end.
///
/// Fails with `Fault::Script` where a read fails, with `Fault::Endless` where it has not ended after
/// 2^30 reads, and with `Fault::Memory` where memory is wanting.
pub fn read_script<R: Read>(alloc: Global, r: &mut R) -> Result<Vec<u8>, Fault>
    ensures ok { IfOk result (λ script.
        IfSome (R.remaining r.old) (λ text. script.items ≡ text)) }
    ensures fault { IfErr result (λ fault. is_of_script fault ≡ true) }
{
    let mut reader = Counted::new(r);
    match read_input(alloc, &mut reader) {
        Ok(script) => Ok(script),
        Err(fault) => Err(of_script(fault)),
    }
}

/// The fault of a read, where what was read is such a script.
fn of_script(fault: Fault) -> Fault
    requires { is_read fault ≡ true }
    ensures { is_of_script result ≡ true }
{
    match fault {
        Fault::Read(error) => Fault::Script(error),
        other => other,
    }
}
