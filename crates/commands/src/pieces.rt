//! Bytes written whole, or up to where a write fails.
ghost use Rattle.std.specs.Prelude.{◌≢◌, ◌++◌, ◌∷◌, [], map, decimal, IfErr};
ghost use Rattle.std.specs.IoError.{error_kind};
ghost use Rattle.std.specs.List.{concat};
ghost use Rattle.commands.specs.Replies.{rev_text};
ghost use Rattle.commands.specs.Writes.{Writes};

use itoa::Buffer;
use kv_model::version::Rev;
use std::io;
use std::io::{ErrorKind, Write};

/// Writes the pieces, one after the other.
pub fn write_pieces<W: Write>(w: &mut W, pieces: &[&[u8]]) -> io::Result<()>
    ensures { Writes result (W.contents w.old) (W.contents w.new)
        (concat (map (λ piece. piece.now) pieces.now)) }
{
    for piece in pieces {
        write_bytes(w, piece)?;
    }
    Ok(())
}

/// Writes some words, a number and a line feed.
pub fn write_number<W: Write>(w: &mut W, words: &[u8], number: u64) -> io::Result<()>
    ensures { Writes result (W.contents w.old) (W.contents w.new)
        (words.now ++ decimal number ++ 10 ∷ []) }
{
    let mut digits = Buffer::new();
    write_pieces(w, &[words, digits.format(number).as_bytes(), b"\n"])
}

/// Writes some words, a version's revision and a line feed.
pub fn write_rev<W: Write>(w: &mut W, words: &[u8], rev: Rev) -> io::Result<()>
    ensures { Writes result (W.contents w.old) (W.contents w.new)
        (words.now ++ rev_text rev ++ 10 ∷ []) }
{
    let (mut main, mut sub) = (Buffer::new(), Buffer::new());
    let main = main.format(rev.main).as_bytes();
    let sub = sub.format(rev.sub).as_bytes();
    write_pieces(w, &[words, main, b".", sub, b"\n"])
}

/// Writes all bytes, by as many writes as that takes; one that a signal interrupts is made again.
///
/// Fails where another write fails, or takes nothing, and makes no further one: a front of the
/// bytes was written then. `write_all` does the same, but its contract does not say what a failure
/// leaves.
pub fn write_bytes<W: Write>(w: &mut W, bytes: &[u8]) -> io::Result<()>
    ensures written { Writes result (W.contents w.old) (W.contents w.new) bytes.now }
    ensures kind { IfErr result (λ error. error_kind error ≢ ErrorKind.Interrupted) }
{
    let mut rest = bytes;
    for _ in 0..u64::MAX {
        if rest.is_empty() {
            return Ok(());
        }
        match w.write(rest) {
            Ok(0) => return Err(io::Error::from(ErrorKind::WriteZero)),
            Ok(count) => rest = &rest[count..],
            Err(error) => {
                if error.kind() != ErrorKind::Interrupted {
                    return Err(error);
                }
            }
        }
    }
    Err(io::Error::from(ErrorKind::TimedOut))
}
