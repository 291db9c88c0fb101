//! The commands that take standard input to standard output.
ghost use Rattle.std.specs.Prelude.{◌≡◌, true, IfOk, IfErr, MatchOption, Ok, Some};
ghost use Rattle.std.specs.Prelude.{map, option_map, string_bytes};
ghost use Rattle.clap.specs.Words.{app_of, kind_of};
ghost use Rattle.command_words.specs.Arguments.{IsCommand, IsNoCommand, program, word_of};
ghost use Rattle.commands.specs.Faults.{is_of_words};

use clap::error::ErrorKind;
use clap::{Command, Error};
use commands::Fault;
use std::alloc::{AllocError, Global};

/// A command that has no words after its own.
#[derive(Clone, Copy, PartialEq, Eq)]
pub(crate) enum Filter {
    /// `replay`: answer the script on standard input.
    Replay,
    /// `check`: judge the certificate on standard input.
    Check,
}

/// Reads the words of a command line, the program's name first. The commands are `replay` and
/// `check`, with nothing after them.
///
/// Fails with `Fault::Arguments` for any other words, whether or not there is memory, and with
/// `Fault::Memory` where these are the words and memory is wanting.
pub(crate) fn filter_of(alloc: Global, words: &[String]) -> Result<Filter, Fault>
    ensures ok { IfOk result (IsCommand (map string_bytes words.now)) }
    ensures memory { IfErr result (λ fault. (command : Filter)
        → IsCommand (map string_bytes words.now) command → fault ≡ Fault.Memory) }
    ensures other { IfErr result (λ fault.
        IsNoCommand (map string_bytes words.now) → fault ≡ Fault.Arguments) }
    ensures fault { IfErr result (λ fault. is_of_words fault ≡ true) }
{
    // clap would pass over a last `--`.
    if words.len() != 2 {
        return Err(Fault::Arguments);
    }
    let Ok(command) = program(alloc) else {
        return Err(without_memory(words));
    };
    match command.try_get_matches_from(words) {
        Ok(matches) => asked(matches.subcommand_name()),
        Err(error) => Err(fault_of(&error, words)),
    }
}

/// The command that clap read, which is one of the program's.
fn asked(name: Option<&str>) -> Result<Filter, Fault>
    ensures command { (command : Filter)
        → option_map (λ word. word.now) name.entry ≡ Some (word_of command) → result ≡ Ok command }
    ensures fault { IfErr result (λ fault. is_of_words fault ≡ true) }
{
    match name {
        Some(word) => named(word).ok_or(Fault::Arguments),
        None => Err(Fault::Arguments),
    }
}

/// The command of a word.
fn named(word: &str) -> Option<Filter>
    ensures { MatchOption result ((command : Filter) → word.now ≡ word_of command → ⊥)
        (λ command. word.now ≡ word_of command) }
{
    if word == "replay" {
        Some(Filter::Replay)
    } else if word == "check" {
        Some(Filter::Check)
    } else {
        None
    }
}

/// Which fault it is that clap found no memory to read the words: those of no command are bad with
/// memory too.
fn without_memory(words: &[String]) -> Fault
    ensures memory { (command : Filter) → IsCommand (map string_bytes words.now) command
        → result ≡ Fault.Memory }
    ensures other { IsNoCommand (map string_bytes words.now) → result ≡ Fault.Arguments }
    ensures fault { is_of_words result ≡ true }
{
    match words {
        [_, word] if named(word.as_str()).is_some() => Fault::Memory,
        _ => Fault::Arguments,
    }
}

/// The program's commands.
fn program<'a>(alloc: Global) -> Result<Command<'a>, AllocError>
    ensures { IfOk result (λ command. app_of command ≡ program) }
{
    let replay = Command::new(alloc, "replay");
    let check = Command::new(alloc, "check");
    Command::new(alloc, "etcd_one")
        .subcommand_required(true)
        .subcommand(replay)?
        .subcommand(check)
}

/// Which fault it is that clap took the words for an error.
fn fault_of(error: &Error, words: &[String]) -> Fault
    ensures memory { kind_of error.now ≡ ErrorKind.OutOfMemory → (command : Filter)
        → IsCommand (map string_bytes words.now) command → result ≡ Fault.Memory }
    ensures other { IsNoCommand (map string_bytes words.now) → result ≡ Fault.Arguments }
    ensures fault { is_of_words result ≡ true }
{
    match error.kind() {
        ErrorKind::OutOfMemory => without_memory(words),
        _ => Fault::Arguments,
    }
}
