//! The words of `replay` with its options.
ghost use Rattle.std.specs.Prelude.{◌≡◌, true, IfOk, IfErr, map, string_bytes};
ghost use Rattle.clap.specs.Words.{app_of, found_of};
ghost use Rattle.command_words.specs.Arguments.{AreFound, AreInRange, AsksToReplay, asks_replay};
ghost use Rattle.command_words.specs.Arguments.{replaying};
ghost use Rattle.commands.specs.Faults.{is_of_words};

use crate::words::{MOST, ends_options, fault_of, number, number_of};
use clap::{ArgMatches, Command};
use commands::Fault;
use kv_model::Ids;
use std::alloc::{AllocError, Global};

/// Whether the command is `replay`, with words behind it.
pub(crate) fn is_replay(words: &[String]) -> bool
    ensures { result ≡ asks_replay (map string_bytes words.now) }
{
    match words {
        [_, word, _, ..] => word.as_str() == "replay",
        _ => false,
    }
}

/// Reads the words of `replay`, the program's name first, and gives the ids by which it answers.
pub(crate) fn replay_of(alloc: Global, words: &[String]) -> Result<Ids, Fault>
    requires { asks_replay (map string_bytes words.now) ≡ true }
    ensures ok { IfOk result (AsksToReplay (map string_bytes words.now)) }
    ensures memory { IfErr result (λ fault. (ids : Ids)
        → AsksToReplay (map string_bytes words.now) ids → fault ≡ Fault.Memory) }
    ensures fault { IfErr result (λ fault. is_of_words fault ≡ true) }
{
    let Some((_, words)) = words.split_first() else {
        return Err(Fault::Arguments);
    };
    // clap would pass over a last `--`.
    if ends_options(words) {
        return Err(Fault::Arguments);
    }
    let Ok(command) = replay_command(alloc) else {
        return Err(Fault::Memory);
    };
    match command.try_get_matches_from(words) {
        Ok(matches) => asked_ids(&matches),
        Err(error) => Err(fault_of(&error)),
    }
}

/// What clap reads: the options of `replay`.
fn replay_command<'a>(alloc: Global) -> Result<Command<'a>, AllocError>
    ensures { IfOk result (λ command. app_of command ≡ replaying) }
{
    Command::new(alloc, "replay")
        .arg(number(alloc, "cluster-id"))?
        .arg(number(alloc, "member-id"))
}

/// The ids that these words ask for.
fn asked_ids(matches: &ArgMatches<'_>) -> Result<Ids, Fault>
    ensures range { IfOk result AreInRange }
    ensures found { IfOk result (AreFound (found_of matches.now)) }
    ensures other { IfErr result (λ _. (ids : Ids)
        → AreFound (found_of matches.now) ids → AreInRange ids → ⊥) }
    ensures fault { IfErr result (λ fault. fault ≡ Fault.Arguments) }
{
    let Some(cluster) = number_of(matches, "cluster-id", 1, 1, MOST) else {
        return Err(Fault::Arguments);
    };
    let Some(member) = number_of(matches, "member-id", 1, 1, MOST) else {
        return Err(Fault::Arguments);
    };
    Ok(Ids { cluster, member })
}
