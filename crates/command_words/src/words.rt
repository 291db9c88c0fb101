//! The program's arguments.
ghost use Rattle.std.specs.Prelude.{◌≡◌, ◌≢◌, ◌≤◌, ◌||◌, ℕ, List, false, true, IfOk, IfErr, map};
ghost use Rattle.std.specs.Prelude.{if◌then◌else◌, nat_lt, unwrap_or, string_bytes, None, Some};
ghost use Rattle.std.specs.Prelude.{MatchOption, option_map};
ghost use Rattle.std.specs.List.{list_any};
ghost use Rattle.clap.specs.Words.{app_of, found_of, kind_of, one_text, rule_of};
ghost use Rattle.command_words.specs.Arguments.{Asks, AsksToServe, IsCommand, IsFound, IsInRange};
ghost use Rattle.command_words.specs.Arguments.{IsNoCommand, IsNumber, asks_replay, asks_serve};
ghost use Rattle.command_words.specs.Arguments.{is_end_of_options};
ghost use Rattle.command_words.specs.Arguments.{address_rule, is_set, number_rule, option_rule, serving, switch_rule};
ghost use Rattle.commands.specs.Faults.{is_of_words};

use crate::filters::{Filter, filter_of};
use crate::replaying::{is_replay, replay_of};
use clap::error::ErrorKind;
use clap::{Arg, ArgAction, ArgMatches, Command, Error};
use commands::Fault;
use kv_model::Ids;
use std::alloc::{AllocError, Global};

/// The cluster and the member that answer where no option says which.
pub(crate) const ONES: Ids = Ids {
    cluster: 1,
    member: 1,
};

/// What the program was asked to do.
#[derive(Clone, Copy, Debug, PartialEq, Eq)]
pub enum Args<'a> {
    /// `replay`: answer the script on standard input, by these ids.
    Replay(Ids),
    /// `check`: judge the certificate on standard input.
    Check,
    /// `serve`: answer HTTP.
    Serve(Serve<'a>),
}

/// How a server answers.
#[derive(Clone, Copy, Debug, PartialEq, Eq)]
pub struct Serve<'a> {
    /// Where it listens: an IP address or a host's name, a colon and a port.
    pub listen: &'a str,
    /// How many threads give connections their turns, from 2 to 32. Any number of connections is
    /// served.
    pub workers: u64,
    /// After how many connections it ends, at most 2^63 - 1; 0 counts as that.
    pub connections: u64,
    /// The cluster and the member that answer, from 1 to 2^63 - 1.
    pub cluster: u64,
    pub member: u64,
    /// Whether it is controlled by lines on standard input, and ends at their end.
    pub control: bool,
    /// The path of the script that it goes on from; none, where it begins with an empty store.
    pub from: Option<&'a str>,
    /// The path of the file into which its events are put, as a script; none, where there is none.
    pub recording: Option<&'a str>,
}

/// The greatest number of an argument.
pub(crate) const MOST: u64 = 9_223_372_036_854_775_807;

/// Reads the words of a command line, the program's name first. The commands are `check`, with
/// nothing after it, and `replay` and `serve` with their options, each once, in any order. Of both:
/// `--cluster-id` and `--member-id` and 1 to 2^63 - 1, which are 1 otherwise. Of `serve`: `--listen`
/// and an address, which is required; `--workers` and 2 to 32, which is 8 otherwise; `--connections`
/// and 0 to 2^63 - 1, which is 0 otherwise; `--from` and the path of a file; `--control` alone; and
/// `--record` and the path of a file.
///
/// Fails with `Fault::Arguments` for any other words; where the command is not `serve`, and not
/// `replay` with words behind it, whether or not there is memory. Fails with `Fault::Memory` where memory is wanting to read them; nothing
/// else refuses words that ask for something.
pub fn arguments<'a>(alloc: Global, words: &'a [String]) -> Result<Args<'a>, Fault>
    ensures ok { IfOk result (Asks (map string_bytes words.now)) }
    ensures memory { IfErr result (λ fault. (args : Args)
        → Asks (map string_bytes words.now) args → fault ≡ Fault.Memory) }
    ensures other { IfErr result (λ fault. IsNoCommand (map string_bytes words.now)
        → asks_serve (map string_bytes words.now) ≡ false
        → asks_replay (map string_bytes words.now) ≡ false → fault ≡ Fault.Arguments) }
    ensures fault { IfErr result (λ fault. is_of_words fault ≡ true) }
{
    if is_serve(words) {
        return match serve_of(alloc, words) {
            Ok(serve) => Ok(Args::Serve(serve)),
            Err(fault) => Err(fault),
        };
    }
    if is_replay(words) {
        return match replay_of(alloc, words) {
            Ok(ids) => Ok(Args::Replay(ids)),
            Err(fault) => Err(fault),
        };
    }
    match filter_of(alloc, words) {
        Ok(Filter::Replay) => Ok(Args::Replay(ONES)),
        Ok(Filter::Check) => Ok(Args::Check),
        Err(fault) => Err(fault),
    }
}

/// Whether the command is `serve`.
fn is_serve(words: &[String]) -> bool
    ensures { result ≡ asks_serve (map string_bytes words.now) }
{
    match words {
        [_, word, ..] => word.as_str() == "serve",
        _ => false,
    }
}

/// Reads the words of `serve`, the program's name first.
fn serve_of<'a>(alloc: Global, words: &'a [String]) -> Result<Serve<'a>, Fault>
    ensures ok { IfOk result (AsksToServe (map string_bytes words.now)) }
    ensures memory { IfErr result (λ fault. (s : Serve)
        → AsksToServe (map string_bytes words.now) s → fault ≡ Fault.Memory) }
    ensures fault { IfErr result (λ fault. is_of_words fault ≡ true) }
{
    let Some((_, words)) = words.split_first() else {
        return Err(Fault::Arguments);
    };
    // clap would pass over a last `--`.
    if ends_options(words) {
        return Err(Fault::Arguments);
    }
    let Ok(command) = serve_command(alloc) else {
        return Err(Fault::Memory);
    };
    match command.try_get_matches_from(words) {
        Ok(matches) => asked(&matches),
        Err(error) => Err(fault_of(&error)),
    }
}

/// Whether some word is `--`.
pub(crate) fn ends_options(words: &[String]) -> bool
    ensures { result ≡ list_any (λ word. is_end_of_options (string_bytes word)) words.now }
{
    words.iter().any(|word| is_end_of_options(word.as_str()))
}

fn is_end_of_options(word: &str) -> bool
    ensures { result ≡ is_end_of_options word.now }
{
    word == "--"
}

/// What clap reads: the options of `serve`.
fn serve_command<'a>(alloc: Global) -> Result<Command<'a>, AllocError>
    ensures { IfOk result (λ command. app_of command ≡ serving) }
{
    Command::new(alloc, "serve")
        .arg(address(alloc))?
        .arg(number(alloc, "workers"))?
        .arg(number(alloc, "connections"))?
        .arg(number(alloc, "cluster-id"))?
        .arg(number(alloc, "member-id"))?
        .arg(switch(alloc, "control"))?
        .arg(text(alloc, "record"))?
        .arg(text(alloc, "from"))
}

/// The option that has to be given: where to listen.
fn address<'a>(alloc: Global) -> Arg<'a>
    ensures rule { rule_of result ≡ address_rule }
    ensures local { result.global ≡ false }
{
    Arg::new(alloc, "listen").long("listen").required(true)
}

/// An option that has a text.
fn text<'a>(alloc: Global, name: &'a str) -> Arg<'a>
    ensures rule { rule_of result ≡ option_rule name.entry.now }
    ensures local { result.global ≡ false }
{
    Arg::new(alloc, name).long(name)
}

/// An option that has a number.
pub(crate) fn number<'a>(alloc: Global, name: &'a str) -> Arg<'a>
    ensures rule { rule_of result ≡ number_rule name.entry.now }
    ensures local { result.global ≡ false }
{
    Arg::new(alloc, name)
        .long(name)
        .value_parser(clap::value_parser!(u64))
}

/// An option that stands alone.
fn switch<'a>(alloc: Global, name: &'a str) -> Arg<'a>
    ensures rule { rule_of result ≡ switch_rule name.entry.now }
    ensures local { result.global ≡ false }
{
    Arg::new(alloc, name).long(name).action(ArgAction::SetTrue)
}

/// What these words ask for.
fn asked<'a>(matches: &ArgMatches<'a>) -> Result<Serve<'a>, Fault>
    ensures range { IfOk result IsInRange }
    ensures found { IfOk result (IsFound (found_of matches.now)) }
    ensures other { IfErr result (λ _. (s : Serve)
        → IsFound (found_of matches.now) s → IsInRange s → ⊥) }
    ensures fault { IfErr result (λ fault. fault ≡ Fault.Arguments) }
{
    let Some(listen) = matches.get_str("listen") else {
        return Err(Fault::Arguments);
    };
    let Some(workers) = number_of(matches, "workers", 8, 2, 32) else {
        return Err(Fault::Arguments);
    };
    let Some(connections) = number_of(matches, "connections", 0, 0, MOST) else {
        return Err(Fault::Arguments);
    };
    let Some(cluster) = number_of(matches, "cluster-id", 1, 1, MOST) else {
        return Err(Fault::Arguments);
    };
    let Some(member) = number_of(matches, "member-id", 1, 1, MOST) else {
        return Err(Fault::Arguments);
    };
    Ok(Serve {
        listen,
        workers,
        connections,
        cluster,
        member,
        from: matches.get_str("from"),
        control: is_set(matches.get_str("control")),
        recording: matches.get_str("record"),
    })
}

/// Whether an option that stands alone was given, by its text.
fn is_set(text: Option<&str>) -> bool
    ensures { result ≡ is_set (option_map (λ t. t.now) text.entry) }
{
    match text {
        Some(text) => text == "true",
        None => false,
    }
}

/// The number of an option, or the one that stands for none, where it is in its range.
pub(crate) fn number_of(
    matches: &ArgMatches<'_>,
    name: &str,
    otherwise: u64,
    least: u64,
    most: u64,
) -> Option<u64>
    ensures { MatchOption result
        ((n : ℕ) → IsNumber (one_text (found_of matches.now) name.now) otherwise n
        → least ≤ n → n ≤ most → ⊥)
        (λ n. IsNumber (one_text (found_of matches.now) name.now) otherwise n
        × (least ≤ n) × (n ≤ most)) }
{
    match matches.try_get_one::<u64>(name) {
        Ok(given) => within(given, otherwise, least, most),
        Err(_) => None,
    }
}

/// The number that was given, or the one that stands for none, where it is in its range.
fn within(given: Option<u64>, otherwise: u64, least: u64, most: u64) -> Option<u64>
    ensures { result ≡ (if nat_lt (unwrap_or given otherwise) least
        || nat_lt most (unwrap_or given otherwise) then None
        else Some (unwrap_or given otherwise)) }
{
    let number = given.unwrap_or(otherwise);
    if number < least || number > most {
        return None;
    }
    Some(number)
}

/// Which fault it is that clap took the words for an error.
pub(crate) fn fault_of(error: &Error) -> Fault
    ensures memory { kind_of error.now ≡ ErrorKind.OutOfMemory → result ≡ Fault.Memory }
    ensures other { kind_of error.now ≢ ErrorKind.OutOfMemory → result ≡ Fault.Arguments }
{
    match error.kind() {
        ErrorKind::OutOfMemory => Fault::Memory,
        _ => Fault::Arguments,
    }
}
