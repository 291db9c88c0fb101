//! What somebody is told whose words ask for nothing.
ghost use Rattle.std.specs.Prelude.{◌≡◌, map, string_bytes};
ghost use Rattle.std.specs.List.{list_any};
ghost use Rattle.command_words.specs.Advice.{advice_of, asks_help, asks_version, first_outside, has};
ghost use Rattle.command_words.specs.Advice.{is_beyond, is_outside, is_word, line_of, of_command, of_options};
ghost use Rattle.command_words.specs.Advice.{of_rest, outside};

/// What is told in one line of its own, and not in that of `Fault::Arguments`.
#[derive(Clone, Copy, Debug, PartialEq, Eq)]
pub enum Advice {
    /// The commands, and their options with their ranges.
    Help,
    /// The version of the program.
    Version,
    /// What stands behind `--workers` is no number from 2 to 32.
    Workers,
    /// What stands behind `--connections` is no number from 0 to 2^63 - 1.
    Connections,
    /// What stands behind `--cluster-id` is no number from 1 to 2^63 - 1.
    ClusterId,
    /// What stands behind `--member-id` is no number from 1 to 2^63 - 1.
    MemberId,
    /// `serve` has no `--listen`.
    Address,
}

impl Advice {
    /// The line, without its end.
    pub fn line(self) -> &'static str
        ensures { result.now ≡ line_of self }
    {
        match self {
            Advice::Help => {
                "etcd_one 0.1.0; usage: etcd_one replay [--cluster-id N] [--member-id N] < script, etcd_one check < certificate, or etcd_one serve --listen ADDR [--workers 2..32, else 8] [--connections 0..9223372036854775807, else 0, which is no end] [--cluster-id 1..9223372036854775807, else 1] [--member-id 1..9223372036854775807, else 1] [--from FILE, a script that it goes on from] [--control, by lines on standard input] [--record FILE, its events as a script]"
            }
            Advice::Version => "etcd_one 0.1.0",
            Advice::Workers => "etcd_one: --workers takes a number from 2 to 32",
            Advice::Connections => {
                "etcd_one: --connections takes a number from 0 to 9223372036854775807"
            }
            Advice::ClusterId => {
                "etcd_one: --cluster-id takes a number from 1 to 9223372036854775807"
            }
            Advice::MemberId => {
                "etcd_one: --member-id takes a number from 1 to 9223372036854775807"
            }
            Advice::Address => "etcd_one: serve needs --listen ADDR, as in --listen 127.0.0.1:2379",
        }
    }
}

/// What to tell of words that `arguments` has refused as bad, the program's name first: that help or
/// the version was asked for, wherever among them; else, of `serve` and `replay`, the first option
/// whose next word is no number of its range, or, of `serve`, that there is no `--listen`. `None` of
/// any other words, of which the fault's own line tells.
///
/// An option and its number in one word, as `--workers=1`, and a number behind a plus, which clap
/// takes, are not looked at.
pub fn advise(words: &[String]) -> Option<Advice>
    ensures { result ≡ advice_of (map string_bytes words.now) }
{
    match words.split_first() {
        Some((_, rest)) => of_rest(rest),
        None => None,
    }
}

fn of_rest(words: &[String]) -> Option<Advice>
    ensures { result ≡ of_rest (map string_bytes words.now) }
{
    if asks_help(words) {
        Some(Advice::Help)
    } else if asks_version(words) {
        Some(Advice::Version)
    } else {
        of_command(words)
    }
}

fn asks_help(words: &[String]) -> bool
    ensures { result ≡ asks_help (map string_bytes words.now) }
{
    has("--help", words) || has("-h", words) || has("help", words)
}

fn asks_version(words: &[String]) -> bool
    ensures { result ≡ asks_version (map string_bytes words.now) }
{
    has("--version", words) || has("-V", words)
}

/// Whether a word stands among these.
fn has(wanted: &str, words: &[String]) -> bool
    ensures { result ≡ has wanted.now (map string_bytes words.now) }
{
    is_any(wanted, words)
}

fn is_any(wanted: &str, words: &[String]) -> bool
    ensures { result ≡ list_any (λ word. is_word wanted.now (string_bytes word)) words.now }
{
    words.iter().any(|word| is_word(wanted, word.as_str()))
}

fn is_word(wanted: &str, word: &str) -> bool
    ensures { result ≡ is_word wanted.now word.now }
{
    word == wanted
}

fn of_command(words: &[String]) -> Option<Advice>
    ensures { result ≡ of_command (map string_bytes words.now) }
{
    match words.split_first() {
        Some((word, options)) => {
            if word.as_str() == "serve" {
                of_options(options)
            } else if word.as_str() == "replay" {
                first_outside(false, "", options)
            } else {
                None
            }
        }
        None => None,
    }
}

fn of_options(words: &[String]) -> Option<Advice>
    ensures { result ≡ of_options (map string_bytes words.now) }
{
    match first_outside(true, "", words) {
        Some(told) => Some(told),
        None => {
            if has("--listen", words) {
                None
            } else {
                Some(Advice::Address)
            }
        }
    }
}

/// The first option whose next word is no number of its range, where the first of all is this one;
/// those are options of `serve` where `serves` says so, and else of `replay`.
fn first_outside(serves: bool, option: &str, words: &[String]) -> Option<Advice>
    ensures { result ≡ first_outside serves option.now (map string_bytes words.now) }
{
    match words.split_first() {
        Some((word, rest)) => match outside(serves, option, word.as_str()) {
            Some(told) => Some(told),
            None => first_outside(serves, word.as_str(), rest),
        },
        None => None,
    }
}

/// What is told of an option and the word behind it.
fn outside(serves: bool, option: &str, text: &str) -> Option<Advice>
    ensures { result ≡ outside serves option.now text.now }
{
    if serves && option == "--workers" && is_outside(text, 2, 32) {
        Some(Advice::Workers)
    } else if serves
        && option == "--connections"
        && is_outside(text, 0, 9_223_372_036_854_775_807)
    {
        Some(Advice::Connections)
    } else if option == "--cluster-id" && is_outside(text, 1, 9_223_372_036_854_775_807) {
        Some(Advice::ClusterId)
    } else if option == "--member-id" && is_outside(text, 1, 9_223_372_036_854_775_807) {
        Some(Advice::MemberId)
    } else {
        None
    }
}

/// Whether a text is no number between these.
fn is_outside(text: &str, least: u64, most: u64) -> bool
    ensures { result ≡ is_outside least most text.now }
{
    if text.starts_with('+') {
        false
    } else {
        is_beyond(text.parse().ok(), least, most)
    }
}

fn is_beyond(number: Option<u64>, least: u64, most: u64) -> bool
    ensures { result ≡ is_beyond least most number }
{
    match number {
        Some(number) => number < least || number > most,
        None => true,
    }
}
