//! Words to the command that they are.
#![tactic(auto)]

ghost use Rattle.std.specs.Prelude.{◌≡◌, ◌≢◌, ◌<◌, ◌≤◌, length, map, codes, IfOk, IfSome, None, false};
ghost use Rattle.std.specs.Str.{bytes_eq};
ghost use Rattle.clap.specs.Words.{app_of, first_value, found_of, kind_of, rule_of, subcommand_rows_of};
ghost use Rattle.daemon_words.specs.Commands.{HasNumbers, clock_place, command_of, file_command, fits, init_with, is_clocked, is_like, is_plain, is_run, is_spelled, kept, run_with, with_clock, without_place, word_at};
ghost use Rattle.daemon_words.specs.Numbers.{IsBearers, IsNumbers};
ghost use Rattle.daemon_words.specs.Reader.{AreFlags, IsLocal, choice, file_reader, flag, init, place, read_bearers, read_numbers, reader, run, told};

use crate::commands::{Command, RunWays};
use crate::numbers::{NodeNumbers, bearers, node_numbers};
use clap::error::ErrorKind;
use clap::{Arg, ArgAction, ArgMatches};
use std::alloc::{AllocError, Global};

/// A flag: two dashes and its name.
fn flag<'a>(alloc: Global, name: &'a str) -> Arg<'a>
    ensures rule { rule_of result ≡ flag name.entry.now }
    ensures local { result.global ≡ false }
{
    Arg::new(alloc, name).long(name).action(ArgAction::SetTrue)
}

/// An option: two dashes and its name, with a word behind it.
fn choice<'a>(alloc: Global, name: &'a str) -> Arg<'a>
    ensures rule { rule_of result ≡ choice name.entry.now }
    ensures local { result.global ≡ false }
{
    Arg::new(alloc, name).long(name).action(ArgAction::Set)
}

/// A word that has to stand there.
fn place<'a>(alloc: Global, name: &'a str) -> Arg<'a>
    ensures rule { rule_of result ≡ place name.entry.now }
    ensures local { result.global ≡ false }
{
    Arg::new(alloc, name).required(true)
}

/// A command that names a file, and nothing else.
fn file_reader<'a>(alloc: Global, name: &'a str) -> Result<clap::Command<'a>, AllocError>
    ensures app { IfOk result (λ c. (app_of c ≡ file_reader name.entry.now) × IsLocal c) }
{
    clap::Command::new(alloc, name).arg(place(alloc, "FILE"))
}

/// `init` with its words.
fn init_reader<'a>(alloc: Global) -> Result<clap::Command<'a>, AllocError>
    ensures app { IfOk result (λ c. (app_of c ≡ init) × IsLocal c) }
{
    file_reader(alloc, "init")?
        .arg(place(alloc, "UNICAST"))?
        .arg(place(alloc, "ELEMENTS"))?
        .arg(place(alloc, "IV"))?
        .arg(place(alloc, "FLAGS"))?
        .arg(place(alloc, "NETIDX"))
}

/// `run` with its options.
fn run_reader<'a>(alloc: Global) -> Result<clap::Command<'a>, AllocError>
    ensures app { IfOk result (λ c. (app_of c ≡ run) × IsLocal c) }
{
    file_reader(alloc, "run")?
        .arg(choice(alloc, "bearers"))?
        .arg(flag(alloc, "hex"))
}

/// The reader of words: `init`, `run`, `show` and `check`.
fn reader<'a>(alloc: Global) -> Result<clap::Command<'a>, AllocError>
    ensures app { IfOk result (λ c. app_of c ≡ reader) }
{
    let init = init_reader(alloc)?;
    let run = run_reader(alloc)?;
    let show = file_reader(alloc, "show")?;
    let check = file_reader(alloc, "check")?;
    clap::Command::new(alloc, "meshnoded")
        .no_binary_name(true)
        .subcommand(init)?
        .subcommand(run)?
        .subcommand(show)?
        .subcommand(check)
}

/// The numbers that were read, where they are those of a node.
fn read_numbers(matches: &ArgMatches) -> Option<NodeNumbers>
    ensures value { result
        ≡ read_numbers (first_value (found_of matches.now) (codes "UNICAST"))
        (first_value (found_of matches.now) (codes "ELEMENTS")) (first_value (found_of matches.now) (codes "IV"))
        (first_value (found_of matches.now) (codes "FLAGS")) (first_value (found_of matches.now) (codes "NETIDX")) }
    ensures ranges { IfSome result IsNumbers }
{
    let unicast = matches.get_str("UNICAST")?;
    let elements = matches.get_str("ELEMENTS")?;
    let iv = matches.get_str("IV")?;
    let flags = matches.get_str("FLAGS")?;
    let net_index = matches.get_str("NETIDX")?;
    node_numbers(unicast, elements, iv, flags, net_index)
}

/// The number of bearers that was read, or 1.
fn read_bearers(matches: &ArgMatches) -> Option<u8>
    ensures value { result
        ≡ read_bearers (first_value (found_of matches.now) (codes "bearers")) }
    ensures bound { IfSome result IsBearers }
{
    match matches.get_str("bearers") {
        Some(word) => bearers(word),
        None => Some(1),
    }
}

/// `init` with these numbers.
fn init_with(numbers: Option<NodeNumbers>) -> Option<Command>
    ensures value { result ≡ init_with numbers }
    ensures numbers { IfSome numbers IsNumbers → IfSome result HasNumbers }
{
    match numbers {
        Some(numbers) => Some(Command::Init(numbers)),
        None => None,
    }
}

/// `run` with so many bearers, without a clock.
fn run_with(hex: bool, bearers: Option<u8>) -> Option<Command>
    ensures value { result ≡ run_with hex bearers }
    ensures numbers { IfSome bearers IsBearers → IfSome result HasNumbers }
{
    match bearers {
        Some(bearers) => Some(Command::Run(RunWays {
            bearers,
            hex,
            clock: false,
        })),
        None => None,
    }
}

/// The command that was read, where the texts of its flags are those of flags.
fn told(matches: &ArgMatches) -> Option<Command>
    ensures value { AreFlags (subcommand_rows_of matches.now) → result ≡ told (subcommand_rows_of matches.now) }
    ensures numbers { IfSome result HasNumbers }
{
    if let Some(found) = matches.subcommand_matches("init") {
        return init_with(read_numbers(found));
    }
    if let Some(found) = matches.subcommand_matches("run") {
        return run_with(found.get_flag("hex"), read_bearers(found));
    }
    if let Some(_) = matches.subcommand_matches("show") {
        return Some(Command::Show);
    }
    match matches.subcommand_matches("check") {
        Some(_) => Some(Command::Check),
        None => None,
    }
}

/// Whether a word can be the name of a file, or a number: it isn't empty, and doesn't begin with a dash.
fn is_plain(word: &str) -> bool
    ensures value { result ≡ is_plain word.now }
{
    let octets = word.as_bytes();
    octets.len() > 0 && octets[0] != b'-'
}

/// Whether a word is the one that is wanted, or a plain one where the empty one is.
fn fits(word: &str, wanted: &str) -> bool
    ensures value { result ≡ fits wanted.now word.now }
{
    if wanted.is_empty() {
        is_plain(word)
    } else {
        word == wanted
    }
}

/// Whether the word at a place fits the one that is wanted there.
fn fits_at(words: &[&str], form: &[&str], place: usize) -> bool
    requires words { place < length words.now }
    requires form { place < length form.now }
    ensures value { result
        ≡ fits (word_at (map (λ w. w.now) form.now) place) (word_at (map (λ w. w.now) words.now) place) }
{
    fits(words[place], form[place])
}

/// Whether the words are of a form: each is the one that stands there, or a plain one where the empty one does.
fn is_like(words: &[&str], form: &[&str]) -> bool
    ensures value { result ≡ is_like (map (λ w. w.now) form.now) (map (λ w. w.now) words.now) }
{
    if words.len() != form.len() {
        return false;
    }
    for i in 0..words.len() {
        if !fits_at(words, form, i) {
            return false;
        }
    }
    true
}

/// Whether these are the words of a node that is to be run.
fn is_run(words: &[&str]) -> bool
    ensures value { result ≡ is_run (map (λ w. w.now) words.now) }
{
    is_like(words, &["run", ""])
        || is_like(words, &["run", "", "--hex"])
        || is_like(words, &["run", "", "--bearers", ""])
        || is_like(words, &["run", "", "--hex", "--bearers", ""])
        || is_like(words, &["run", "", "--bearers", "", "--hex"])
}

/// Whether these are the words of a command of this kind, which names a file.
fn is_spelled(command: Command, words: &[&str]) -> bool
    ensures value { result ≡ is_spelled command (map (λ w. w.now) words.now) }
{
    match command {
        Command::Init(_) => is_like(words, &["init", "", "", "", "", "", ""]),
        Command::Run(_) => is_run(words),
        Command::Show => is_like(words, &["show", ""]),
        Command::Check => is_like(words, &["check", ""]),
        Command::Help | Command::Version => false,
    }
}

/// The command, where these are words of its kind.
fn kept(command: Option<Command>, words: &[&str]) -> Option<Command>
    ensures value { result ≡ kept command (map (λ w. w.now) words.now) }
    ensures numbers { IfSome command HasNumbers → IfSome result HasNumbers }
{
    match command {
        Some(command) if is_spelled(command, words) => Some(command),
        _ => None,
    }
}

/// What words that weren't read come to: no command, but for want of memory.
fn refused(error: &clap::Error) -> Result<Option<Command>, AllocError>
    ensures cause { IfOk result (λ c. (c ≡ None) × (kind_of error.now ≢ ErrorKind.OutOfMemory)) }
{
    match error.kind() {
        ErrorKind::OutOfMemory => Err(AllocError),
        _ => Ok(None),
    }
}

/// The command that words are which name a file, without a clock.
fn file_command<'a>(alloc: Global, words: &'a [&'a str]) -> Result<Option<Command>, AllocError>
    ensures value { IfOk result (λ c. c ≡ file_command (map (λ w. w.now) words.now)) }
    ensures numbers { IfOk result (λ c. IfSome c HasNumbers) }
{
    match reader(alloc)?.try_get_matches_from(words) {
        Ok(matches) => Ok(kept(told(&matches), words)),
        Err(error) => refused(&error),
    }
}

/// Whether a word is `--clock`.
fn is_clock(word: &str) -> bool
    ensures value { result ≡ bytes_eq word.now (codes "--clock") }
{
    word == "--clock"
}

/// The place of the first word `--clock`, or the number of words where none is.
fn clock_place(words: &[&str]) -> usize
    ensures value { result ≡ clock_place (map (λ w. w.now) words.now) }
    ensures bound { result ≤ length words.now }
{
    for i in 0..words.len() {
        if is_clock(words[i]) {
            return i;
        }
    }
    words.len()
}

/// Whether the word at a place is an option behind FILE, and not the word of `--bearers`.
fn is_clocked(words: &[&str], place: usize) -> bool
    ensures value { result ≡ is_clocked (map (λ w. w.now) words.now) place }
{
    place < words.len() && place >= 2 && words[place - 1] != "--bearers"
}

/// The words but the one at a place.
fn without_place<'a>(
    alloc: Global,
    words: &[&'a str],
    place: usize,
) -> Result<Vec<&'a str>, AllocError>
    requires place { place < length words.now }
    ensures value { IfOk result
        (λ v. map (λ w. w.now) v.items ≡ without_place (map (λ w. w.now) words.now) place) }
{
    let (front, _) = words.split_at(place);
    let (_, back) = words.split_at(place + 1);
    let mut rest = Vec::new(alloc);
    rest.extend_from_slice(front)?;
    rest.extend_from_slice(back)?;
    Ok(rest)
}

/// The command with a clock, where it is `run`.
fn with_clock(command: Option<Command>) -> Option<Command>
    ensures value { result ≡ with_clock command }
    ensures numbers { IfSome command HasNumbers → IfSome result HasNumbers }
{
    match command {
        Some(Command::Run(ways)) => Some(Command::Run(RunWays {
            clock: true,
            ..ways
        })),
        _ => None,
    }
}

/// The command that the words after the program's name are; `None` exactly where they are none:
///
/// - `init FILE UNICAST ELEMENTS IV FLAGS NETIDX`, the numbers as in a script's line `provision`
/// - `run FILE`, behind which `--bearers N`, `--hex` and `--clock` may stand, in any order, N 1 to 8
/// - `show FILE`, `check FILE`, `--help`, `--version`
///
/// FILE is a word that doesn't begin with a dash.
///
/// # Errors
///
/// `AllocError` where there is no memory.
pub fn command_of<'a>(alloc: Global, words: &'a [&'a str]) -> Result<Option<Command>, AllocError>
    ensures value { IfOk result (λ c. c ≡ command_of (map (λ w. w.now) words.now)) }
    ensures numbers { IfOk result (λ c. IfSome c HasNumbers) }
{
    if is_like(words, &["--help"]) {
        return Ok(Some(Command::Help));
    }
    if is_like(words, &["--version"]) {
        return Ok(Some(Command::Version));
    }
    let place = clock_place(words);
    if !is_clocked(words, place) {
        return file_command(alloc, words);
    }
    let rest = without_place(alloc, words, place)?;
    Ok(with_clock(file_command(alloc, rest.as_slice())?))
}

/// The file that the words of a command name: the second word, or the empty one.
pub fn file_of<'a>(words: &[&'a str]) -> &'a str
    ensures value { result.now ≡ word_at (map (λ w. w.now) words.now) 1 }
{
    if words.len() > 1 { words[1] } else { "" }
}
