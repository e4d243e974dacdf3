//! Words to the command that they are.
#![tactic(auto)]

ghost use Rattle.std.specs.Prelude.{◌≡◌, ◌≢◌, ◌<◌, length, map, codes, IfOk, IfSome, None, false, option_and_then};
ghost use Rattle.clap.specs.Words.{app_of, first_value, found_of, kind_of, rule_of, subcommand_rows_of};
ghost use Rattle.command_words.specs.Commands.{HasFew, command_of, generate, has_flag, has_flags, is_at, is_low_power, is_number, is_run, is_spelled, is_word, kept};
ghost use Rattle.command_words.specs.Numbers.{count_word, number_word};
ghost use Rattle.command_words.specs.Reader.{AreFlags, IsLocal, flag, gen, lpn, place, reader, run, told};
ghost use Rattle.command_words.specs.declared.commands.Command.TheVariants as C;

use crate::commands::{Command, NodeKind, RunFlags};
use crate::numbers::{count, number};
use clap::error::ErrorKind;
use clap::{Arg, ArgAction, ArgMatches};
use std::alloc::{AllocError, Global};

/// A flag: two dashes and its name.
fn flag<'a>(alloc: Global, name: &'a str) -> Arg<'a>
    ensures rule { rule_of result ≡ flag name.entry.now }
    ensures local { result.global ≡ false }
{
    Arg::new(alloc, name).long(name).action(ArgAction::SetTrue)
}

/// `run` with its flags.
fn run_reader<'a>(alloc: Global) -> Result<clap::Command<'a>, AllocError>
    ensures app { IfOk result (λ c. (app_of c ≡ run) × IsLocal c) }
{
    clap::Command::new(alloc, "run")
        .arg(flag(alloc, "hex"))?
        .arg(flag(alloc, "old"))
}

/// `lpn` with its flag.
fn low_power_reader<'a>(alloc: Global) -> Result<clap::Command<'a>, AllocError>
    ensures app { IfOk result (λ c. (app_of c ≡ lpn) × IsLocal c) }
{
    clap::Command::new(alloc, "lpn").arg(flag(alloc, "hex"))
}

/// A word that has to stand there.
fn place<'a>(alloc: Global, name: &'a str) -> Arg<'a>
    ensures rule { rule_of result ≡ place name.entry.now }
    ensures local { result.global ≡ false }
{
    Arg::new(alloc, name).required(true)
}

/// `gen` with its two numbers.
fn gen_reader<'a>(alloc: Global) -> Result<clap::Command<'a>, AllocError>
    ensures app { IfOk result (λ c. (app_of c ≡ gen) × IsLocal c) }
{
    clap::Command::new(alloc, "gen")
        .arg(place(alloc, "COUNT"))?
        .arg(place(alloc, "START"))
}

/// The reader of words: `run` and `lpn` with their flags, `audit`, and `gen` with its numbers.
fn reader<'a>(alloc: Global) -> Result<clap::Command<'a>, AllocError>
    ensures app { IfOk result (λ c. app_of c ≡ reader) }
{
    let run = run_reader(alloc)?;
    let low_power = low_power_reader(alloc)?;
    let generate = gen_reader(alloc)?;
    clap::Command::new(alloc, "meshnode")
        .no_binary_name(true)
        .subcommand(run)?
        .subcommand(low_power)?
        .subcommand(clap::Command::new(alloc, "audit"))?
        .subcommand(generate)
}

/// The number of lines that was read.
fn read_count(matches: &ArgMatches) -> Option<u32>
    ensures value { result ≡ option_and_then count_word (first_value (found_of matches.now) (codes "COUNT")) }
{
    match matches.get_str("COUNT") {
        Some(word) => count(word),
        None => None,
    }
}

/// The number that was read, behind which those of the lines begin.
fn read_start(matches: &ArgMatches) -> Option<u32>
    ensures value { result ≡ option_and_then number_word (first_value (found_of matches.now) (codes "START")) }
{
    match matches.get_str("START") {
        Some(word) => number(word),
        None => None,
    }
}

/// `gen` with the numbers that were read, where there are both.
fn generate(matches: &ArgMatches) -> Option<Command>
    ensures value { result
        ≡ generate (option_and_then count_word (first_value (found_of matches.now) (codes "COUNT")))
        (option_and_then number_word (first_value (found_of matches.now) (codes "START"))) }
{
    match (read_count(matches), read_start(matches)) {
        (Some(count), Some(start)) => Some(Command::Generate { count, start }),
        _ => None,
    }
}

/// The command that was read, where the texts of its flags are those of flags.
fn told(matches: &ArgMatches) -> Option<Command>
    ensures value { AreFlags (subcommand_rows_of matches.now) → result ≡ told (subcommand_rows_of matches.now) }
{
    if let Some(run) = matches.subcommand_matches("run") {
        return Some(Command::Run(
            NodeKind::Node,
            RunFlags {
                hex: run.get_flag("hex"),
                old: run.get_flag("old"),
            },
        ));
    }
    if let Some(low_power) = matches.subcommand_matches("lpn") {
        return Some(Command::Run(
            NodeKind::LowPower,
            RunFlags {
                hex: low_power.get_flag("hex"),
                old: false,
            },
        ));
    }
    if let Some(_) = matches.subcommand_matches("audit") {
        return Some(Command::Audit);
    }
    match matches.subcommand_matches("gen") {
        Some(found) => generate(found),
        None => None,
    }
}

/// Whether the word at a place is this one.
fn is_at(words: &[&str], place: usize, word: &str) -> bool
    requires within { place < length words.now }
    ensures value { result ≡ is_at (map (λ w. w.now) words.now) place word.now }
{
    words[place] == word
}

/// Whether the words are this command and one flag.
fn has_flag(words: &[&str], command: &str, flag: &str) -> bool
    ensures value { result ≡ has_flag (map (λ w. w.now) words.now) command.now flag.now }
{
    words.len() == 2 && is_at(words, 0, command) && is_at(words, 1, flag)
}

/// Whether the words are `run` and two flags.
fn has_flags(words: &[&str], first: &str, second: &str) -> bool
    ensures value { result ≡ has_flags (map (λ w. w.now) words.now) first.now second.now }
{
    words.len() == 3 && is_at(words, 0, "run") && is_at(words, 1, first) && is_at(words, 2, second)
}

/// Whether the words are this one alone.
fn is_word(words: &[&str], word: &str) -> bool
    ensures value { result ≡ is_word (map (λ w. w.now) words.now) word.now }
{
    words.len() == 1 && is_at(words, 0, word)
}

/// Whether these are the words of `run` with these flags, each once, in any order.
fn is_run(flags: RunFlags, words: &[&str]) -> bool
    ensures value { result ≡ is_run flags (map (λ w. w.now) words.now) }
{
    if flags.hex && flags.old {
        has_flags(words, "--hex", "--old") || has_flags(words, "--old", "--hex")
    } else if flags.hex {
        has_flag(words, "run", "--hex")
    } else if flags.old {
        has_flag(words, "run", "--old")
    } else {
        is_word(words, "run")
    }
}

/// Whether these are the words of `lpn` with these flags.
fn is_low_power(flags: RunFlags, words: &[&str]) -> bool
    ensures value { result ≡ is_low_power flags (map (λ w. w.now) words.now) }
{
    if flags.old {
        false
    } else if flags.hex {
        has_flag(words, "lpn", "--hex")
    } else {
        is_word(words, "lpn")
    }
}

/// Whether the word is this number of lines.
fn is_count(word: &str, n: u32) -> bool
    ensures value { result ≡ is_number (count_word word.now) n }
{
    count(word) == Some(n)
}

/// Whether the word is this number.
fn is_number(word: &str, n: u32) -> bool
    ensures value { result ≡ is_number (number_word word.now) n }
{
    number(word) == Some(n)
}

/// Whether these are the words of `gen` with these numbers.
fn is_generate(count: u32, start: u32, words: &[&str]) -> bool
    ensures value { result ≡ is_spelled (C.Generate count start) (map (λ w. w.now) words.now) }
{
    words.len() == 3
        && is_at(words, 0, "gen")
        && is_count(words[1], count)
        && is_number(words[2], start)
}

/// Whether these are the words of a command.
fn is_spelled(command: Command, words: &[&str]) -> bool
    ensures value { result ≡ is_spelled command (map (λ w. w.now) words.now) }
{
    match command {
        Command::Run(NodeKind::Node, flags) => is_run(flags, words),
        Command::Run(NodeKind::LowPower, flags) => is_low_power(flags, words),
        Command::Audit => is_word(words, "audit"),
        Command::Generate { count, start } => is_generate(count, start, words),
    }
}

/// The command, where these are its words.
fn kept(command: Option<Command>, words: &[&str]) -> Option<Command>
    ensures value { result ≡ kept command (map (λ w. w.now) words.now) }
{
    match command {
        Some(command) if is_spelled(command, words) => Some(command),
        _ => None,
    }
}

/// What words that weren't read come to: no command, but for want of memory.
fn refused(error: &clap::Error) -> Result<Option<Command>, AllocError>
    ensures cause { IfOk result (λ c. (c ≡ None) × (kind_of error.now ≢ ErrorKind.OutOfMemory)) }
{
    match error.kind() {
        ErrorKind::OutOfMemory => Err(AllocError),
        _ => Ok(None),
    }
}

/// The command that the words after the program's name are: `run`, with `--hex` and `--old` in any combination, `lpn`, alone or with `--hex`,
/// `audit`, or `gen` with two numbers of 1 to 10 decimal digits, of which the first is 1 to 32,768 and the second has 32 bits; `None` exactly where they are none. What
/// `clap` reads and isn't spelled so, as a word `--`, is no command either.
///
/// # Errors
///
/// `AllocError` where there is no memory.
pub fn command_of<'a>(alloc: Global, words: &'a [&'a str]) -> Result<Option<Command>, AllocError>
    ensures value { IfOk result (λ c. c ≡ command_of (map (λ w. w.now) words.now)) }
    ensures few { IfOk result (λ c. IfSome c HasFew) }
{
    match reader(alloc)?.try_get_matches_from(words) {
        Ok(matches) => Ok(kept(told(&matches), words)),
        Err(error) => refused(&error),
    }
}
