ghost use Rattle.std.specs.Prelude.{◌≡◌, IfOk, false, map, string_bytes};
ghost use Rattle.clap.specs.Words.{app_of, found_of, rows_of, rule_of};
ghost use Rattle.vc_words.specs.Words.{asked, command, flag, has_flag, option, words_of};

use crate::Words;
use crate::number::{count_if_given, seed_if_given};
use clap::error::ErrorKind;
use clap::{Arg, ArgAction, ArgMatches, Command};
use std::alloc::Global;
use vc_base::OutOfMemory;

// `--name`.
fn flag<'a>(alloc: Global, name: &'a str) -> Arg<'a>
    ensures rule { rule_of result ≡ flag name.now }
    ensures local { result.global ≡ false }
{
    Arg::new(alloc, name).long(name).action(ArgAction::SetTrue)
}

// `--name TEXT`.
fn option<'a>(alloc: Global, name: &'a str) -> Arg<'a>
    ensures rule { rule_of result ≡ option name.now }
    ensures local { result.global ≡ false }
{
    Arg::new(alloc, name).long(name).action(ArgAction::Set)
}

// The command with the four options.
fn command<'a>(alloc: Global) -> Result<Command<'a>, OutOfMemory>
    ensures { IfOk result (λ c. app_of c ≡ command) }
{
    let bare = Command::new(alloc, "words")
        .no_binary_name(true)
        .disable_help_flag(true);
    let flags = bare.arg(flag(alloc, "quiet"))?.arg(flag(alloc, "stat"))?;
    Ok(flags.arg(option(alloc, "gen"))?.arg(option(alloc, "seed"))?)
}

// Whether the flag was given.
fn has_flag(matches: &ArgMatches, name: &str) -> bool
    ensures { result ≡ has_flag name.now (rows_of (found_of matches.now)) }
{
    matches.get_one::<bool>(name).unwrap_or(false)
}

// What the matches ask for; none where a text is no number that it can be.
fn asked(matches: &ArgMatches) -> Option<Words>
    ensures { result ≡ asked (rows_of (found_of matches.now)) }
{
    let generate = count_if_given(matches.get_str("gen"))?;
    let seed = seed_if_given(matches.get_str("seed"))?;
    Some(Words {
        quiet: has_flag(matches, "quiet"),
        stat: has_flag(matches, "stat"),
        generate,
        seed: seed.unwrap_or(0),
    })
}

/// What the words behind a tool's name ask for, or none where they are refused. They are read by clap's rules: each of
/// `--quiet`, `--stat`, `--gen N` and `--seed K` may stand once, in any order, N and K also behind `=`, and `--` may
/// end them. Refused are an operand, any other option, also for help, an option twice, a flag with a text, an option
/// without its text, an N that is no number from 1 to 1,000,000, and a K that is no number, by the rule of scripts: one
/// to ten digits, at most 4,294,967,295. The rule is this project's own.
pub fn read_words(alloc: Global, words: &[String]) -> Result<Option<Words>, OutOfMemory>
    ensures { IfOk result (λ read. read ≡ words_of (map string_bytes words.now)) }
{
    match command(alloc)?.try_get_matches_from(words) {
        Ok(matches) => Ok(asked(&matches)),
        Err(e) if e.kind() == ErrorKind::OutOfMemory => Err(OutOfMemory),
        Err(_) => Ok(None),
    }
}
