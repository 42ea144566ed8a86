//! What the words of the program ask for.
ghost use Rattle.std.specs.Prelude.{◌≡◌, IfOk, IfErr, Some, map, option_map, string_bytes};
ghost use Rattle.clap.specs.Words.{subcommand_rows_of};
ghost use Rattle.ffi3_cli_spec.specs.WordCommands.{asked, bench_of, is_set, number_of, request_of, target_of};
ghost use Rattle.ffi3_cli_spec.specs.Words.{IsStated, Takes, target_word};
ghost use Rattle.ffi3_cli.specs.WordAnswers.{IsAnswered, IsInRange, IsWordsRefusal, IsToldAs};

use crate::command::program;
use crate::help;
use clap::error::ErrorKind;
use clap::{ArgMatches, Error};
use ffi3_cli_spec::words::{InputCommand, Request};
use ffi3_type_spec::limits::MOST_CALLS;
use ffi3_types::Target;
use itoa::Buffer;
use std::alloc::Global;

/// Why the words ask for nothing that can be done.
#[derive(Debug, Drop)]
pub enum WordsFault {
    /// `clap` refuses the words, or they ask for help or the version: its text for the user, with its last newline.
    /// Or a number of `bench` is none, or out of its range, and the text says so.
    Refused(String),
    /// Memory was refused.
    NoMemory,
}

/// Reads the words, of which the first is the program's name.
pub fn read_words(alloc: Global, words: Vec<String>) -> Result<Request, WordsFault>
    ensures takes { IfOk result (Takes (map string_bytes words.items)) }
    ensures in_range { IfOk result IsInRange }
    ensures refused { IfErr result (IsWordsRefusal (map string_bytes words.items)) }
    ensures one { (r : Request) → Takes (map string_bytes words.items) r →
        IfOk result (λ q. q ≡ r) × IfErr result (λ e. e ≡ WordsFault.NoMemory) }
    ensures stated { (r : Request) → IsStated (map string_bytes words.items) r →
        IfOk result (λ q. q ≡ r) × IfErr result (λ e. e ≡ WordsFault.NoMemory) }
{
    answer(alloc, &words)
}

/// The same: what `clap` makes of the words, from which all else follows.
fn answer(alloc: Global, words: &Vec<String>) -> Result<Request, WordsFault>
    ensures { IsAnswered (map string_bytes words.now.items) result }
{
    let Ok(command) = program(alloc) else {
        return Err(WordsFault::NoMemory);
    };
    match command.try_get_matches_from(words.as_slice()) {
        Ok(matches) => match asked(&matches) {
            Some(request) => Ok(request),
            None => Err(no_numbers(alloc)),
        },
        Err(error) => Err(refusal(alloc, &error)),
    }
}

/// What the matches ask for.
fn asked(matches: &ArgMatches<'_>) -> Option<Request>
    ensures { result ≡ asked (subcommand_rows_of matches.now) }
{
    let (name, options) = matches.subcommand()?;
    request_of(
        name,
        options.get_str("target"),
        options.get_str("trace"),
        options.get_str("seed"),
        options.get_str("calls"),
    )
}

/// What a command asks for, with its target, its flag and its numbers.
fn request_of(
    name: &str,
    target: Option<&str>,
    trace: Option<&str>,
    seed: Option<&str>,
    calls: Option<&str>,
) -> Option<Request>
    ensures { result ≡ request_of name.now (option_map (λ t. t.now) target.entry) (option_map (λ t. t.now) trace.entry) (option_map (λ t. t.now) seed.entry) (option_map (λ t. t.now) calls.entry) }
{
    if name == "layout" {
        return Some(Request::OnInput(InputCommand::Layout));
    }
    if name == "cdecl" {
        return Some(Request::OnInput(InputCommand::Cdecl));
    }
    if name == "cplace" {
        return Some(Request::OnInput(InputCommand::Cplace));
    }
    if name == "explain" {
        return Some(Request::OnInput(InputCommand::Explain));
    }
    if name == "arguments" {
        return Some(Request::OnInput(InputCommand::Arguments));
    }
    if name == "bench" {
        return bench_of(seed, calls);
    }
    let target = target_of(target?)?;
    if name == "place" {
        return Some(Request::OnInput(InputCommand::Place { target }));
    }
    if name == "run" {
        return Some(Request::OnInput(InputCommand::Run {
            target,
            trace: is_set(trace),
        }));
    }
    None
}

/// What `bench` asks for with these numbers.
fn bench_of(seed: Option<&str>, calls: Option<&str>) -> Option<Request>
    ensures { result ≡ bench_of (option_map (λ t. t.now) seed.entry) (option_map (λ t. t.now) calls.entry) }
{
    let seed = number_of(seed?)?;
    let calls = number_of(calls?)?;
    if 1 <= calls && calls as u64 <= MOST_CALLS {
        return Some(Request::Bench { seed, calls });
    }
    None
}

/// The number of 32 bits that the digits write, with no sign and no leading zero.
fn number_of(word: &str) -> Option<u32>
    ensures { result ≡ number_of word.now }
{
    let Ok(number) = word.parse::<u32>() else {
        return None;
    };
    let mut buffer = Buffer::new();
    if buffer.format(number) == word {
        return Some(number);
    }
    None
}

/// Whether a flag of this value is set.
fn is_set(value: Option<&str>) -> bool
    ensures { result ≡ is_set (option_map (λ t. t.now) value.entry) }
{
    match value {
        Some(word) => word == "true",
        None => false,
    }
}

/// The target of this name.
fn target_of(word: &str) -> Option<Target>
    ensures { result ≡ target_of word.now }
{
    if word == "amd64" {
        return Some(Target::Amd64);
    }
    if word == "aapcs64" {
        return Some(Target::Aapcs64);
    }
    if word == "riscv" {
        return Some(Target::Riscv);
    }
    if word == "win64" {
        return Some(Target::Win64);
    }
    if word == "apple" {
        return Some(Target::Apple);
    }
    None
}

/// The name of a target.
pub fn target_word(target: Target) -> &'static str
    ensures { result.now ≡ target_word target }
{
    match target {
        Target::Amd64 => "amd64",
        Target::Aapcs64 => "aapcs64",
        Target::Riscv => "riscv",
        Target::Win64 => "win64",
        Target::Apple => "apple",
    }
}

/// An error of `clap` as a fault.
fn refusal(alloc: Global, error: &Error) -> WordsFault
    ensures { IsToldAs error.now result }
{
    if error.kind() == ErrorKind::OutOfMemory {
        return WordsFault::NoMemory;
    }
    match format!(in alloc; "{error}") {
        Ok(text) => WordsFault::Refused(text),
        Err(_) => WordsFault::NoMemory,
    }
}

/// The fault of words whose numbers are none, or out of their ranges.
fn no_numbers(alloc: Global) -> WordsFault {
    match String::from_str(alloc, help::NO_NUMBERS) {
        Ok(text) => WordsFault::Refused(text),
        Err(_) => WordsFault::NoMemory,
    }
}
