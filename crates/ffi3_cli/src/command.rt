//! The program's commands and options.
ghost use Rattle.std.specs.Prelude.{◌≡◌, IfOk, false, codes};
ghost use Rattle.clap.specs.Words.{app_of, rule_of, shape_of};
ghost use Rattle.clap.specs.declared.builder.command.Command.TheViews.{out-Command};
ghost use Rattle.ffi3_cli_spec.specs.WordCommands.{arguments_shape, bench_shape, calls_rule, cdecl_shape, cplace_shape, explain_shape, layout_shape, program_alone, seed_rule, targets, trace_rule};
ghost use Rattle.ffi3_cli.specs.CommandParts.{IsProgram, IsTargetRule, HasTarget, IsTraceable};

use crate::help;
use clap::{Arg, ArgAction, Command};
use std::alloc::{AllocError, Global};

/// The words of the targets.
static TARGETS: [&str; 5] = ["amd64", "aapcs64", "riscv", "win64", "apple"];

/// The program, its commands and their options.
pub fn program<'a>(alloc: Global) -> Result<Command<'a>, AllocError>
    ensures { IfOk result (λ c. IsProgram (app_of c)) }
{
    program_alone(alloc)
        .subcommand(layout(alloc))?
        .subcommand(place(alloc)?)?
        .subcommand(run(alloc)?)?
        .subcommand(bench(alloc)?)?
        .subcommand(cdecl(alloc))?
        .subcommand(cplace(alloc))?
        .subcommand(explain(alloc))?
        .subcommand(arguments(alloc))
}

/// The program without its commands, of which one is required.
fn program_alone<'a>(alloc: Global) -> Command<'a>
    ensures { app_of result ≡ program_alone }
{
    Command::new(alloc, "ffi3")
        .version(help::VERSION)
        .about(help::ABOUT)
        .long_about(help::LONG_ABOUT)
        .after_help(help::AFTER_HELP)
        .subcommand_required(true)
        .arg_required_else_help(true)
}

fn layout<'a>(alloc: Global) -> Command<'a>
    ensures shape { shape_of result ≡ layout_shape }
    ensures local { (out-Command result).has_globals ≡ false }
{
    Command::new(alloc, "layout")
        .about(help::LAYOUT_ABOUT)
        .long_about(help::LAYOUT_LONG_ABOUT)
        .after_help(help::LAYOUT_AFTER_HELP)
}

fn place<'a>(alloc: Global) -> Result<Command<'a>, AllocError>
    ensures shape { IfOk result (λ c. HasTarget (codes "place") targets (shape_of c)) }
    ensures local { IfOk result (λ c. (out-Command c).has_globals ≡ false) }
{
    Command::new(alloc, "place")
        .about(help::PLACE_ABOUT)
        .long_about(help::PLACE_LONG_ABOUT)
        .after_help(help::PLACE_AFTER_HELP)
        .arg(target(alloc, TARGETS.as_slice()))
}

fn run<'a>(alloc: Global) -> Result<Command<'a>, AllocError>
    ensures shape { IfOk result (λ c. IsTraceable (codes "run") targets (shape_of c)) }
    ensures local { IfOk result (λ c. (out-Command c).has_globals ≡ false) }
{
    Command::new(alloc, "run")
        .about(help::RUN_ABOUT)
        .long_about(help::RUN_LONG_ABOUT)
        .after_help(help::RUN_AFTER_HELP)
        .arg(target(alloc, TARGETS.as_slice()))?
        .arg(trace(alloc))
}

fn bench<'a>(alloc: Global) -> Result<Command<'a>, AllocError>
    ensures shape { IfOk result (λ c. shape_of c ≡ bench_shape) }
    ensures local { IfOk result (λ c. (out-Command c).has_globals ≡ false) }
{
    Command::new(alloc, "bench")
        .about(help::BENCH_ABOUT)
        .long_about(help::BENCH_LONG_ABOUT)
        .after_help(help::BENCH_AFTER_HELP)
        .arg(seed(alloc))?
        .arg(calls(alloc))
}

fn cdecl<'a>(alloc: Global) -> Command<'a>
    ensures shape { shape_of result ≡ cdecl_shape }
    ensures local { (out-Command result).has_globals ≡ false }
{
    Command::new(alloc, "cdecl")
        .about(help::CDECL_ABOUT)
        .long_about(help::CDECL_LONG_ABOUT)
        .after_help(help::CDECL_AFTER_HELP)
}

fn cplace<'a>(alloc: Global) -> Command<'a>
    ensures shape { shape_of result ≡ cplace_shape }
    ensures local { (out-Command result).has_globals ≡ false }
{
    Command::new(alloc, "cplace")
        .about(help::CPLACE_ABOUT)
        .long_about(help::CPLACE_LONG_ABOUT)
        .after_help(help::CPLACE_AFTER_HELP)
}

fn explain<'a>(alloc: Global) -> Command<'a>
    ensures shape { shape_of result ≡ explain_shape }
    ensures local { (out-Command result).has_globals ≡ false }
{
    Command::new(alloc, "explain")
        .about(help::EXPLAIN_ABOUT)
        .long_about(help::EXPLAIN_LONG_ABOUT)
        .after_help(help::EXPLAIN_AFTER_HELP)
}

fn arguments<'a>(alloc: Global) -> Command<'a>
    ensures shape { shape_of result ≡ arguments_shape }
    ensures local { (out-Command result).has_globals ≡ false }
{
    Command::new(alloc, "arguments")
        .about(help::ARGUMENTS_ABOUT)
        .long_about(help::ARGUMENTS_LONG_ABOUT)
        .after_help(help::ARGUMENTS_AFTER_HELP)
}

/// The option `--target`, which has to be one of these words.
fn target<'a>(alloc: Global, words: &'a [&'a str]) -> Arg<'a>
    ensures rule { IsTargetRule words.now (rule_of result) }
    ensures local { result.global ≡ false }
{
    Arg::new(alloc, "target")
        .long("target")
        .value_name("TARGET")
        .required(true)
        .value_parser(words)
        .help(help::TARGET_HELP)
}

/// The flag `--trace`.
fn trace<'a>(alloc: Global) -> Arg<'a>
    ensures rule { rule_of result ≡ trace_rule }
    ensures local { result.global ≡ false }
{
    Arg::new(alloc, "trace")
        .long("trace")
        .action(ArgAction::SetTrue)
        .help(help::TRACE_HELP)
}

/// The option `--seed`, whose value is any text to `clap`.
fn seed<'a>(alloc: Global) -> Arg<'a>
    ensures rule { rule_of result ≡ seed_rule }
    ensures local { result.global ≡ false }
{
    Arg::new(alloc, "seed")
        .long("seed")
        .value_name("N")
        .required(true)
        .help(help::SEED_HELP)
}

/// The option `--calls`, whose value is any text to `clap`.
fn calls<'a>(alloc: Global) -> Arg<'a>
    ensures rule { rule_of result ≡ calls_rule }
    ensures local { result.global ≡ false }
{
    Arg::new(alloc, "calls")
        .long("calls")
        .value_name("M")
        .required(true)
        .help(help::CALLS_HELP)
}
