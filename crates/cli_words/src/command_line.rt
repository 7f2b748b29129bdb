//! The command line, as `clap` takes it.

ghost use Rattle.std.specs.Prelude.{◌≡◌, ℕ, List, [], ◌∷◌, ◌++◌, IfOk, false, codes};
ghost use Rattle.clap.specs.Simple.{Shape, app_of, with_subcommand};
ghost use Rattle.clap.specs.Walk.{Rule, rule_of};
ghost use Rattle.cli_words.specs.CommandLine.{required, several, optional, flag, after, words_of, files, IsLeaf, trace_rule, trace_calls_rule, check_words, run_words, replay_words, explain_words, line, command_line};

use clap::{Arg, ArgAction, Command};
use std::alloc::{AllocError, Global};

/// A word that must be given.
fn required<'a>(alloc: Global, name: &'a str, help: &'a str) -> Arg<'a>
    ensures rule { rule_of result ≡ required name.entry.now }
    ensures local { result.global ≡ false }
{
    Arg::new(alloc, name).required(true).help(help)
}

/// A word that must be given, and may be given more than once.
fn several<'a>(alloc: Global, name: &'a str, help: &'a str) -> Arg<'a>
    ensures rule { rule_of result ≡ several name.entry.now }
    ensures local { result.global ≡ false }
{
    required(alloc, name, help).action(ArgAction::Append)
}

/// A word that may be left out.
fn optional<'a>(alloc: Global, name: &'a str, help: &'a str) -> Arg<'a>
    ensures rule { rule_of result ≡ optional name.entry.now }
    ensures local { result.global ≡ false }
{
    Arg::new(alloc, name).help(help)
}

/// A word that may be given after another, which begins with two dashes.
fn after<'a>(alloc: Global, option: &'a str, name: &'a str, help: &'a str) -> Arg<'a>
    ensures rule { rule_of result ≡ after option.entry.now name.entry.now }
    ensures local { result.global ≡ false }
{
    Arg::new(alloc, name).long(option).help(help)
}

/// A word that stands for itself, and begins with two dashes.
fn flag<'a>(alloc: Global, option: &'a str, name: &'a str, help: &'a str) -> Arg<'a>
    ensures rule { rule_of result ≡ flag option.entry.now name.entry.now }
    ensures local { result.global ≡ false }
{
    Arg::new(alloc, name)
        .long(option)
        .action(ArgAction::SetTrue)
        .help(help)
}

/// The file of the program.
fn program<'a>(alloc: Global) -> Arg<'a>
    ensures rule { rule_of result ≡ required (codes "PROG") }
    ensures local { result.global ≡ false }
{
    required(alloc, "PROG", "The text of the native methods")
}

/// The file of the world.
fn world<'a>(alloc: Global) -> Arg<'a>
    ensures rule { rule_of result ≡ required (codes "WORLD") }
    ensures local { result.global ≡ false }
{
    required(
        alloc,
        "WORLD",
        "The heap, the classes, the objects and the threads",
    )
}

/// The file of the schedule.
fn schedule<'a>(alloc: Global) -> Arg<'a>
    ensures rule { rule_of result ≡ after (codes "schedule") (codes "FILE") }
    ensures local { result.global ≡ false }
{
    after(
        alloc,
        "schedule",
        "FILE",
        "The order in which the threads step",
    )
}

/// That workers run the threads.
fn workers<'a>(alloc: Global) -> Arg<'a>
    ensures rule { rule_of result ≡ flag (codes "workers") (codes "WORKERS") }
    ensures local { result.global ≡ false }
{
    flag(
        alloc,
        "workers",
        "WORKERS",
        "Runs each thread in a thread of the system, in place of a schedule",
    )
}

/// The file of the journal.
fn journal<'a>(alloc: Global) -> Arg<'a>
    ensures rule { rule_of result ≡ required (codes "JOURNAL") }
    ensures local { result.global ≡ false }
{
    required(
        alloc,
        "JOURNAL",
        "The steps that were taken, in their order",
    )
}

/// That a log is written.
fn sarif<'a>(alloc: Global) -> Arg<'a>
    ensures rule { rule_of result ≡ flag (codes "sarif") (codes "SARIF") }
    ensures local { result.global ≡ false }
{
    flag(
        alloc,
        "sarif",
        "SARIF",
        "Prints a log of all faults in SARIF 2.1.0",
    )
}

/// That all faults are told.
fn all<'a>(alloc: Global) -> Arg<'a>
    ensures rule { rule_of result ≡ flag (codes "all") (codes "ALL") }
    ensures local { result.global ≡ false }
{
    flag(
        alloc,
        "all",
        "ALL",
        "Prints all faults that can be told, in text order, and not only the first",
    )
}

/// `check PROG`, of one program or of more.
fn check_command<'a>(alloc: Global) -> Result<Command<'a>, AllocError>
    ensures { IfOk result (IsLeaf check_words) }
{
    Command::new(alloc, "check")
        .about("Checks programs, and prints of each ok or its first fault")
        .arg(several(
            alloc,
            "PROG",
            "The text of the native methods; of several, each line begins with the name",
        ))?
        .arg(all(alloc))?
        .arg(sarif(alloc))
}

/// That steps are traced.
fn trace<'a>(alloc: Global) -> Arg<'a>
    ensures rule { rule_of result ≡ flag (codes "trace") (codes "TRACE") }
    ensures local { result.global ≡ false }
{
    flag(alloc, "trace", "TRACE", "Traces the steps")
}

/// That calls alone are traced.
fn trace_calls<'a>(alloc: Global) -> Arg<'a>
    ensures rule { rule_of result ≡ flag (codes "trace-calls") (codes "TRACE_CALLS") }
    ensures local { result.global ≡ false }
{
    flag(
        alloc,
        "trace-calls",
        "TRACE_CALLS",
        "Traces the calls alone",
    )
}

/// A command that can be traced.
fn with_traces<'a>(alloc: Global, command: Command<'a>) -> Result<Command<'a>, AllocError>
    ensures { (name : List ℕ) → (rules : List Rule) → IsLeaf (words_of name rules) command.entry
        → IfOk result (IsLeaf (words_of name ((rules ++ trace_rule ∷ []) ++ trace_calls_rule ∷ []))) }
{
    command.arg(trace(alloc))?.arg(trace_calls(alloc))
}

/// A command with the files of a program and of a world.
fn with_files<'a>(alloc: Global, command: Command<'a>) -> Result<Command<'a>, AllocError>
    ensures { (name : List ℕ) → IsLeaf (words_of name []) command.entry → IfOk result (IsLeaf (words_of name files)) }
{
    command.arg(program(alloc))?.arg(world(alloc))
}

/// `run PROG WORLD --schedule FILE`, or `run PROG WORLD --workers`.
fn run_command<'a>(alloc: Global) -> Result<Command<'a>, AllocError>
    ensures { IfOk result (IsLeaf run_words) }
{
    let command = Command::new(alloc, "run").about(
        "Runs a program in a world, and prints its report and its journal",
    );
    let command = with_files(alloc, command)?
        .arg(schedule(alloc))?
        .arg(workers(alloc))?;
    with_traces(alloc, command)
}

/// `replay PROG WORLD JOURNAL`.
fn replay_command<'a>(alloc: Global) -> Result<Command<'a>, AllocError>
    ensures { IfOk result (IsLeaf replay_words) }
{
    let command = Command::new(alloc, "replay").about(
        "Takes the steps of a journal again, and prints the report and the journal",
    );
    let command = with_files(alloc, command)?.arg(journal(alloc))?;
    with_traces(alloc, command)
}

/// `explain N` or `explain trap N`.
fn explain_command<'a>(alloc: Global) -> Result<Command<'a>, AllocError>
    ensures { IfOk result (IsLeaf explain_words) }
{
    Command::new(alloc, "explain")
        .about("Explains fault N, or trap N: its rule, a minimal example, and the fix")
        .arg(required(alloc, "N", "The number of a fault, or `trap`"))?
        .arg(optional(alloc, "NUMBER", "The number of a trap, after `trap`"))
}

/// The line with a command more.
fn with_command<'a>(
    line: Command<'a>,
    command: Result<Command<'a>, AllocError>,
) -> Result<Command<'a>, AllocError>
    ensures { (words : Shape) → IfOk command.entry (IsLeaf words)
        → IfOk result (λ c. app_of c ≡ with_subcommand (app_of line.entry) words) }
{
    match command {
        Ok(command) => line.subcommand(command),
        // To drop the line by a call is cheaper to prove than to leave it to the return.
        Err(refused) => {
            drop(line);
            Err(refused)
        }
    }
}

/// The program's name and its settings, and the first command.
fn with_check<'a>(alloc: Global) -> Result<Command<'a>, AllocError>
    ensures { IfOk result (λ c. app_of c ≡ with_subcommand line check_words) }
{
    let line = Command::new(alloc, "jnirun")
        .version("0.1.0")
        .about("Runs Java native methods on a heap whose objects move")
        .subcommand_required(true);
    with_command(line, check_command(alloc))
}

/// The first two commands.
fn with_run<'a>(alloc: Global) -> Result<Command<'a>, AllocError>
    ensures { IfOk result (λ c. app_of c ≡ with_subcommand (with_subcommand line check_words) run_words) }
{
    with_command(with_check(alloc)?, run_command(alloc))
}

/// The first three.
fn with_replay<'a>(alloc: Global) -> Result<Command<'a>, AllocError>
    ensures { IfOk result (λ c. app_of c ≡ with_subcommand
        (with_subcommand (with_subcommand line check_words) run_words) replay_words) }
{
    with_command(with_run(alloc)?, replay_command(alloc))
}

/// The words that are taken.
pub fn command_line<'a>(alloc: Global) -> Result<Command<'a>, AllocError>
    ensures { IfOk result (λ c. app_of c ≡ command_line) }
{
    with_command(with_replay(alloc)?, explain_command(alloc))
}
