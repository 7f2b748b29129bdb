//! From words to what they ask for.

ghost use Rattle.std.specs.Prelude.{◌≡◌, ◌≢◌, IfOk, List, Some, codes, map, option_map};
ghost use Rattle.clap.specs.Faults.{fault_of};
ghost use Rattle.clap.specs.Kinds.{FailsBy};
ghost use Rattle.clap.specs.Matches.{found_of};
ghost use Rattle.clap.specs.Simple.{subcommand_of, subcommand_rows_of};
ghost use Rattle.clap.specs.Walk.{Row, first_of, rows_of};
ghost use Rattle.cli_words.specs.CommandLine.{command_line};
ghost use Rattle.cli_words.specs.Requests.{HasValue, HasValues, IsSaid, AreNamed, AreTraced, AsksFor, IsTold, AreParsed, AreRead};

use crate::command_line::command_line;
use crate::request::Request;
use clap::error::ErrorKind;
use clap::{ArgMatches, Error};
use cli_commands::{Command, Trace};
use cli_explanations::Explanation;
use std::alloc::{AllocError, Global};
use std::convert::AsStr;

/// A run, which goes by a schedule or by workers, and not by both.
fn run_of<'a>(
    program: &'a str,
    world: &'a str,
    schedule: Option<&'a str>,
    workers: Option<&'a str>,
) -> Option<Command<'a>>
    ensures { (rows : List Row) → HasValue rows (codes "PROG") program.entry.now
        → HasValue rows (codes "WORLD") world.entry.now
        → option_map (λ w. w.now) schedule.entry ≡ first_of (codes "FILE") rows
        → option_map (λ w. w.now) workers.entry ≡ first_of (codes "WORKERS") rows
        → AreNamed (codes "run") rows result }
{
    match (schedule, workers) {
        (None, Some("true")) => Some(Command::Work { program, world }),
        (Some(_), Some("true")) => None,
        (Some(schedule), _) => Some(Command::Run {
            program,
            world,
            schedule,
        }),
        (None, _) => None,
    }
}

/// The check of these programs, of one or of more, with all their faults or the first of each, or the log of their faults.
fn check_of<'a>(
    alloc: Global,
    programs: &[&'a str],
    all: Option<&'a str>,
    sarif: Option<&'a str>,
) -> Result<Request<'a>, AllocError>
    ensures { (rows : List Row) → HasValues rows (codes "PROG") (map (λ p. p.now) programs.now)
        → option_map (λ w. w.now) all.entry ≡ first_of (codes "ALL") rows
        → option_map (λ w. w.now) sarif.entry ≡ first_of (codes "SARIF") rows
        → IfOk result (AsksFor (Some (codes "check", rows))) }
{
    match (programs, all, sarif) {
        ([], _, _) => Ok(Request::LacksOrder),
        ([_, ..], _, Some("true")) => Ok(Request::WriteLog(programs.to_vec(alloc)?)),
        ([_, ..], Some("true"), _) => Ok(Request::CheckAll(programs.to_vec(alloc)?)),
        ([program], _, _) => Ok(Request::Serve(Command::Check { program: *program })),
        ([_, _, ..], _, _) => Ok(Request::CheckEach(programs.to_vec(alloc)?)),
    }
}

/// The check that the words after the command's name ask for.
fn checked<'a>(alloc: Global, given: &ArgMatches<'a>) -> Result<Request<'a>, AllocError>
    ensures { IfOk result (AsksFor (Some (codes "check", rows_of (found_of given.now)))) }
{
    match given.get_raw("PROG") {
        Some(programs) => check_of(
            alloc,
            programs,
            given.get_str("ALL"),
            given.get_str("SARIF"),
        ),
        None => Ok(Request::LacksOrder),
    }
}

/// What is to be done with the files of a program and of a world, by the command's name and the words that are given.
fn command_of<'a>(
    name: &str,
    program: &'a str,
    world: Option<&'a str>,
    schedule: Option<&'a str>,
    workers: Option<&'a str>,
    journal: Option<&'a str>,
) -> Option<Command<'a>>
    requires { name.now ≢ codes "check" }
    ensures { (rows : List Row) → HasValue rows (codes "PROG") program.entry.now
        → option_map (λ w. w.now) world.entry ≡ first_of (codes "WORLD") rows
        → option_map (λ w. w.now) schedule.entry ≡ first_of (codes "FILE") rows
        → option_map (λ w. w.now) workers.entry ≡ first_of (codes "WORKERS") rows
        → option_map (λ w. w.now) journal.entry ≡ first_of (codes "JOURNAL") rows → AreNamed name.now rows result }
{
    match (name, world, journal) {
        ("run", Some(world), _) => run_of(program, world, schedule, workers),
        ("replay", Some(world), Some(journal)) => Some(Command::Replay {
            program,
            world,
            journal,
        }),
        _ => None,
    }
}

/// What is to be done with the files of a program and of a world, as the words after the command's name say.
fn served<'a>(name: &str, given: &ArgMatches<'a>) -> Option<Command<'a>>
    requires { name.now ≢ codes "check" }
    ensures { AreNamed name.now (rows_of (found_of given.now)) result }
{
    command_of(
        name,
        given.get_str("PROG")?,
        given.get_str("WORLD"),
        given.get_str("FILE"),
        given.get_str("WORKERS"),
        given.get_str("JOURNAL"),
    )
}

/// What is traced: of words for both the calls alone.
fn traced_of(steps: Option<&str>, calls: Option<&str>) -> Option<Trace>
    ensures { (rows : List Row) → option_map (λ w. w.now) steps.entry ≡ first_of (codes "TRACE") rows
        → option_map (λ w. w.now) calls.entry ≡ first_of (codes "TRACE_CALLS") rows → AreTraced rows result }
{
    match (steps, calls) {
        (_, Some("true")) => Some(Trace::Calls),
        (Some("true"), _) => Some(Trace::Steps),
        _ => None,
    }
}

/// What is traced of a run or a replay, as the words after the command's name say.
fn traced(given: &ArgMatches<'_>) -> Option<Trace>
    ensures { AreTraced (rows_of (found_of given.now)) result }
{
    traced_of(given.get_str("TRACE"), given.get_str("TRACE_CALLS"))
}

/// What the words after `explain` ask for: a fault by its number, or a trap by `trap` and its number.
fn explanation_of(first: &str, second: Option<&str>) -> Option<Explanation>
    ensures { (rows : List Row) → HasValue rows (codes "N") first.now
        → option_map (λ w. w.now) second.entry ≡ first_of (codes "NUMBER") rows
        → IsSaid rows result }
{
    match second {
        None => cli_explanations::fault(first.parse::<u32>().ok()?),
        Some(number) if first == "trap" => cli_explanations::trap(number.parse::<u32>().ok()?),
        Some(_) => None,
    }
}

/// What is to be explained.
fn explained(given: &ArgMatches<'_>) -> Option<Explanation>
    ensures { IsSaid (rows_of (found_of given.now)) result }
{
    explanation_of(given.get_str("N")?, given.get_str("NUMBER"))
}

/// What words ask for that `clap` takes.
fn asked_of<'a>(alloc: Global, matches: &ArgMatches<'a>) -> Result<Request<'a>, AllocError>
    ensures { IfOk result (AsksFor (subcommand_rows_of matches.now)) }
{
    match matches.subcommand() {
        Some(("explain", given)) => Ok(Request::Explain(explained(given))),
        Some(("check", given)) => checked(alloc, given),
        Some((name, given)) => match served(name, given) {
            Some(command) => match traced(given) {
                Some(trace) => Ok(Request::Trace(command, trace)),
                None => Ok(Request::Serve(command)),
            },
            None => Ok(Request::LacksOrder),
        },
        None => Ok(Request::LacksOrder),
    }
}

/// The words, as `clap` reads them.
fn matches_of<'a, S: AsStr>(alloc: Global, words: &'a [S]) -> Result<ArgMatches<'a>, Error>
    ensures kinds { FailsBy (fault_of command_line (map S.text words.now)) result }
    ensures found { IfOk result (λ m. subcommand_rows_of m ≡ subcommand_of command_line (map S.text words.now)) }
{
    match command_line(alloc) {
        Ok(command) => command.try_get_matches_from(words),
        Err(refused) => Err(Error::from(refused)),
    }
}

/// What the words ask for, as `clap` reads them.
fn parse<'a, S: AsStr>(alloc: Global, words: &'a [S]) -> Result<Request<'a>, Error>
    ensures { AreParsed (map S.text words.now) result }
{
    let matches = matches_of(alloc, words)?;
    match asked_of(alloc, &matches) {
        Ok(request) => Ok(request),
        Err(refused) => Err(Error::from(refused)),
    }
}

/// What words ask for that `clap` doesn't take: its help or its version, or why they are no command line.
fn told<'a>(alloc: Global, error: &Error) -> Request<'a>
    ensures { IsTold error.now result }
{
    let text = match format!(in alloc; "{error}") {
        Ok(text) => text,
        Err(_) => return Request::LacksMemory,
    };
    match error.kind() {
        ErrorKind::DisplayHelp | ErrorKind::DisplayVersion => Request::Show(text),
        ErrorKind::OutOfMemory => Request::LacksMemory,
        _ => Request::Misuse(text),
    }
}

/// What the words ask for. The first is the program's name.
pub fn read<'a, S: AsStr>(alloc: Global, words: &'a [S]) -> Request<'a>
    ensures { AreRead (map S.text words.now) result }
{
    match parse(alloc, words) {
        Ok(request) => request,
        Err(error) => told(alloc, &error),
    }
}
