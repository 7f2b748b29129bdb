//! Runs a program in a world by the calls of a machine, of seats or of workers, and asks each call that is refused memory again:
//! `test_refusals machine PROG WORLD SCHEDULE`, `seats PROG WORLD SCHEDULE` or `workers PROG WORLD`.
//!
//! The report is written, and the status says what came of it. What a refused call may not change is compared with what
//! it was before.
#![tactic(auto)]

mod failure;
mod seats;
mod seen;
mod steps;
mod workers;

use crate::failure::Failure;
use crate::seats::by_seats;
use crate::seen::reported;
use crate::steps::by_steps;
use crate::workers::by_workers;
use cli_commands::{FileSystem, Files};
use lower::lower;
use machine::Machine;
use program_check::read_program;
use std::alloc::Global;
use std::env::Args;
use std::io::Write;
use std::process::ExitCode;
use std::rt::Files as System;
use std::sync::Wait;
use std::thread::Threads;
use world::read_world;
use world_schedules::{Schedule, read_schedule};

/// How the machine is driven.
#[derive(Clone, Copy)]
enum Way {
    Steps,
    Seats,
    Workers,
}

/// The way of this name.
fn way_of(name: &str) -> Option<Way> {
    match name.as_bytes() {
        b"machine" => Some(Way::Steps),
        b"seats" => Some(Way::Seats),
        b"workers" => Some(Way::Workers),
        _ => None,
    }
}

/// The report of a run.
fn run<R: AllocGlobal + Threads + Wait + Sync>(
    rt: &R,
    way: Way,
    mut machine: Machine<'_>,
    schedule: &Schedule,
) -> Result<Vec<u8>, Failure> {
    match way {
        Way::Steps => {
            by_steps(rt.alloc(), &mut machine, schedule)?;
            reported(rt.alloc(), &machine)
        }
        Way::Seats => by_seats(rt, rt.alloc(), machine, schedule),
        Way::Workers => by_workers(rt, rt.alloc(), machine),
    }
}

/// The report of a run of texts.
fn run_texts<R: AllocGlobal + Threads + Wait + Sync>(
    rt: &R,
    way: Way,
    program: &[u8],
    world: &[u8],
    schedule: &[u8],
) -> Result<Vec<u8>, Failure> {
    let alloc = rt.alloc();
    let Ok(checked) = read_program(alloc, program) else {
        return Err(Failure::Memory);
    };
    let Ok(world) = read_world(alloc, world) else {
        return Err(Failure::Memory);
    };
    let threads = world.threads().len().min(8) as u8;
    let Ok(schedule) = read_schedule(alloc, schedule, threads) else {
        return Err(Failure::Memory);
    };
    let Ok(lowered) = lower(alloc, &checked) else {
        return Err(Failure::Memory);
    };
    match Machine::load(alloc, lowered, world) {
        Ok(machine) => run(rt, way, machine, &schedule),
        Err(_) => Err(Failure::Memory),
    }
}

/// The bytes of a file, and none where none is named.
fn read<R: System>(rt: &R, alloc: Global, name: Option<&String>) -> Result<Vec<u8>, Failure> {
    match name {
        Some(name) => match FileSystem::new(rt).read(alloc, name) {
            Ok(bytes) => Ok(bytes),
            Err(_) => Err(Failure::Memory),
        },
        None => Ok(Vec::new(alloc)),
    }
}

/// The report of what the words ask for.
fn answer<R: AllocGlobal + System + Threads + Wait + Sync>(
    rt: &R,
    words: Args,
) -> Result<Vec<u8>, Failure> {
    let alloc = rt.alloc();
    let Ok(words) = words.collect::<Vec<String>>(alloc) else {
        return Err(Failure::Memory);
    };
    let Some(way) = words.get(1).and_then(|name| way_of(name)) else {
        return Err(Failure::Words);
    };
    let program = read(rt, alloc, words.get(2))?;
    let world = read(rt, alloc, words.get(3))?;
    let schedule = read(rt, alloc, words.get(4))?;
    run_texts(rt, way, &program, &world, &schedule)
}

fn main(rt: HostRuntime) -> ExitCode {
    let answered = match std::env::args(&rt) {
        Ok(words) => answer(&rt, words),
        Err(_) => Err(Failure::Memory),
    };
    match answered {
        Ok(report) => match rt.stdout().write_all(&report) {
            Ok(()) => ExitCode::SUCCESS,
            Err(_) => ExitCode::from(Failure::Words.status()),
        },
        Err(failure) => ExitCode::from(failure.status()),
    }
}
