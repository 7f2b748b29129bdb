//! The files that are read.

ghost use Rattle.std.specs.Prelude.{◌≡◌, ◌≤◌, ◌⊎◌, ℕ, List, Err, IfOk, vec_len};
ghost use Rattle.cli_commands.specs.Files.{AreGiven, AreTexts, LacksAny, LacksOne};

use crate::command::Command;
use places::Text;
use std::alloc::Global;
use std::io::Read;
use std::rt::Files as System;
use std::{fs, io};
use thiserror::Error;

/// The most bytes of a file.
pub const MOST_BYTES: usize = 4_194_304;

/// A file is not read.
#[derive(Clone, Copy, Debug, Error)]
pub enum FileFault {
    #[error("out of memory")]
    Memory,
    #[error("the file can't be read, or is too large")]
    File,
}

/// Where files are read.
pub trait Files {
    /// A file of this name may be read as these bytes.
    ghost gives: { Self → List ℕ → List ℕ → Type 0 };

    /// A file of this name may be one that can't be read, or is too large.
    ghost lacks: { Self → List ℕ → Type 0 };

    /// The bytes of the file, at most `MOST_BYTES`.
    fn read(&mut self, alloc: Global, name: &str) -> Result<Vec<u8>, FileFault>
        ensures content { IfOk result (λ bytes. gives self.old name.now bytes.items) }
        ensures lacking { result ≡ Err FileFault.File → lacks self.old name.now }
        ensures kept { (other bytes : List ℕ) → gives self.new other bytes → gives self.old other bytes }
        ensures still { (other : List ℕ) → lacks self.new other → lacks self.old other }
        ensures small { IfOk result (λ bytes. vec_len bytes ≤ MOST_BYTES) };
}

/// The texts of a command's files: the program, the world, and the order of the steps, a schedule or a journal. A text that a
/// command has no file for is empty: a check reads the program alone, and workers have no order.
#[derive(Drop)]
pub struct Texts {
    pub program: Vec<u8>,
    pub world: Vec<u8>,
    pub order: Vec<u8>,
}

impl Texts {
    ghost use Rattle.cli_commands.specs.Commands.{text_of};

    /// One of the texts.
    pub fn of(&self, text: Text) -> &[u8]
        ensures { result.now ≡ text_of self.now.program.items self.now.world.items self.now.order.items text }
    {
        match text {
            Text::Program => &self.program,
            Text::World => &self.world,
            Text::Schedule | Text::Journal => &self.order,
        }
    }
}

/// Reads three files, in this order.
fn read_three<F: Files>(
    alloc: Global,
    files: &mut F,
    program: &str,
    world: &str,
    order: &str,
) -> Result<Texts, FileFault>
    ensures given { IfOk result (λ texts. AreGiven
        (F.gives files.old) program.now world.now order.now texts.program.items texts.world.items texts.order.items) }
    ensures lacking { result ≡ Err FileFault.File → LacksAny (F.lacks files.old) program.now world.now order.now }
{
    let program = files.read(alloc, program)?;
    let world = files.read(alloc, world)?;
    let order = files.read(alloc, order)?;
    Ok(Texts {
        program,
        world,
        order,
    })
}

/// Reads two files, in this order.
fn read_two<F: Files>(
    alloc: Global,
    files: &mut F,
    program: &str,
    world: &str,
) -> Result<Texts, FileFault>
    ensures given { IfOk result (λ texts. F.gives files.old program.now texts.program.items × F.gives files.old world.now texts.world.items) }
    ensures lacking { result ≡ Err FileFault.File → F.lacks files.old program.now ⊎ F.lacks files.old world.now }
{
    let program = files.read(alloc, program)?;
    let world = files.read(alloc, world)?;
    Ok(Texts {
        program,
        world,
        order: Vec::new(alloc),
    })
}

/// Reads the files of a command.
pub fn read_texts<F: Files>(
    alloc: Global,
    files: &mut F,
    command: Command<'_>,
) -> Result<Texts, FileFault>
    ensures given { IfOk result (λ texts. AreTexts (F.gives files.old) command.entry texts.program.items texts.world.items texts.order.items) }
    ensures lacking { result ≡ Err FileFault.File → LacksOne (F.lacks files.old) command.entry }
{
    match command {
        Command::Check { program } => Ok(Texts {
            program: files.read(alloc, program)?,
            world: Vec::new(alloc),
            order: Vec::new(alloc),
        }),
        Command::Run {
            program,
            world,
            schedule,
        } => read_three(alloc, files, program, world, schedule),
        Command::Work { program, world } => read_two(alloc, files, program, world),
        Command::Replay {
            program,
            world,
            journal,
        } => read_three(alloc, files, program, world, journal),
    }
}

/// The files of the system.
#[derive(Drop)]
pub struct FileSystem<'a, R> {
    rt: &'a R,
}

impl<'a, R> FileSystem<'a, R> {
    pub fn new(rt: &'a R) -> FileSystem<'a, R> {
        FileSystem { rt }
    }
}

fn fault_of(error: io::Error) -> FileFault {
    match error.kind() {
        io::ErrorKind::OutOfMemory => FileFault::Memory,
        _ => FileFault::File,
    }
}

impl<R: System> Files for FileSystem<'_, R> {
    ghost gives = { λ _ _ _. Unit {0} };

    ghost lacks = { λ _ _. Unit {0} };

    fn read(&mut self, alloc: Global, name: &str) -> Result<Vec<u8>, FileFault> {
        let file = fs::open(self.rt, name).map_err(fault_of)?;
        let mut bytes = Vec::new(alloc);
        file.take(MOST_BYTES as u64 + 1)
            .read_to_end(&mut bytes)
            .map_err(fault_of)?;
        if bytes.len() > MOST_BYTES {
            return Err(FileFault::File);
        }
        Ok(bytes)
    }
}
