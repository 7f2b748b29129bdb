//! What can be done with files.

use places::Text;

/// A command, with the names of its files.
#[derive(Clone, Copy)]
pub enum Command<'a> {
    /// A program is checked.
    Check {
        program: &'a str,
    },
    /// A program runs in a world by a schedule.
    Run {
        program: &'a str,
        world: &'a str,
        schedule: &'a str,
    },
    /// A program runs in a world, with a worker for each thread.
    Work {
        program: &'a str,
        world: &'a str,
    },
    /// The steps of a journal are taken again.
    Replay {
        program: &'a str,
        world: &'a str,
        journal: &'a str,
    },
}

/// What is told of a run beside its report.
#[derive(Clone, Copy)]
pub enum Trace {
    /// Its steps.
    Steps,
    /// Its calls alone.
    Calls,
}

impl<'a> Command<'a> {
    ghost use Rattle.std.specs.Prelude.{◌≡◌};
    ghost use Rattle.cli_commands.specs.Commands.{name_of, runs_workers};

    /// The name of the file of a text. A check has no file but its program, and what workers do no order of the steps.
    pub fn name_of(self, text: Text) -> &'a str
        ensures { result.now ≡ name_of self.entry text }
    {
        match (self, text) {
            (Command::Check { program }, _) => program,
            (Command::Run { program, .. }, Text::Program) => program,
            (Command::Run { world, .. }, Text::World) => world,
            (Command::Run { schedule, .. }, _) => schedule,
            (Command::Work { world, .. }, Text::World) => world,
            (Command::Work { program, .. }, _) => program,
            (Command::Replay { program, .. }, Text::Program) => program,
            (Command::Replay { world, .. }, Text::World) => world,
            (Command::Replay { journal, .. }, _) => journal,
        }
    }

    /// Whether workers run it. Nothing else that is done with files has to wait for a thread.
    pub fn runs_workers(self) -> bool
        ensures { result ≡ runs_workers self.entry }
    {
        matches!(self, Command::Work { .. })
    }
}
