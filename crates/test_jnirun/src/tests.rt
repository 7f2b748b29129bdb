//! Texts, files and writers.

use jnirun::{
    Command, DONE, FAILED, FileFault, Files, REFUSED, TrapAt, check_text, replay_text, run_text,
    serve, work_text,
};
use sinks::StdSink;
use std::alloc::Global;
use std::io;
use std::io::{ErrorKind, Write};
use std::sync::Wait;
use std::test::Fail;
use std::thread::Threads;

const PROGRAM: &[u8] = b"JNIEXPORT jint JNICALL Java_A_f(JNIEnv *env, jclass cls) { return 0; }";

const OPEN: &[u8] =
    b"JNIEXPORT void JNICALL Java_A_f(JNIEnv *env, jclass cls)\n{\n\tput_jint(1); }";

const TRAPPING: &[u8] =
    b"JNIEXPORT void JNICALL Java_A_f(JNIEnv *env, jclass cls)\n{\n\tput_jint((jint)(1u / 0u)); return; }";

const WORLD: &[u8] = b"heap 512\nclass A\nthread Java_A_f\n";

const REPORT: &[u8] = b"T1 ended\njournal 1 1 1\n";

const CHECK: Command = Command::Check { program: "p" };

const RUN: Command = Command::Run {
    program: "p",
    world: "w",
    schedule: "s",
};

const WORK: Command = Command::Work {
    program: "p",
    world: "w",
};

const REPLAY: Command = Command::Replay {
    program: "p",
    world: "w",
    journal: "j",
};

/// The files `p`, a program, `w`, a world, `s`, a schedule, and `j`, a journal; every other name fails.
#[derive(Drop)]
struct Folder {
    program: &'static [u8],
}

impl Files for Folder {
    ghost gives = { λ _ _ _. Unit {0} };

    ghost lacks = { λ _ _. Unit {0} };

    fn read(&mut self, alloc: Global, name: &str) -> Result<Vec<u8>, FileFault> {
        let bytes = match name {
            "p" => self.program,
            "w" => WORLD,
            "s" => b"1*9".as_slice(),
            "j" => b"1 1 1".as_slice(),
            _ => return Err(FileFault::File),
        };
        if bytes.len() > jnirun::MOST_BYTES {
            return Err(FileFault::File);
        }
        Vec::from_slice(alloc, bytes).map_err(|_| FileFault::Memory)
    }
}

/// A writer that takes at most `most` bytes a call, and fails after `room` bytes.
#[derive(Drop)]
struct Narrow {
    taken: Vec<u8>,
    most: usize,
    room: usize,
}

impl Write for Narrow {
    fn write(&mut self, bytes: &[u8]) -> io::Result<usize> {
        if self.taken.len() >= self.room {
            return Err(io::Error::from(ErrorKind::StorageFull));
        }
        let most = bytes.len().min(self.most).min(self.room - self.taken.len());
        self.taken.extend_from_slice(&bytes[..most])?;
        Ok(most)
    }

    fn flush(&mut self) -> io::Result<()> {
        Ok(())
    }
}

/// A writer of this width and room.
fn writer_of(rt: &impl AllocGlobal, most: usize, room: usize) -> Narrow {
    Narrow {
        taken: Vec::new(rt.alloc()),
        most,
        room,
    }
}

/// The status of a command, its output where that has this room, and what is said on standard error where that has this room.
fn served(
    rt: &(impl AllocGlobal + Threads + Wait + Sync),
    command: Command<'_>,
    program: &'static [u8],
    room: usize,
    err_room: usize,
) -> (u8, Vec<u8>, Vec<u8>) {
    let mut files = Folder { program };
    let mut out = StdSink::new(writer_of(rt, 1, room));
    let mut err = StdSink::new(writer_of(rt, 1, err_room));
    let status = serve(rt, rt.alloc(), command, &mut files, &mut out, &mut err);
    (status, out.into_inner().taken, err.into_inner().taken)
}

#[test]
fn texts(rt: HostRuntime) -> Result<(), Fail> {
    let mut ran = StdSink::new(writer_of(&rt, 4096, 4096));
    let mut worked = StdSink::new(writer_of(&rt, 4096, 4096));
    let mut replayed = StdSink::new(writer_of(&rt, 4096, 4096));
    check_text(rt.alloc(), PROGRAM)?;
    assert!(rt; run_text(rt.alloc(), PROGRAM, WORLD, b"1*9", &mut ran)?.is_none());
    assert!(rt; work_text(&rt, rt.alloc(), PROGRAM, WORLD, &mut worked)?.is_none());
    assert!(rt; replay_text(rt.alloc(), PROGRAM, WORLD, b"1 1 1", &mut replayed)?.is_none());
    assert!(rt; ran.into_inner().taken.as_slice() == REPORT);
    assert!(rt; worked.into_inner().taken.as_slice() == REPORT);
    assert!(rt; replayed.into_inner().taken.as_slice() == REPORT);
    Ok(())
}

// A trap is the answer, and is told; where standard error fails, a beginning of it.
#[test]
fn traps(rt: HostRuntime) -> Result<(), Fail> {
    let mut ran = StdSink::new(writer_of(&rt, 4096, 4096));
    let mut replayed = StdSink::new(writer_of(&rt, 4096, 4096));
    let trap = Some(TrapAt { number: 1, line: 3 });
    assert!(rt; run_text(rt.alloc(), TRAPPING, WORLD, b"1*9", &mut ran)? == trap);
    assert!(rt; replay_text(rt.alloc(), TRAPPING, WORLD, b"1 1 1 1", &mut replayed)? == trap);
    let told =
        b"p:3: trap 1: a division or a remainder by zero\n     put_jint((jint)(1u / 0u)); return; }\n".as_slice();
    for (room, said) in [(4096, told), (10, &told[..10])] {
        let (status, out, err) = served(&rt, RUN, TRAPPING, 4096, room);
        assert!(rt;
            status == DONE
                && out.as_slice() == b"T1 trap 1 line 3\njournal 1 1 1 1\n".as_slice()
                && err.as_slice() == said
        );
    }
    Ok(())
}

// Each output is one that takes a byte a call.
#[test]
fn commands(rt: HostRuntime) {
    for (command, written) in [
        (CHECK, b"ok\n".as_slice()),
        (RUN, REPORT),
        (WORK, REPORT),
        (REPLAY, REPORT),
    ] {
        let (status, out, err) = served(&rt, command, PROGRAM, 4096, 4096);
        assert!(rt; status == DONE && out.as_slice() == written && err.is_empty());
    }
}

// The function ends without a `return`. The tab of the line is shown as a space.
#[test]
fn refusals(rt: HostRuntime) {
    let told =
        b"p:3: error 42: a path ends without return, or a statement is never reached: Java_A_f ends without `return`\n     put_jint(1); }\n".as_slice();
    for command in [CHECK, RUN, WORK, REPLAY] {
        for (room, said) in [(4096, told), (10, &told[..10])] {
            let (status, out, err) = served(&rt, command, OPEN, 4096, room);
            assert!(rt;
                status == REFUSED
                    && out.as_slice() == b"fault 42 line 3\n".as_slice()
                    && err.as_slice() == said
            );
        }
    }
}

#[test]
fn failing_writers(rt: HostRuntime) {
    let cases = [
        (CHECK, PROGRAM, 2, b"ok".as_slice()),
        (RUN, PROGRAM, 12, b"T1 ended\njou".as_slice()),
        (WORK, PROGRAM, 12, b"T1 ended\njou".as_slice()),
        (REPLAY, PROGRAM, 12, b"T1 ended\njou".as_slice()),
        (RUN, OPEN, 8, b"fault 42".as_slice()),
    ];
    for (command, program, room, written) in cases {
        let (status, out, err) = served(&rt, command, program, room, 4096);
        assert!(rt;
            status == FAILED
                && out.as_slice() == written
                && err.as_slice() == b"writer\n".as_slice()
        );
    }
}

#[test]
fn missing_files(rt: HostRuntime) {
    let commands = [
        Command::Check { program: "x" },
        Command::Run {
            program: "p",
            world: "x",
            schedule: "s",
        },
        Command::Work {
            program: "p",
            world: "x",
        },
        Command::Replay {
            program: "p",
            world: "w",
            journal: "x",
        },
    ];
    for command in commands {
        let (status, out, err) = served(&rt, command, PROGRAM, 4096, 4096);
        assert!(rt; status == FAILED && out.is_empty() && err.as_slice() == b"file\n".as_slice());
    }
}
