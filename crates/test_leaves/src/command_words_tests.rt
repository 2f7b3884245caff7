use command_words::{Command, read_command};
use std::alloc::{AllocError, Global};
use std::test::Fail;

/// The words that blanks part, read.
fn read_line(alloc: Global, line: &str) -> Result<Option<Command>, AllocError> {
    let mut words = Vec::new(alloc);
    for word in line.split(' ') {
        words.push(String::from_str(alloc, word)?)?;
    }
    read_command(alloc, words.as_slice())
}

// Lines of words, and the commands that they are.
const COMMANDS: &[(&str, Command)] = &[
    ("run", Command::Run { trace: false }),
    ("run --trace", Command::Run { trace: true }),
    (
        "run --workers 3",
        Command::RunOnThreads {
            workers: 3,
            trace: false,
        },
    ),
    (
        "run --workers 16 --trace",
        Command::RunOnThreads {
            workers: 16,
            trace: true,
        },
    ),
    (
        "run --trace --workers 1",
        Command::RunOnThreads {
            workers: 1,
            trace: true,
        },
    ),
    (
        "run --workers 007",
        Command::RunOnThreads {
            workers: 7,
            trace: false,
        },
    ),
    (
        "run --workers 00000000000000000002",
        Command::RunOnThreads {
            workers: 2,
            trace: false,
        },
    ),
    ("show", Command::Show),
    ("report", Command::Report),
    ("check-trace", Command::CheckTrace),
    ("copy a b", Command::Copy),
    ("copy atlas #2", Command::Copy),
    ("copy copy copy", Command::Copy),
    ("drill 0", Command::Drill(0)),
    ("drill 00000000000000000001", Command::Drill(1)),
    ("drill 18446744073709551615", Command::Drill(u64::MAX)),
    ("format 2600", Command::Format(2600)),
    ("format 65536", Command::Format(65_536)),
    ("format 02600", Command::Format(2600)),
    ("format 00000000000000002600", Command::Format(2600)),
];

// Lines of words that are no command.
const OTHERS: &[&str] = &[
    "format 000000000000000002600",
    "format 2599",
    "format 65537",
    "format 4294969896",
    "format",
    "format ",
    "format +2600",
    "format -2600",
    "format 2600=",
    "format 2600 2601",
    "format -- 2600",
    "format --help",
    "format -V",
    "Run",
    "run x",
    "run --workers",
    "run --workers 0",
    "run --workers 17",
    "run --workers 257",
    "run --workers 18446744073709551617",
    "run --workers 000000000000000000003",
    "run --workers -3",
    "run --workers +3",
    "run --workers=3",
    "run --workers 3 4",
    "run --workers 3 --workers 4",
    "run --workers --workers 3",
    "run --workers --trace",
    "run --trace --workers",
    "run --workers --trace 3",
    "run --trace --workers --trace",
    "run --trace --trace --workers 3",
    "run --trace --workers 3 --trace",
    "run --trace 3 --workers",
    "run --workers 3 --traces",
    "run --worker 3",
    "run -workers 3",
    "run workers 3",
    "run 3",
    "--workers 3",
    "show --workers 3",
    "run trace",
    "run -trace",
    "run --trac",
    "run --traces",
    "run --trace x",
    "run x --trace",
    "run --trace --trace",
    "run --trace=",
    "run --trace --",
    "--trace run",
    "drill",
    "drill x",
    "drill -1",
    "drill +1",
    "drill 1 2",
    "drill 18446744073709551616",
    "drill 000000000000000000001",
    "check-trace x",
    "check-trace --trace",
    "copy",
    "copy a",
    "copy a b c",
    "copy a ",
    "copy a -b",
    "copy -a b",
    "copy a b=",
    "copy -- a b",
    "Copy a b",
    "check_trace",
    "show --",
    "report x",
    "report show",
    "reports",
    "Report",
    "",
    "2600",
    // Empty words before, between and behind; `--` and `=` in any place; digits of other scripts, signs and marks within a number.
    " run",
    "run ",
    "run  --trace",
    "drill 1 ",
    "--",
    "-- run",
    "=",
    "run =",
    "drill =1",
    "run --trace=1",
    "drill \u{661}",
    "drill \u{ff11}",
    "drill 0x1",
    "drill 1_0",
    "drill 1.0",
    "format 2600\n",
    "run\0",
    "\u{feff}run",
];

#[test]
fn words_are_read_as_commands(rt: HostRuntime) -> Result<(), Fail> {
    for &(line, want) in COMMANDS {
        let read = read_line(rt.alloc(), line)?;
        assert!(rt; read == Some(want), "{line}");
    }
    Ok(())
}

#[test]
fn other_words_are_no_command(rt: HostRuntime) -> Result<(), Fail> {
    let alloc = rt.alloc();
    for line in OTHERS {
        assert!(rt; read_line(alloc, line)?.is_none(), "{line}");
    }
    assert!(rt; read_command(alloc, Vec::new(alloc).as_slice())?.is_none());
    Ok(())
}
