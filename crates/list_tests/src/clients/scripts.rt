//! Tests of `programs::replay`: the error messages, the exit status, and reads, writes and requests
//! that fail. The files `stdin` and `stdout` of the program `thin_replay` test the answers.
use crate::check;
use crate::checks::leaked_refusing;
use crate::clients::page::Page;
use programs::replay::line::Line;
use programs::replay::line_error::LineError;
use programs::replay::replay_error::ReplayError;
use programs::replay::{exit_code, replay};
use std::alloc::{AllocError, Global};
use std::cell::Cell;
use std::fmt::Display;
use std::io::{self, BufReader, ErrorKind, Read};
use std::process::Abort;
use thin_testing::{Lender, Refusing};

// Asserts what is said about a line that has no form.
fn assert_wrong(rt: &impl Abort, alloc: Global, line: &str, told: &str) {
    let error = check!(rt; Line::parse(alloc, line).err());
    let text = check!(rt; error.to_string(alloc));
    check!(rt; same((line, text.as_str()), (line, told)));
}

const NO_NAME: &str = "no command has this name (`help` lists the commands)";

// What is said of lines that have no form. Of two wrong words, the first that is no number or no
// word of steps is named.
static WRONG_LINES: [(&str, &str); 15] = [
    ("", NO_NAME),
    ("pus 3", NO_NAME),
    ("PUSH 3", NO_NAME),
    ("pushes 3", NO_NAME),
    ("push", "the form is `push ITEM`"),
    ("push 1 2", "the form is `push ITEM`"),
    ("drain 0 1", "the form is `drain START END STEPS`"),
    (
        "insert x y",
        "INDEX is not a number from 0 to 18446744073709551615",
    ),
    (
        "insert 1 -1",
        "ITEM is not a number from 0 to 18446744073709551615",
    ),
    (
        "extend_from_slice 1 18446744073709551616",
        "ITEM is not a number from 0 to 18446744073709551615",
    ),
    (
        "drain 0 1.5 F",
        "END is not a number from 0 to 18446744073709551615",
    ),
    (
        "drain 0 0 F",
        "STEPS is neither `-` nor a word of the letters `f` and `b`",
    ),
    ("retain 0 1 1", "DIVISOR is 0"),
    ("extract_if 0 1 1 0 1 1", "DIVISOR is 0"),
    (
        "retain 0 x 1",
        "STRIDE is not a number from 0 to 18446744073709551615",
    ),
];

#[test]
fn says_what_is_wrong_with_a_line(rt: HostRuntime) {
    for (line, told) in &WRONG_LINES {
        assert_wrong(&rt, rt.alloc(), line, told);
    }
}

// How many bytes a call to `read` reads.
const CHUNK: usize = 16;

// A reader of `rest`. The calls to `read` are numbered from 1, and call number `failing` fails.
#[derive(Drop)]
struct Script<'a> {
    rest: &'a [u8],
    calls: usize,
    failing: usize,
}

impl Read for Script<'_> {
    fn read(&mut self, buf: &mut [u8]) -> io::Result<usize> {
        self.calls = self.calls.saturating_add(1);
        if self.calls == self.failing {
            return Err(io::Error::from(ErrorKind::BrokenPipe));
        }
        self.rest.read(buf)
    }
}

// A standard error that counts the lines that are written to it, and those of them that are `told`.
// Each call fails.
#[derive(Drop)]
struct Messages<'a> {
    alloc: Global,
    told: &'a str,
    lines: Cell<u32>,
    right: Cell<u32>,
}

impl Messages<'_> {
    fn count(&self, line: &str) -> io::Result<()> {
        self.lines.set(self.lines.get().saturating_add(1));
        if line == self.told {
            self.right.set(self.right.get().saturating_add(1));
        }
        Err(io::Error::from(ErrorKind::BrokenPipe))
    }
}

impl Eprint for Messages<'_> {
    fn eprint<D: Display + Drop>(&self, _value: D) -> io::Result<()> {
        self.count("the line does not end")
    }

    fn eprintln<D: Display + Drop>(&self, value: D) -> io::Result<()> {
        let line = format!(in self.alloc; "{value}")?;
        self.count(line.as_str())
    }
}

// Asserts the error message, which is empty if there is no error.
fn assert_message(rt: &impl Abort, alloc: Global, answered: &Result<(), ReplayError>, told: &str) {
    let message = match answered {
        Ok(()) => String::new(alloc),
        Err(error) => check!(rt; error.to_string(alloc)),
    };
    check!(rt; same(message.as_str(), told));
}

// Asserts the exit status, and that `told` alone is written to standard error, or nothing if it is
// empty.
fn assert_exit(rt: &impl Abort, alloc: Global, answered: Result<(), ReplayError>, told: &str) {
    let messages = Messages {
        alloc,
        told,
        lines: Cell::new(0),
        right: Cell::new(0),
    };
    // Printing an `ExitCode` is the only way to read its value.
    let status = check!(rt; format!(in alloc; "{:?}", exit_code(&messages, answered)));
    let number = if told.is_empty() { 0 } else { 1 };
    let wanted = check!(rt; format!(in alloc; "ExitCode(unix_exit_status({number}))"));
    check!(rt; same((status.as_str(), messages.lines.get(), messages.right.get()), (wanted.as_str(), number, number)));
}

// Replays the lines of `input` with memory from `source`. The read number `unread` and the write
// number `unwritten` fail. Returns what is written, and how the replay ended.
fn replayed_from(
    rt: &impl Abort,
    alloc: Global,
    source: &Refusing<Global>,
    input: &[u8],
    (unread, unwritten): (usize, usize),
) -> (String, Result<(), ReplayError>) {
    let mut text = String::new(alloc);
    let page = Page {
        text: &mut text,
        calls: 0,
        failing: unwritten,
    };
    let script = Script {
        rest: input,
        calls: 0,
        failing: unread,
    };
    let reader = check!(rt; BufReader::with_capacity(alloc, CHUNK, script));
    let answered = replay(source, reader, page);
    (text, answered)
}

// Replays the lines of `input`, of which the read number `unread` and the write number `unwritten`
// fail. Returns what is written. Asserts the error message (which is empty if there is no error),
// that it alone is written to standard error, and the exit status.
fn replayed(
    rt: &impl Abort,
    alloc: Global,
    input: &[u8],
    failing: (usize, usize),
    told: &str,
) -> String {
    let granting = Refusing::new(alloc, 0);
    let (text, answered) = replayed_from(rt, alloc, &granting, input, failing);
    assert_message(rt, alloc, &answered, told);
    assert_exit(rt, alloc, answered, told);
    text
}

// Replays the lines of `input`. Asserts what is written, and the error message.
fn assert_replayed(rt: &impl Abort, alloc: Global, input: &[u8], wanted: &str, told: &str) {
    let text = replayed(rt, alloc, input, (0, 0), told);
    check!(rt; same(text.as_str(), wanted));
}

// Replays the lines `right` and two wrong ones. Asserts that only the first of these, line number
// `number`, is named.
fn assert_first_named(rt: &impl Abort, alloc: Global, right: &str, number: u32) {
    let input = check!(rt; format!(in alloc; "{right}push\njump\n"));
    let told = check!(rt; format!(in alloc; "line {number}: the form is `push ITEM`"));
    assert_replayed(rt, alloc, input.as_bytes(), "", told.as_str());
}

#[test]
fn carries_out_no_command_if_a_line_is_wrong(rt: HostRuntime) {
    let told = "line 2: the line is not UTF-8";
    assert_replayed(&rt, rt.alloc(), b"push 1\npush \xff\npop 1\n", "", told);
    let told = "line 1: the line is not UTF-8";
    assert_replayed(&rt, rt.alloc(), b"\xff", "", told);
    let mut right = String::new(rt.alloc());
    for number in 1..=30 {
        assert_first_named(&rt, rt.alloc(), right.as_str(), number);
        check!(rt; right.push_str(if number % 3 == 0 { " \t\n" } else { "push 1\n" }));
    }
}

// Lines that are answered by one line each. Each command requests memory, and the list that `new`
// drops has a block.
static ASKING: &str = "push 1\nextend_from_slice 2 3 4 5\nnew\npush 6\ninsert 0 7\nreserve 9\n\
    reserve_exact 30\nshrink_to_fit\nresize 9 7\nextend 2 8 9 10 11 12 13 14 15\n\
    append 16 17 18\nsplit_off 3\nclone\ndrain 0 1 fb\nextract_if 0 1 2 1 0 0\n\
    splice 0 1 f 1 19 20 21 22 23 24\n";

// Returns how many lines are answered before the error, if it says that memory was missing.
fn answered_before(answered: Result<(), ReplayError>) -> Option<usize> {
    match answered {
        Err(ReplayError::Memory { number }) => number.checked_sub(1),
        Err(
            ReplayError::BadLine {
                number: _,
                cause: LineError::Memory(_),
            },
        ) => Some(0),
        Err(ReplayError::Io(error)) => match error.kind() {
            ErrorKind::OutOfMemory => Some(0),
            _ => None,
        },
        _ => None,
    }
}

// Replays the lines `ASKING`, of which `whole` are the answers, with one request refused. Asserts
// that the replay ends there, that only the lines before the one that is named are answered, and
// that nothing is leaked. Returns how many lines are answered, or `None` if the replay did with
// less memory.
fn answered_at(
    rt: &impl Abort,
    alloc: Global,
    refusing: Lender,
    refused: u64,
    whole: &str,
) -> Option<usize> {
    refusing.refuse(refused);
    let (text, answered) = replayed_from(rt, alloc, refusing, ASKING.as_bytes(), (0, 0));
    check!(rt; same((whole.starts_with(text.as_str()), refusing.blocks()), (true, 0)));
    if answered.is_ok() {
        check!(rt; same(text.as_str(), whole));
        return None;
    }
    let lines = Some(text.as_str().lines().count());
    let before = answered_before(answered);
    check!(rt; same((before, refusing.requests()), (lines, refused)));
    lines
}

// Requests are refused while the lines are read and parsed, for the buffer of the writer, and then
// at each line but `new`, which makes none. The `collect` of the words of a line requests less if
// its first request is refused.
#[test]
fn ends_at_each_refused_request(rt: HostRuntime) {
    let alloc = rt.alloc();
    let refusing = leaked_refusing(&rt, alloc, 0);
    let (whole, answered) = replayed_from(&rt, alloc, refusing, ASKING.as_bytes(), (0, 0));
    check!(rt; same((answered.is_ok(), refusing.blocks()), (true, 0)));
    // How many lines are answered before the error, and how many different such numbers there are.
    let (mut last, mut numbers) = (None, 0_usize);
    for refused in 1..=refusing.requests() {
        let lines = answered_at(&rt, alloc, refusing, refused, whole.as_str());
        if lines.is_none() {
            check!(rt; same(last.unwrap_or(0), 0));
        } else if lines != last {
            last = lines;
            numbers = numbers.saturating_add(1);
        }
    }
    check!(rt; same((last, numbers, whole.as_str().lines().count()), (Some(15), 15, 16)));
}

#[test]
fn fails_if_a_read_fails(rt: HostRuntime) {
    let input = "push 1\nitems\n\npop\nextend_from_slice 1 2 3 4 5 6 7\nitems\n";
    // The last call finds the end.
    for unread in 1..=input.len().div_ceil(CHUNK).saturating_add(1) {
        let text = replayed(
            &rt,
            rt.alloc(),
            input.as_bytes(),
            (unread, 0),
            "broken pipe",
        );
        check!(rt; same(text.as_str(), ""));
    }
}

// Replays `input`. Asserts that its answers take more than one call to `write` if `is_long` is
// true, and one otherwise, and that the program fails at a call that fails, whichever call it is.
// What is written is then a beginning of the answers: the writer tries once more to write those
// that it holds, and no more.
fn assert_fails_at_a_write(rt: &impl Abort, alloc: Global, input: &String, is_long: bool) {
    let whole = replayed(rt, alloc, input.as_bytes(), (0, 0), "");
    // The writer has room for 8192 bytes.
    check!(rt; same(whole.len() > 8192, is_long));
    for unwritten in 1..=whole.len().div_ceil(8192) {
        let text = replayed(rt, alloc, input.as_bytes(), (0, unwritten), "broken pipe");
        assert!(rt;
            whole.as_str().starts_with(text.as_str()),
            "at write {unwritten}"
        );
    }
}

// Lines with answers of each kind. So many of them have answers of somewhat more than 8192 bytes,
// but for the last, whose answer is written by the last flush.
static REPEATED: [(&str, usize); 12] = [
    ("clear", 330),
    ("pop", 280),
    ("remove 9", 240),
    ("append", 190),
    ("reserve 18446744073709551615", 180),
    ("drain 0 0 ffff", 155),
    ("clone", 200),
    ("extend 18446744073709551615 3", 90),
    ("new", 340),
    ("items", 900),
    ("help", 8),
    ("pop", 1),
];

// Returns a line as often as is asked.
fn repeated(alloc: Global, line: &str, times: usize) -> Result<String, AllocError> {
    let mut lines = String::new(alloc);
    for _ in 0..times {
        lines.push_str(line)?;
        lines.push_str("\n")?;
    }
    Ok(lines)
}

// In front of the repeated lines, one answer becomes longer from round to round. So another part of
// the answers is the one with which the writer is full.
#[test]
fn fails_if_a_write_fails(rt: HostRuntime) {
    let alloc = rt.alloc();
    for (line, times) in &REPEATED {
        let lines = check!(rt; repeated(alloc, line, *times));
        for first in [1, 10_000_000_000_000_000_000_u64] {
            let mut second = 1_u64;
            for _ in 0..5 {
                let input = check!(rt; format!(in alloc;
                    "push {first}\npush {second}\nitems\nnew\n{lines}"
                ));
                assert_fails_at_a_write(&rt, alloc, &input, *times > 1);
                second = second.saturating_mul(10_000);
            }
        }
    }
}
