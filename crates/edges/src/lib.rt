// The edges of a program: what the system's answers mean, a part read, a text written.
#![tactic(auto)]

ghost use Rattle.std.specs.Prelude.{false, IfErr, OnOk, ◌≡◌, ◌≤◌, length};
ghost use Rattle.edges.specs.Answers.{meant, is_again, Within};

use std::io::{Cursor, Error, ErrorKind, Read, Write};
use std::os::fd::AsRawFd;
use std::{fmt, io};

// The numbers of the descriptors.
const STDIN_FILENO: i32 = 0;

const STDOUT_FILENO: i32 = 1;

const STDERR_FILENO: i32 = 2;

// How long a fault's line is lent, and how many digits a number has at most.
const MOST_FAULT: usize = 80;

const MOST_DIGITS: usize = 20;

// Why a program ends before its work is done: the input could not be read, or the system took no more of the output.
#[derive(Clone, Copy, Debug, PartialEq, Eq)]
pub enum Fault {
    Input,
    Output,
}

impl fmt::Display for Fault {
    fn fmt<W: fmt::Write>(&self, f: &mut fmt::Formatter<W>) -> fmt::Result {
        match self {
            Fault::Input => write!(f, "the input could not be read"),
            Fault::Output => write!(f, "the output was lost"),
        }
    }
}

// Whether a call that failed so is to be made again: a signal interrupted it before the first byte.
fn is_again(error: Error) -> bool
    ensures { result ≡ is_again error }
{
    error.kind() == ErrorKind::Interrupted
}

// What one answer of the system means: so many bytes were moved, in reading none at the end of the input, or a fault; None where the call is to be made again.
fn meaning(answer: io::Result<usize>) -> Option<io::Result<usize>>
    ensures { result ≡ meant answer }
{
    match answer {
        Ok(n) => Some(Ok(n)),
        Err(error) if is_again(error) => None,
        Err(error) => Some(Err(error)),
    }
}

// A proved loop has to end, and counts to a number that no program uses up: what is answered behind it.
fn unanswered() -> Error
    ensures { is_again result ≡ false }
{
    Error::from(ErrorKind::TimedOut)
}

// One call that reads.
fn read_once(rt: HostRuntime, part: &mut [u8]) -> io::Result<usize>
    ensures { Within (length part.old) result }
{
    let mut from = rt.stdin();
    prove!(from.as_raw_fd() == STDIN_FILENO);
    from.read(part)
}

// One call that writes.
fn write_once<W: Write>(to: &mut W, text: &[u8]) -> io::Result<usize>
    ensures { Within (length text.now) result }
{
    to.write(text)
}

// Reads from standard input to the front of the part, which has place for a byte, so that no bytes are the end of the input.
pub fn fill(rt: HostRuntime, part: &mut [u8]) -> io::Result<usize>
    requires { 1 ≤ length part.old }
    ensures within { Within (length part.old) result }
    ensures answered { IfErr result (λ e. is_again e ≡ false) }
{
    for _ in 0..u64::MAX {
        if let Some(got) = meaning(read_once(rt, part)) {
            return got;
        }
    }
    Err(unanswered())
}

// Reads from standard input until the part is full; false where the input ends before, or reading fails.
pub fn fill_whole(rt: HostRuntime, part: &mut [u8]) -> bool {
    let mut from = 0;
    // Stays: no index is counted; how far a turn leads the system says.
    while from < part.len() {
        match fill(rt, &mut part[from..]) {
            Ok(n) if n > 0 => from += n,
            _ => return false,
        }
    }
    true
}

// Writes from the front of the text.
fn put_some<W: Write>(to: &mut W, text: &[u8]) -> io::Result<usize>
    ensures { Within (length text.now) result }
{
    for _ in 0..u64::MAX {
        if let Some(got) = meaning(write_once(to, text)) {
            return got;
        }
    }
    Err(unanswered())
}

// Writes the text: how many of its bytes the system took, all of them or those before it took no more.
fn put<W: Write>(to: &mut W, text: &[u8]) -> usize
    ensures { result ≤ length text.now }
{
    let mut rest = text;
    // Stays: no index is counted; how far a turn leads the system says.
    while !rest.is_empty() {
        match put_some(to, rest) {
            Ok(n) if n > 0 => rest = &rest[n..],
            _ => return text.len() - rest.len(),
        }
    }
    text.len()
}

// The text goes to standard output: how many of its bytes did.
fn put_out(rt: HostRuntime, text: &[u8]) -> usize
    ensures { result ≤ length text.now }
{
    let mut to = rt.stdout();
    prove!(to.as_raw_fd() == STDOUT_FILENO);
    put(&mut to, text)
}

// The text goes to standard output: whether all of it did.
pub fn say(rt: HostRuntime, text: &[u8]) -> bool {
    put_out(rt, text) == text.len()
}

// The first bytes of the lines, so many of them, go to standard output: how many did; none where there are not so many.
pub fn send(rt: HostRuntime, lines: &[u8], n: usize) -> usize
    ensures { (result ≤ n) × (result ≤ length lines.now) }
{
    lines.get(..n).map_or(0, |text| put_out(rt, text))
}

// The same: a fault where not all did.
pub fn print(rt: HostRuntime, lines: &[u8], n: usize) -> Result<(), Fault>
    ensures { OnOk result (n ≤ length lines.now) }
{
    if send(rt, lines, n) == n {
        Ok(())
    } else {
        Err(Fault::Output)
    }
}

// The text goes to standard error: whether all of it did.
pub fn tell(rt: HostRuntime, text: &[u8]) -> bool {
    let mut err = rt.stderr();
    prove!(err.as_raw_fd() == STDERR_FILENO);
    put(&mut err, text) == text.len()
}

// What was written to the front of a line.
fn written<const N: usize>(line: &Cursor<[u8; N]>) -> &[u8] {
    line.get_ref()
        .get(..line.position() as usize)
        .unwrap_or(&[])
}

// What went wrong goes to standard error, behind the program's name: whether all of it did. It is one text, so that the lines of programs that share standard
// error stay whole; where the name is too long for that, it goes in parts.
pub fn tell_fault(rt: HostRuntime, program: &str, fault: Fault) -> bool {
    let mut log = rt.stderr();
    prove!(log.as_raw_fd() == STDERR_FILENO);
    let mut line = Cursor::new([0u8; MOST_FAULT]);
    if writeln!(line, "{program}: {fault}").is_err() {
        return writeln!(log, "{program}: {fault}").is_ok();
    }
    let text = written(&line);
    put(&mut log, text) == text.len()
}

// A number goes to standard output, by its digits: whether all of them did.
pub fn say_number(rt: HostRuntime, n: u64) -> bool {
    let mut digits = Cursor::new([0u8; MOST_DIGITS]);
    write!(digits, "{n}").is_ok() && say(rt, written(&digits))
}
