// The route program's standard input and output: a read or a write is tried again while the system only puts off, and what is lost is
// said on standard error.
#![tactic(auto)]

ghost use Rattle.std.specs.Prelude.{◌≡◌, true, length, ◌+◌, ◌≤◌, ◌<◌, IfOk, MatchResult};
ghost use Rattle.streams.specs.Tries.{most_tries};

use std::io;
use std::io::{ErrorKind, Read};

// How often a read or a write that moves nothing is tried.
const TRIES: usize = 100000000;

// The constant is the definition's number.
fn most_tries() -> usize
    ensures { result ≡ most_tries }
{
    TRIES
}

// The system's number for a stream that is closed, which has no kind of its own.
const EBADF: i32 = 9;

// Whether the system has only put off what it was last asked for: interrupted, or nothing to be had just now, and not too often.
fn is_put_off(error: &io::Error, tries: usize) -> bool
    ensures { result ≡ true → tries < most_tries }
{
    let kind = error.kind();
    tries < TRIES && (kind == ErrorKind::Interrupted || kind == ErrorKind::WouldBlock)
}

// Says on standard error why a stream failed, in the system's words: std puts the error's number behind them, which is left out. Where
// saying it fails too, nothing is left to say it on.
fn tell<R: Eprint + AllocGlobal>(rt: &R, stream: &str, error: &io::Error) {
    let Ok(words) = format!(in rt.alloc(); "{error}") else {
        let _ = eprintln!(rt; "route: {stream}: {error}");
        return;
    };
    let said = words.as_str();
    let said = said
        .split_once(" (os error")
        .map_or(said, |(words, _)| words);
    let _ = eprintln!(rt; "route: {stream}: {said}");
}

// The output has failed, and standard error was told why.
#[derive(Clone, Copy)]
pub struct Lost;

// One write of the bytes: how many the system took, or why it took none.
fn write_some<R: Print>(rt: &R, bytes: &[u8]) -> io::Result<usize>
    ensures taken { IfOk result (λ n. 0 < n) }
    ensures within { IfOk result (λ n. n ≤ length bytes.now) }
{
    match rt.write_some(bytes)? {
        0 => Err(io::Error::from(ErrorKind::WriteZero)),
        n => Ok(n),
    }
}

// Writes all the bytes, or says on standard error why not.
pub fn write_whole<R: Print + Eprint + AllocGlobal>(rt: &R, bytes: &[u8]) -> Result<(), Lost> {
    let mut rest = bytes;
    let mut tries = 0;
    while !rest.is_empty() {
        match write_some(rt, rest) {
            Ok(n) => {
                rest = &rest[n..];
                tries = 0;
            }
            Err(error) => {
                if !is_put_off(&error, tries) {
                    tell(rt, "standard output", &error);
                    return Err(Lost);
                }
                tries += 1;
            }
        }
    }
    Ok(())
}

// The input has failed after so many bytes, and standard error was told why.
#[derive(Clone, Copy)]
pub struct Broken {
    pub bytes: usize,
}

// One read into the job from a place on: how many bytes came, 0 at the end, or why none came.
fn read_some<S: Read>(source: &mut S, job: &mut [u8], done: usize) -> io::Result<usize>
    requires { done ≤ length job.old }
    ensures { IfOk result (λ bytes. done + bytes ≤ length job.old) }
{
    source.read(&mut job[done..])
}

// Reads to the end of the input, or until the job is full: how many bytes it has. A closed input has ended.
pub fn read_job<R: io::Input + Eprint + AllocGlobal>(
    rt: &R,
    job: &mut [u8],
) -> Result<usize, Broken>
    ensures { MatchResult result (λ n. n ≤ length job.new) (λ why. why.bytes ≤ length job.new) }
{
    let mut source = rt.reader();
    let mut done = 0;
    let mut tries = 0;
    while done < job.len() {
        match read_some(&mut source, job, done) {
            Ok(0) => break,
            Ok(bytes) => {
                done += bytes;
                tries = 0;
            }
            Err(error) => {
                if error.raw_os_error() == Some(EBADF) {
                    break;
                }
                if !is_put_off(&error, tries) {
                    tell(rt, "standard input", &error);
                    return Err(Broken { bytes: done });
                }
                tries += 1;
            }
        }
    }
    Ok(done)
}
