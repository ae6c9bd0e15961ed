// What a program says: a verdict on standard output; a wrong use, and what failed, on standard error.
#![tactic(auto)]

ghost use Rattle.std.specs.Prelude.{◌≡◌};
ghost use Rattle.std.specs.Result.{result_ok};

use std::io::Write;
use std::{fmt, io, str};

// Writes a text by one call, so that the texts of programs that run at once stay whole, and goes on only where that took a part of it. A
// write that fails is reported on standard error.
pub fn print(rt: &(impl Print + Eprint), text: &[u8]) {
    if let Err(error) = rt.write_all(text) {
        fail(rt, b"standard output", &error);
    }
}

// Says on standard error how the program is to be used.
pub fn usage(rt: &impl Eprint, line: &[u8]) {
    let _ = rt.eprint(Shown(line));
}

// Says on standard error what failed, by its name, and why.
pub fn fail(rt: &impl Eprint, name: &[u8], error: &io::Error) {
    let _ = eprintln!(rt; "{}: {}", Shown(name), Reason(error));
}

// What went well; of what failed, standard error says the name and why.
pub fn reported<T>(rt: &impl Eprint, name: &[u8], outcome: io::Result<T>) -> Option<T>
    ensures { result ≡ result_ok outcome }
{
    outcome.inspect_err(|error| fail(rt, name, error)).ok()
}

// Bytes as they are where they are text, or else in ASCII, the others as hex.
#[derive(Clone, Copy)]
struct Shown<'a>(&'a [u8]);

impl fmt::Display for Shown<'_> {
    fn fmt<W: fmt::Write>(&self, f: &mut fmt::Formatter<W>) -> fmt::Result {
        match str::from_utf8(self.0) {
            Ok(text) => f.write_str(text),
            Err(_) => self.0.escape_ascii().fmt(f),
        }
    }
}

// The words of an error, as `No such file or directory`, without the number that the library puts behind them.
#[derive(Clone, Copy)]
struct Reason<'a>(&'a io::Error);

impl fmt::Display for Reason<'_> {
    fn fmt<W: fmt::Write>(&self, f: &mut fmt::Formatter<W>) -> fmt::Result {
        let mut line = [0u8; 300];
        let mut rest = &mut line[..];
        let _ = write!(rest, "{}", self.0);
        let left = rest.len();
        let end = line.len().saturating_sub(left);
        let whole = str::from_utf8(&line[..end]).unwrap_or("");
        match whole.rsplit_once(" (os error ") {
            Some((words, _)) => f.write_str(words),
            None => f.write_str(whole),
        }
    }
}
