// Reading a file that tells a read that fails from the end of the file.
#![tactic(auto)]

ghost use Rattle.std.specs.Prelude.{IfSome};
ghost use Rattle.std.specs.Counts.{IsPrefixLen};
ghost use Rattle.reading.specs.Filling.{Fills};

use std::env::{Env, FillError};
use std::io;
use std::io::{Read, Stdin};

// As much of a constraint file as is read: question 1 refuses more than 1,024 bytes, so one past them is enough.
pub const CONSTRAINTS_READ: usize = 1025;

// Reads until the buffer is full or the file ends, and answers how many bytes it filled; or why a read failed.
// It does not say which bytes: the kit's contract of `read` says nothing of them, since no contract can speak of
// what a file holds.
pub fn fill(from: &mut impl Read, buffer: &mut [u8]) -> io::Result<usize>
    ensures { Fills result buffer.new }
{
    let mut done: usize = 0;
    // It counts what reads answer, and no index.
    while done < buffer.len() {
        match from.read(&mut buffer[done..])? {
            0 => break,
            more => done += more,
        }
    }
    Ok(done)
}

// Whether the program was given an argument i, of any length; argument 0 is its name.
pub fn is_given(rt: &impl Env, i: usize) -> bool {
    let mut start = [0u8; 1];
    !matches!(rt.arg(i, &mut start), Err(FillError::NotPresent))
}

// What the four programs do with their input they write out: a closure over an array of a const parameter's size gets
// no generated proof.
//
// Reads standard input by `read`, and answers how many bytes of the buffer that filled. With an argument, or where
// the read fails, standard error says so, and nothing is answered.
pub fn standard_input<R>(
    rt: &HostRuntime,
    usage: &[u8],
    read: R,
    buffer: &mut [u8],
) -> Option<usize>
where
    R: FnOnce(&mut Stdin, &mut [u8]) -> io::Result<usize>,
    requires reads { R.IsAlwaysCallable read }
    requires fills { (from : _) (room : _) (n : _) (after : _) (filled : _)
        → R.post read from room n after filled → Fills n filled.now }
    ensures { IfSome result (λ n. IsPrefixLen n buffer.new) }
{
    if is_given(rt, 1) {
        printing::usage(rt, usage);
        return None;
    }
    printing::reported(rt, b"standard input", read(&mut rt.stdin(), buffer))
}
