// Reads the two files that are marked and prints the verdict: `met`, `unmet POSITION KIND` or `refused NUMBER`. A verdict is given of
// whole files only: where one cannot be opened or read to its end, standard error says so and nothing is printed.
#![tactic(auto)]

ghost use Rattle.reading.specs.Filling.{Fills};
ghost use Rattle.marking.specs.Pieces.{FillsWithAnswer};

use pieces::{PIECES_READ, read_pieces};
use printing::reported;
use reading::{CONSTRAINTS_READ, fill};
use std::rt::Files;
use std::{fs, io, str};
use text::TEXT_BYTES;

// The library opens files by names that are text, so another name is a failure too.
fn open<R: Files>(rt: &R, path: &[u8]) -> io::Result<R::File> {
    match str::from_utf8(path) {
        Ok(name) => fs::open(rt, name),
        Err(_) => Err(io::Error::new(io::ErrorKind::InvalidInput, "the name is not UTF-8")),
    }
}

// Not one function with `read_answer`: they differ in what they call, and each has its clause.
fn read_constraints(rt: &impl Files, path: &[u8], buffer: &mut [u8]) -> io::Result<usize>
    ensures { Fills result buffer.new }
{
    let mut file = open(rt, path)?;
    fill(&mut file, buffer)
}

fn read_answer(rt: &impl Files, path: &[u8], buffer: &mut [u8]) -> io::Result<usize>
    ensures { FillsWithAnswer result buffer.new }
{
    let mut file = open(rt, path)?;
    read_pieces(&mut file, buffer)
}

// Marks the answer file of the second name as an answer to the constraint file of the first, and prints the verdict.
pub fn mark_files(rt: &(impl Files + Print + Eprint), constraints: &[u8], answer: &[u8]) {
    let mut records = [0u8; CONSTRAINTS_READ];
    let Some(n) = reported(
        rt,
        constraints,
        read_constraints(rt, constraints, &mut records),
    ) else {
        return;
    };
    let mut buffer = [0u8; PIECES_READ];
    let Some(m) = reported(rt, answer, read_answer(rt, answer, &mut buffer)) else {
        return;
    };
    let mut out = [0u8; TEXT_BYTES];
    let length = text::mark(&records[..n], &buffer[..m], &mut out);
    printing::print(rt, &out[..length]);
}
