// Questions set as paths: a text of 1 to 8 lines is read, its nodes are numbered and its records are gathered on a sheet; then they are written.
#![tactic(auto)]

ghost use Rattle.std.specs.Prelude.{◌≡◌, ◌<◌, length, IfSome, option_copied};
ghost use Rattle.meaning.specs.Results.{fill_wrote};
ghost use Rattle.theory.specs.PathReader.{read_paths};
ghost use Rattle.sheet.specs.Bytes.{plain};
ghost use Rattle.xpath.specs.Reading.{LineRead, LinesRead};
ghost use Rattle.lent.specs.Filling.{AnswerOf};

use constraints::Kind;
use lent::{byte_at, put};
use questions::Question;
use sheet::Sheet;
use steps::end_steps;

// The fewest bytes of a buffer for records.
const BUFFER: usize = 1024;

// The most bytes of a text.
const TEXT: usize = 1024;

// The most variables of a text.
const VARIABLES: u8 = 16;

// A line leads to the node of variable 0. What is answered are the bytes behind it.
fn line<'a>(s: &'a [u8], sheet: &mut Sheet) -> Option<&'a [u8]>
    ensures line_read { LineRead s.now (plain sheet.old) (option_copied result) (plain sheet.new) }
    ensures shorter { IfSome result (λ rest. length rest.now < length s.now) }
{
    let [b'/', rest @ ..] = s else {
        let x = sheet.number();
        return end_steps(s, x, sheet);
    };
    let root = sheet.rooted();
    if labels::is_small(byte_at(rest, 0)) {
        return end_steps(rest, root, sheet);
    }
    sheet.put(Kind::Same, root, 0, 0);
    Some(rest)
}

// Reads at most n lines, to the end of the text.
fn lines(text: &[u8], n: u8, sheet: &mut Sheet) -> Result<(), Question>
    ensures { LinesRead text.now n (plain sheet.old) result (plain sheet.new) }
{
    let mut left = text;
    for _ in 0..n {
        if left.is_empty() {
            return Ok(());
        }
        let Some(rest) = line(left, sheet) else {
            return Err(Question::PathsForm);
        };
        let [b'\n', next @ ..] = rest else {
            return Err(Question::PathsForm);
        };
        left = next;
    }
    if left.is_empty() {
        Ok(())
    } else {
        Err(Question::PathsForm)
    }
}

// Reads a text of 1 to 8 lines and writes its records to the front of the buffer.
pub fn read(text: &[u8], records: &mut [u8]) -> Result<usize, Question>
    ensures answer_of { AnswerOf (read_paths text.now records.old) result }
    ensures wrote { records.new ≡ fill_wrote (read_paths text.now records.old) records.old }
{
    if records.len() < BUFFER {
        return Err(Question::Buffer);
    }
    if text.is_empty() || TEXT < text.len() {
        return Err(Question::PathsForm);
    }
    let mut sheet = Sheet::new();
    lines(text, 8, &mut sheet)?;
    if VARIABLES < sheet.variables() {
        return Err(Question::PathsVariables);
    }
    Ok(put(records, 0, sheet.bytes()))
}
