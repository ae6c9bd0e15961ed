// What the programs print, at the front of a lent buffer: the text of a verdict, or the records of a text of paths.
#![tactic(auto)]

ghost use Rattle.std.specs.Prelude.{◌≤◌, length, take};
ghost use Rattle.meaning.specs.Text.{solve_allowance};
ghost use Rattle.putting.specs.Pages.{HasRoom, Same, Puts};
ghost use Rattle.text.specs.Verdicts.{bytes_of, solver_text, marker_text};
ghost use Rattle.text.specs.Printing.{SolvedAs, MarkedAs, PathsAs};

use putting::{Page, kind_word, put_answer};
use solver::Verdict;

// What `solve` allows itself.
pub const ALLOWANCE: u32 = 1_000_000;

// Room for every text: a first line of at most 16 bytes and 34 records of at most 17.
pub const TEXT_BYTES: usize = 594;

// Room for the records of every text of paths: as much as question 7 asks of the buffer that is lent for them.
pub const RECORDS_BYTES: usize = 1024;

fn put_mark(page: &mut Page<'_>, verdict: marker::Verdict)
    requires { HasRoom page.old 42 }
    ensures same { Same page.old page.new }
    ensures put { Puts page.old (marker_text verdict) page.new }
{
    match verdict {
        marker::Verdict::Met => page.put(b"met\n"),
        marker::Verdict::Unmet { position, kind } => {
            page.put(b"unmet ");
            page.number(position as u64);
            page.put(b" ");
            page.put(kind_word(kind));
            page.put(b"\n")
        }
        marker::Verdict::Refused(question) => page.refused(question),
    }
}

// The first bytes of `answer`, as many as the verdict says, are a tree's answer file.
fn put_solved(page: &mut Page<'_>, verdict: Verdict, answer: &[u8])
    requires { HasRoom page.old 594 × (bytes_of verdict ≤ 136) × (136 ≤ length answer.now) }
    ensures same { Same page.old page.new }
    ensures put { Puts page.old (solver_text verdict (take (bytes_of verdict) answer.now)) page.new }
{
    match verdict {
        Verdict::Tree { bytes, count } => {
            let file = &answer[..bytes];
            page.line(b"tree ", count);
            page.records(file)
        }
        Verdict::None { count } => page.line(b"none ", count),
        Verdict::Spent { count } => page.line(b"spent ", count),
        Verdict::Refused(question) => page.refused(question),
    }
}

// Puts what `solve` prints of the bytes it read at the front of the buffer, and answers how many bytes that are.
pub fn solve(constraints: &[u8], out: &mut [u8; TEXT_BYTES]) -> usize
    ensures { SolvedAs solve_allowance constraints.now out.old result out.new }
{
    let mut answer = [0u8; 136];
    let verdict = solver::solve(constraints, &mut answer, ALLOWANCE);
    let mut page = Page::new(out);
    put_solved(&mut page, verdict, &answer);
    page.written()
}

// Puts what `mark` prints of the two files at the front of the buffer, and answers how many bytes that are.
pub fn mark(constraints: &[u8], answer: &[u8], out: &mut [u8; TEXT_BYTES]) -> usize
    ensures { MarkedAs constraints.now answer.now out.old result out.new }
{
    let verdict = marker::mark(constraints, answer);
    let mut page = Page::new(out);
    put_mark(&mut page, verdict);
    page.written()
}

// A part and `put_answer`: what takes the part would be longer than the two lines.
// Puts what `paths` writes of the bytes it read at the front of the buffer, and answers how many bytes that are.
pub fn paths(text: &[u8], out: &mut [u8; RECORDS_BYTES]) -> usize
    ensures { PathsAs text.now out.old result out.new }
{
    let answer = xpath::read(text, out);
    put_answer(out, answer)
}
