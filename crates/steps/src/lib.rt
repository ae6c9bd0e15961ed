// The steps of a path: of one in brackets, and of a line. `end_steps` is pub only because crates are split.
#![tactic(auto)]

ghost use Rattle.std.specs.Prelude.{◌≡◌, ◌<◌, ◌≤◌, length, IfSome, option_copied};
ghost use Rattle.theory.specs.PathReader.{goes_on};
ghost use Rattle.sheet.specs.Bytes.{plain};
ghost use Rattle.steps.specs.Reading.{end_number, end_numbered, PathRead, StepsRead, StepRead, BracketsRead, EndRead};

use axes::move_at;
use lent::byte_at;
use sheet::Sheet;

// The readers of a path, its steps, a step and its brackets call one another, with the bytes left falling. Each answers
// the bytes behind what it read, or nothing if that is not of the form. A path in brackets follows the node of x; a
// step leads from the node of x to that of y.
#[cycle(brackets_path_step_steps)]
fn path<'a>(s: &'a [u8], x: u8, sheet: &mut Sheet) -> Option<&'a [u8]>
    ensures path_read { PathRead s.now x (plain sheet.old) (option_copied result) (plain sheet.new) }
    ensures shorter { IfSome result (λ rest. length rest.now < length s.now) }
{
    let [b'/', rest @ ..] = s else {
        return steps(s, x, sheet);
    };
    let root = sheet.rooted();
    if labels::is_small(byte_at(rest, 0)) {
        return steps(rest, root, sheet);
    }
    Some(rest)
}

#[cycle(brackets_path_step_steps)]
fn steps<'a>(s: &'a [u8], x: u8, sheet: &mut Sheet) -> Option<&'a [u8]>
    ensures steps_read { StepsRead s.now x (plain sheet.old) (option_copied result) (plain sheet.new) }
    ensures shorter { IfSome result (λ rest. length rest.now < length s.now) }
{
    let mut left = s;
    let mut from = x;
    loop {
        let y = sheet.number();
        let rest = step(left, from, y, sheet)?;
        let [b'/', next @ ..] = rest else {
            return Some(rest);
        };
        left = next;
        from = y;
    }
}

#[cycle(brackets_path_step_steps)]
fn step<'a>(s: &'a [u8], x: u8, y: u8, sheet: &mut Sheet) -> Option<&'a [u8]>
    ensures step_read { StepRead s.now x y (plain sheet.old) (option_copied result) (plain sheet.new) }
    ensures shorter { IfSome result (λ rest. length rest.now < length s.now) }
{
    let (axis, test, rest) = move_at(s)?;
    sheet.put_move(axis, test, x, y);
    brackets(rest, y, sheet)
}

#[cycle(brackets_path_step_steps)]
fn brackets<'a>(s: &'a [u8], y: u8, sheet: &mut Sheet) -> Option<&'a [u8]>
    ensures brackets_read { BracketsRead s.now y (plain sheet.old) (option_copied result) (plain sheet.new) }
    ensures no_longer { IfSome result (λ rest. length rest.now ≤ length s.now) }
{
    let mut left = s;
    while let [b'[', inner @ ..] = left {
        let rest = path(inner, y, sheet)?;
        let [b']', next @ ..] = rest else {
            return None;
        };
        left = next;
    }
    Some(left)
}

// Whether `/` follows the brackets at the front, if any: whether the step before them is not its line's last. An index
// counts the bytes by hand, so that `][` is passed over at once: with a `for` over the bytes the reader took over twice
// the time of plain Rust.
fn goes_on(s: &[u8]) -> bool
    ensures { result ≡ goes_on 0 s.now }
{
    let first = byte_at(s, 0);
    if first != b'[' {
        return first == b'/';
    }
    let mut depth: usize = 1;
    let mut i: usize = 1;
    while i < s.len() {
        let b = s[i];
        i += 1;
        // most bytes are letters
        if b']' < b {
            continue;
        }
        if b == b'[' {
            depth += 1;
            continue;
        }
        if b == b']' {
            if depth != 1 {
                depth -= 1;
                continue;
            }
            let next = byte_at(s, i);
            if next != b'[' {
                return next == b'/';
            }
            i += 1;
        }
    }
    false
}

// The number of a step of a line, before its brackets: 0 if it is the line's last, and else the next.
fn end_number(s: &[u8], sheet: &mut Sheet) -> u8
    ensures value { result ≡ end_number (goes_on 0 s.now) (plain sheet.old) }
    ensures wrote { plain sheet.new ≡ end_numbered (goes_on 0 s.now) (plain sheet.old) }
{
    if goes_on(s) { sheet.number() } else { 0 }
}

// The steps of a line: the last one leads to the node of variable 0.
pub fn end_steps<'a>(s: &'a [u8], x: u8, sheet: &mut Sheet) -> Option<&'a [u8]>
    ensures end_read { EndRead s.now x (plain sheet.old) (option_copied result) (plain sheet.new) }
    ensures shorter { IfSome result (λ rest. length rest.now < length s.now) }
{
    let mut left = s;
    let mut from = x;
    loop {
        let (axis, test, tested) = move_at(left)?;
        let y = end_number(tested, sheet);
        sheet.put_move(axis, test, from, y);
        let rest = brackets(tested, y, sheet)?;
        let [b'/', next @ ..] = rest else {
            return Some(rest);
        };
        left = next;
        from = y;
    }
}
