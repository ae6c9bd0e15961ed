// A step's axis and test at the front of the bytes left of a text of paths, and the bytes behind them.
#![tactic(auto)]

ghost use Rattle.std.specs.Prelude.{◌≡◌, ◌+◌, ◌<◌, length, IfSome};
ghost use Rattle.theory.specs.PathReader.{axis_at, move_at};
ghost use Rattle.axes.specs.Moving.{NameRead, AxisRead, is_tested, MoveRead};

use lent::byte_at;

// The axes of a step. `Itself` is named self in a text, which is no name here.
#[derive(Clone, Copy, PartialEq, Eq)]
pub enum Axis {
    Itself,
    Child,
    Parent,
    Descendant,
    Ancestor,
    DescendantOrSelf,
    AncestorOrSelf,
    FollowingSibling,
    PrecedingSibling,
}

// The axis and the bytes behind its name, if the name stands at the front. The library's strip_prefix would be a call for
// each name: with it the reader took over twice the time of plain Rust.
#[inline(always)]
fn named<'a>(s: &'a [u8], name: &[u8], axis: Axis) -> Option<(Axis, &'a [u8])>
    ensures value { NameRead s.now name.now axis result }
    ensures shorter { IfSome result (λ p. length p.1.now + length name.now ≡ length s.now) }
{
    if s.len() < name.len() {
        return None;
    }
    for i in 0..name.len() {
        if s[i] != name[i] {
            return None;
        }
    }
    Some((axis, &s[name.len()..]))
}

// The axis whose name stands at the front, the longer name first, and the bytes behind it.
#[inline(always)]
fn axis_at(s: &[u8]) -> Option<(Axis, &[u8])>
    ensures value { AxisRead (axis_at s.now) result }
    ensures shorter { IfSome result (λ p. length p.1.now < length s.now) }
{
    match byte_at(s, 0) {
        b'd' => {
            let shorter = || named(s, b"descendant", Axis::Descendant);
            named(s, b"descendant-or-self", Axis::DescendantOrSelf).or_else(shorter)
        }
        b'a' => {
            let shorter = || named(s, b"ancestor", Axis::Ancestor);
            named(s, b"ancestor-or-self", Axis::AncestorOrSelf).or_else(shorter)
        }
        b'p' => {
            let other = || named(s, b"parent", Axis::Parent);
            named(s, b"preceding-sibling", Axis::PrecedingSibling).or_else(other)
        }
        b'f' => named(s, b"following-sibling", Axis::FollowingSibling),
        b'c' => named(s, b"child", Axis::Child),
        b's' => named(s, b"self", Axis::Itself),
        _ => None,
    }
}

// What a step may test for: a letter, or any label.
fn is_test(byte: u8) -> bool
    ensures { result ≡ is_tested byte }
{
    labels::is_letter(byte) || byte == b'*'
}

// An axis, :: and a test, and the bytes behind them.
pub fn move_at(s: &[u8]) -> Option<(Axis, u8, &[u8])>
    ensures value { MoveRead (move_at s.now) result }
    ensures shorter { IfSome result (λ m. length m.2.now < length s.now) }
{
    let (axis, rest) = axis_at(s)?;
    match rest {
        [b':', b':', test, rest @ ..] if is_test(*test) => Some((axis, *test, rest)),
        _ => None,
    }
}
