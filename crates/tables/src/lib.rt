// The facts of a settled set as tables of rows, one row for each variable. A row is a set of variables: bit y of row x of `below` says
// below(x, y). They go into an alternative by value.
#![tactic(auto)]

ghost use Rattle.std.specs.Prelude.{◌≡◌, ◌≢◌, ◌<◌, ◌≤◌, ◌^◌, ◌-◌};
ghost use Rattle.meaning.specs.Finite.{pick};
ghost use Rattle.tables.specs.Rows.{gained, meets, gained_one, without, on_document, Gathers, Transposed, Raised, RaisedAlike, United, Common, Lowest, Rest, Union, LabelOf, Crossed, Blank};
ghost use Rattle.tables.specs.Tables.{row};

use ids::Variables;

// That tables decide a settled set is a clause of what takes them and no ghost field: no field says which set.
// `parent`, `above` and `after` are the columns of `child`, `below` and `before`, kept as rows: bit x of row y. A label of 0 is no label fact.
// root and leaf lie apart: a compiler that loads two neighbours as one number waits for both to be stored.
#[derive(Clone, Copy)]
pub struct Facts {
    pub child: [u16; 16],
    pub parent: [u16; 16],
    pub below: [u16; 16],
    pub above: [u16; 16],
    pub differ: [u16; 16],
    pub before: [u16; 16],
    pub after: [u16; 16],
    pub root: u16,
    pub label: [u8; 16],
    pub leaf: u16,
}

pub fn one(y: usize) -> u16
    requires { y < 16 }
    ensures { result ≡ 2 ^ y }
{
    1 << y
}

// Every number below n.
pub fn all(n: Variables) -> u16
    ensures { result ≡ 2 ^ n.count - 1 }
{
    let p: u32 = 1 << n.count;
    (p - 1) as u16
}

pub fn when(t: bool, more: u16) -> u16
    ensures { result ≡ pick t more 0 }
{
    if t {
        return more;
    }
    0
}

pub fn gain(t: bool, row: u16, more: u16) -> u16
    ensures { result ≡ gained t row more }
{
    row | when(t, more)
}

pub fn gain_one(t: bool, row: u16, y: usize) -> u16
    requires { y < 16 }
    ensures { result ≡ gained_one t row y }
{
    gain(t, row, one(y))
}

pub fn meet(a: u16, b: u16) -> bool
    ensures { result ≡ meets a b }
{
    a & b != 0
}

pub fn except(a: u16, b: u16) -> u16
    ensures { result ≡ without a b }
{
    a & (b ^ 65535)
}

// The smallest number in a row, or 16: no Option, since what it promised of an empty row stands.
pub fn lowest(row: u16) -> usize
    ensures { Lowest row result }
{
    u16::trailing_zeros(row) as usize
}

// A row without its smallest number.
pub fn rest(row: u16) -> u16
    requires { row ≢ 0 }
    ensures { Rest row result }
{
    row & (row - 1)
}

// What the rows named hold together.
pub fn union_rows(t: [u16; 16], rows: u16) -> u16
    ensures { Union t rows result }
{
    let mut a: u16 = 0;
    let mut left = rows;
    while left != 0 {
        let x = lowest(left);
        let v = t[x];
        a = a | v;
        left = rest(left);
    }
    a
}

// The label of the lowest of the variables named that has one, or 0 where none has.
pub fn label_of(t: [u8; 16], rows: u16) -> u8
    ensures { LabelOf t rows result }
{
    let mut left = rows;
    while left != 0 {
        let x = lowest(left);
        let v = t[x];
        if v != 0 {
            return v;
        }
        left = rest(left);
    }
    0
}

// The numbers of the rows that meet c.
pub fn meeting(t: [u16; 16], c: u16) -> u16
    ensures { Gathers (λ y. meets (row t y) c) result }
{
    let mut a: u16 = 0;
    if c == 0 {
        return a;
    }
    for y in 0usize..16 {
        let v = t[y];
        a = gain_one(meet(v, c), a, y);
    }
    a
}

// The columns of a table as rows.
pub fn transpose(t: [u16; 16]) -> [u16; 16]
    ensures { Transposed t result }
{
    let mut a = [0u16; 16];
    for y in 0usize..16 {
        let v = t[y];
        for x in 0usize..16 {
            let w = a[x];
            a[x] = gain_one(rowbits::has(v, x), w, y);
        }
    }
    a
}

// A row added to each row whose number is in `which`.
pub fn raise(t: [u16; 16], which: u16, by: u16) -> [u16; 16]
    ensures { Raised t which by result }
{
    let mut a = t;
    for x in 0usize..16 {
        let v = a[x];
        a[x] = gain(rowbits::has(which, x), v, by);
    }
    a
}

// A row added to each row of t where `rows` has the row `like`.
pub fn raise_alike(t: [u16; 16], rows: [u16; 16], like: u16, by: u16) -> [u16; 16]
    ensures { RaisedAlike t rows like by result }
{
    let mut a = t;
    for x in 0usize..16 {
        let v = a[x];
        let w = rows[x];
        a[x] = gain(w == like, v, by);
    }
    a
}

// Each row with the other table's.
pub fn either(t: [u16; 16], u: [u16; 16]) -> [u16; 16]
    ensures { United t u result }
{
    let mut a = t;
    for x in 0usize..16 {
        let v = a[x];
        let w = u[x];
        a[x] = v | w;
    }
    a
}

// What two tables have in common.
pub fn common(t: [u16; 16], u: [u16; 16]) -> [u16; 16]
    ensures { Common t u result }
{
    let mut a = t;
    for x in 0usize..16 {
        let v = a[x];
        let w = u[x];
        a[x] = v & w;
    }
    a
}

// Whether a row of t has a number in common with the same row of one of the two other tables.
pub fn crossed(t: [u16; 16], below: [u16; 16], above: [u16; 16]) -> bool
    ensures { Crossed t below above result }
{
    let mut any: u16 = 0;
    for x in 0usize..16 {
        let v = t[x];
        let w = below[x];
        let u = above[x];
        any = any | (v & (w | u));
    }
    any != 0
}

// Whether a group is the document node's, and a leaf or labelled: l is its label, or 0 for none.
pub fn on_document(root: u16, leaf: u16, group: u16, l: u8) -> bool
    ensures { result ≡ on_document root leaf group l }
{
    meet(root, group) & (meet(leaf, group) | (l != 0))
}

// Whether no row has a number.
pub fn blank(t: [u16; 16]) -> bool
    ensures { Blank t result }
{
    !crossed(t, t, t)
}
