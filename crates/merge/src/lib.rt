// Entering below(a, b) where it makes variables the same: their group is merged by rows, then that of its parents, and so on upwards; then the
// children of the document node.
#![tactic(auto)]

ghost use Rattle.std.specs.Prelude.{◌<◌, ◌^◌};
ghost use Rattle.std.specs.Int.Bits.{bit_or};
ghost use Rattle.tables.specs.Rows.{Union};
ghost use Rattle.merge.specs.Rows.{WithGap, GapOf, NextOf};
ghost use Rattle.merge.specs.Merging.{RoundOf, Joining, MergedOf};

use grouping::{Round, unify};
use ids::{Var, Variables};
use siblings::pass_on;
use tables::Facts;

// The rows named, if one of them lacks one of them; else no row. Below chains, so that there is no such gap where the lowest has all of them both
// below and above it.
fn with_gap(below: [u16; 16], above: [u16; 16], rows: u16) -> u16
    ensures { GapOf below above rows result }
{
    if rows == 0 {
        return 0;
    }
    let x = tables::lowest(rows);
    if tables::except(rows, below[x] & above[x]) != 0 {
        return rows;
    }
    0
}

// What the rows a and b hold together: `tables::union_rows` of two members, which needs no loop over bits. Two indices
// of one call have no type of their own.
fn union_two(t: [u16; 16], a: usize, b: usize) -> u16
    requires { (a < 16) × (b < 16) }
    ensures { Union t (bit_or (2 ^ a) (2 ^ b)) result }
{
    t[a] | t[b]
}

// Both a and b, if the row of one lacks one of them; else none.
fn two_with_gap(t: [u16; 16], a: usize, b: usize) -> u16
    requires { (a < 16) × (b < 16) }
    ensures { WithGap t (bit_or (2 ^ a) (2 ^ b)) result }
{
    let rows = tables::one(a) | tables::one(b);
    if tables::except(rows, t[a] & t[b]) == 0 {
        return 0;
    }
    rows
}

// What has to become the same next: the parents, if they are not; else the children of the roots, if these are not. Roots share their children, so
// those of the lowest are all. In most sets there is no root, and nothing is looked at for it.
fn next_set(below: [u16; 16], above: [u16; 16], child: [u16; 16], root: u16, parents: u16) -> u16
    ensures { NextOf below above child root parents result }
{
    let next = with_gap(below, above, parents);
    if next != 0 {
        return next;
    }
    if root == 0 {
        return 0;
    }
    let x = tables::lowest(root);
    let elements = child[x];
    with_gap(below, above, elements)
}

// One round: the variables of x become the same, and the next one is for the parents of their group or the children of the roots. In most sets
// nothing is before anything, and a round is to cost no more for it: these leave first. None is a clash.
fn next_round(f: Facts, x: u16, lower: u16, upper: u16) -> Option<Round>
    requires { Union f.below x lower × Union f.above x upper }
    ensures { RoundOf f x result }
{
    let mut r = unify(f, x, lower, upper)?;
    if tables::blank(r.facts.before) {
        r.next = next_set(
            r.facts.below,
            r.facts.above,
            r.facts.child,
            r.facts.root,
            r.next,
        );
        return Some(r);
    }
    let g = pass_on(r.facts, r.group, r.next);
    if tables::crossed(g.before, g.below, g.above) {
        return None;
    }
    r.next = next_set(g.below, g.above, g.child, g.root, r.next);
    r.facts = g;
    Some(r)
}

// Settled tables with below(a, b), settled again, where below(b, a) follows from it. None is a clash.
pub fn enter_same(f: Facts, n: Variables, a: Var, b: Var) -> Option<Facts>
    requires a_lt_n { (a.0 < n.count) × (b.0 < n.count) }
    requires joining { Joining n.count f a.0 b.0 }
    ensures { MergedOf n.count f a.0 b.0 result }
{
    let i = a.0 as usize;
    let j = b.0 as usize;
    let mut g = f;
    let mut x = two_with_gap(f.below, i, j);
    let mut lower = union_two(f.below, i, j);
    let mut upper = union_two(f.above, i, j);
    while x != 0 {
        let r = next_round(g, x, lower, upper)?;
        g = r.facts;
        x = r.next;
        lower = tables::union_rows(g.below, x);
        upper = tables::union_rows(g.above, x);
    }
    Some(g)
}
