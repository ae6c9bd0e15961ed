// Entering below(a, b) into settled tables, alone or with differ(a, b).
#![tactic(auto)]

ghost use Rattle.std.specs.Prelude.{List, ◌<◌};
ghost use Rattle.meaning.specs.Constraint.{Fact};
ghost use Rattle.meaning.specs.Finite.{Yes};
ghost use Rattle.tables.specs.Tables.{Ready};
ghost use Rattle.enter.specs.Entered.{entering, Forked, EnteredOf};
ghost use Rattle.enter.specs.Rows.{PartedOf};

use ids::{Var, Variables};
use tables::Facts;

// The rows t, with the variables that are the same as a apart from those that are the same as b. Variables are the same exactly where they have one row of
// `below`: rows are compared eight at a time, where the bits of a group would be looked at one by one.
fn parted(t: [u16; 16], below: [u16; 16], above: [u16; 16], a: usize, b: usize) -> [u16; 16]
    requires { (a < 16) × (b < 16) }
    ensures { PartedOf t below above a b result }
{
    let u = below[a];
    let v = below[b];
    let x = above[a];
    let y = above[b];
    let half = tables::raise_alike(t, below, u, v & y);
    tables::raise_alike(half, below, v, u & x)
}

// The tables with below(a, b), settled again; None is a clash. Where b is not at or above a and no leaf is, nothing
// becomes the same: the new facts are below(u, v) with u at or above a and v at or below b, and they clash only with
// before. Elsewhere a and b become the same.
// With `apart` a and b are those of a chain join, so nothing becomes the same: their groups, which then differ, stay two, and no clash can come of it.
pub fn enter_below(f: Facts, n: Variables, a: Var, b: Var, apart: bool) -> Option<Facts>
    requires a_lt_n { (a.0 < n.count) × (b.0 < n.count) }
    requires ready { (S : List Fact) × Ready n.count S f }
    requires forked { Yes apart → Forked f a.0 b.0 }
    ensures { EnteredOf n.count f (entering a.0 b.0 apart) result }
{
    let i = a.0 as usize;
    let j = b.0 as usize;
    let rows = f.below;
    let columns = f.above;
    let down = rows[j];
    let up = columns[i];
    if rowbits::has(down, i) | tables::meet(up, f.leaf) {
        // out of its Option and into one again: one that is handed on whole is copied across the borders of the tables
        let merged = merge::enter_same(f, n, a, b)?;
        return Some(merged);
    }
    let below = tables::raise(rows, up, down);
    let above = tables::raise(columns, down, up);
    // most sets have no before, and are not to wait for the test
    if !tables::blank(f.before) && tables::crossed(f.before, below, above) {
        return None;
    }
    let mut g = f;
    g.below = below;
    g.above = above;
    if apart {
        let old = f.differ;
        let known = old[i];
        // in many sets they differ already
        if !rowbits::has(known, j) {
            let differ = parted(old, rows, columns, i, j);
            g.differ = differ;
        }
    }
    Some(g)
}
