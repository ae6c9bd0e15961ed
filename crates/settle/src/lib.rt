// Settling: the tables of rows, closed under the rules of docs/FORMAT.md by passes over x, y and z, and for siblings by rows of before and of child.
#![tactic(auto)]

ghost use Rattle.std.specs.Prelude.{List};
ghost use Rattle.meaning.specs.Constraint.{Fact};
ghost use Rattle.tables.specs.Tables.{Seeded};
ghost use Rattle.settle.specs.Siblings.{Reached, Unlike, Ordered, PassedOn, Parted, OrderOf};
ghost use Rattle.settle.specs.Settling.{SettledOf};

use ids::Variables;
use passes::{chain_rows, grouped, pass_bare};
use tables::Facts;

// Each row of t with what the rows of b hold that the same row of a names.
#[tactic(auto, using(crate::proofs::Reaching::reaching_none))]
fn reach(t: [u16; 16], a: [u16; 16], b: [u16; 16]) -> [u16; 16]
    ensures { Reached t a b result }
{
    let mut r = t;
    for z in 0usize..16 {
        let by = b[z];
        for x in 0usize..16 {
            let v = r[x];
            let w = a[x];
            r[x] = tables::gain(rowbits::has(w, z), v, by);
        }
    }
    r
}

// Whether two tables are not the same. All rows are compared without a branch; == on arrays leaves at the first that
// differs.
#[tactic(auto, using(crate::proofs::Reaching::comparing_none, crate::proofs::Reaching::comparing_more, crate::proofs::Reaching::compared))]
fn unlike(t: [u16; 16], u: [u16; 16]) -> bool
    ensures { Unlike t u result }
{
    let mut any: u16 = 0;
    for x in 0usize..16 {
        let v = t[x];
        let w = u[x];
        any |= v ^ w;
    }
    any != 0
}

// The rows of before, shared within groups in both places and then chained, which keeps them shared. Where each variable is alone in its
// group they are shared as they are.
#[tactic(auto, using(crate::proofs::Reaching::ordered, crate::proofs::Reaching::ordered_alone))]
fn order_rows(before: [u16; 16], same: [u16; 16], n: Variables) -> [u16; 16]
    ensures { Ordered n.count before same result }
{
    if grouped(same) == 0 {
        return chain_rows(before, n);
    }
    let lasts = reach(before, before, same);
    let firsts = reach(lasts, same, lasts);
    chain_rows(firsts, n)
}

// The rows of child, passed to later siblings and to earlier ones.
#[tactic(auto, using(crate::proofs::Reaching::passed_on))]
fn child_rows(child: [u16; 16], before: [u16; 16], after: [u16; 16]) -> [u16; 16]
    ensures { PassedOn child before after result }
{
    reach(child, child, tables::either(before, after))
}

// The rows of differ, with those of a table whose facts give differ, and with its columns.
fn differ_rows(differ: [u16; 16], rows: [u16; 16], columns: [u16; 16]) -> [u16; 16]
    ensures { Parted differ rows columns result }
{
    tables::either(differ, tables::either(rows, columns))
}

// The rows of before, shared and chained, and their columns.
#[derive(Clone, Copy)]
struct Order {
    before: [u16; 16],
    after: [u16; 16],
}

// None where a sibling is above another one.
fn find_order(start: [u16; 16], below: [u16; 16], above: [u16; 16], n: Variables) -> Option<Order>
    ensures { OrderOf n.count start below above result }
{
    let same = tables::common(below, above);
    let before = order_rows(start, same, n);
    if tables::crossed(before, below, above) {
        return None;
    }
    let after = tables::transpose(before);
    Some(Order { before, after })
}

// The tables settled, or None for a clash. Passes until none has more; then, unless no variable is before another, the
// rules of siblings: the rows of before are shared and chained, and those of child passed along them. Where child
// gains nothing by that all rules hold, else rounds go on.
pub fn settle(f: Facts, n: Variables) -> Option<Facts>
    requires { (S : List Fact) × Seeded n.count S f }
    ensures { SettledOf n.count f result }
{
    let mut g = f;
    loop {
        let p = pass_bare(g, n)?;
        g = p.facts;
        if p.more {
            continue;
        }
        let start = g.before;
        if tables::blank(start) {
            return Some(g);
        }
        let Facts {
            child,
            below,
            above,
            differ,
            ..
        } = g;
        let Order { before, after } = find_order(start, below, above, n)?;
        let apart = differ_rows(differ, before, after);
        g.before = before;
        g.after = after;
        g.differ = apart;
        let passed = child_rows(child, before, after);
        if !unlike(child, passed) {
            return Some(g);
        }
        let parent = tables::transpose(passed);
        let differ = differ_rows(apart, passed, parent);
        g.child = passed;
        g.parent = parent;
        g.differ = differ;
    }
}
