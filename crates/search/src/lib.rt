// The fixed search under an allowance: the first alternative of the first join is searched to its end, the second only if that found
// none. The count of alternatives entered goes through every level.
#![tactic(auto)]

ghost use Rattle.std.specs.Prelude.{List, ◌≤◌};
ghost use Rattle.meaning.specs.Constraint.{Fact};
ghost use Rattle.tables.specs.Tables.{Ready};
ghost use Rattle.search.specs.Searching.{StepOf, Line, tables_of, LineOf, SearchedOf};

use ids::{Var, Variables};
use stages::{Join, JoinKind};
use tables::Facts;

// Of the tables of a tree those that it is read off from.
#[derive(Clone, Copy)]
pub struct Shown {
    pub root: u16,
    pub below: [u16; 16],
    pub above: [u16; 16],
    pub after: [u16; 16],
    pub label: [u8; 16],
}

#[derive(Clone, Copy)]
pub enum End {
    Tree(Shown),
    None,
    Spent,
}

// How the search ended, after how many choices in all.
#[derive(Clone, Copy)]
pub struct Searched {
    pub count: u32,
    pub end: End,
}

// below(upper, lower)
#[derive(Clone, Copy)]
struct Below {
    upper: Var,
    lower: Var,
}

// What the first and the second alternative of a join enter, and whether the variables of the second also differ.
#[derive(Clone, Copy)]
struct Split {
    first: Below,
    second: Below,
    apart: bool,
}

// The alternatives of the first join, or nothing where no join is left. The first of each kind is below(x, y). The
// second of a parent join is same(x, z), where below(x, z) holds already; so it is of siblings, whose y, a, x are z,
// x, y here. Of the document node, whose r, y, w are z, x, y here, it is same(y, z), and below(z, y) holds. That of a
// chain join adds that x and y differ: the first has the trees with both on one node. The kinds are
// closed, so they are a match.
fn next_step(f: Facts, n: Variables) -> Option<Split>
    requires ready { (S : List Fact) × Ready n.count S f }
    ensures { StepOf n.count f result }
{
    let Join { kind, z, x, y } = joins::first_join(f, n)?;
    let first = Below { upper: x, lower: y };
    let (second, apart) = match kind {
        JoinKind::Parent | JoinKind::Sibling => (Below { upper: z, lower: x }, false),
        JoinKind::Chain => (Below { upper: y, lower: x }, true),
        JoinKind::Document => (Below { upper: y, lower: z }, false),
    };
    Some(Split {
        first,
        second,
        apart,
    })
}

// One line of the search, from settled tables without a clash. The tables go in one by one: a copy of all of them at once right after
// they were stored waits for the stores, a copy of a single one is done in registers.
#[cycle(line_search)]
fn line(
    child: [u16; 16],
    parent: [u16; 16],
    below: [u16; 16],
    above: [u16; 16],
    differ: [u16; 16],
    before: [u16; 16],
    after: [u16; 16],
    label: [u8; 16],
    root: u16,
    leaf: u16,
    n: Variables,
    allowance: u32,
    count: u32,
) -> Searched
    requires count_bound { count ≤ allowance }
    requires ready { (S : List Fact) × Ready n.count S (tables_of child parent below above differ before after label root leaf) }
    ensures { LineOf allowance n.count (tables_of child parent below above differ before after label root leaf) count result }
{
    let f = Facts {
        child,
        parent,
        below,
        above,
        differ,
        before,
        after,
        root,
        label,
        leaf,
    };
    let Some(next) = next_step(f, n) else {
        // Out of f: out of the parameters they would be copied once more at the start of every line.
        let Facts {
            root,
            below,
            above,
            after,
            label,
            ..
        } = f;
        let shown = Shown {
            root,
            below,
            above,
            after,
            label,
        };
        return Searched {
            count,
            end: End::Tree(shown),
        };
    };
    if count == allowance {
        return Searched {
            count,
            end: End::Spent,
        };
    }
    // One place for the tables of both alternatives, and one for both answers: a second of each would be 400 bytes
    // more of stack a level.
    let mut entered = enter::enter_below(f, n, next.first.upper, next.first.lower, false);
    let mut ended = search(entered, n, allowance, count + 1);
    let End::None = ended.end else {
        return ended;
    };
    let used = ended.count;
    if used == allowance {
        return Searched {
            count: used,
            end: End::Spent,
        };
    }
    entered = enter::enter_below(f, n, next.second.upper, next.second.lower, next.apart);
    ended = search(entered, n, allowance, used + 1);
    ended
}

// The search from what settling or entering an alternative answered, with so many alternatives entered before.
#[cycle(line_search)]
pub fn search(s: Option<Facts>, n: Variables, allowance: u32, count: u32) -> Searched
    requires count_bound { count ≤ allowance }
    requires line { (S : List Fact) × Line n.count S s }
    ensures { SearchedOf allowance n.count s count result }
{
    let Some(f) = s else {
        return Searched {
            count,
            end: End::None,
        };
    };
    let Facts {
        child,
        parent,
        below,
        above,
        differ,
        before,
        after,
        root,
        label,
        leaf,
    } = f;
    line(
        child, parent, below, above, differ, before, after, label, root, leaf, n, allowance, count,
    )
}
