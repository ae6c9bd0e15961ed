// One pass of settling over x, y and z. What `settle` uses of it is pub only because crates are split.
#![tactic(auto)]

ghost use Rattle.std.specs.Prelude.{◌≡◌, ◌<◌};
ghost use Rattle.passes.specs.Rows.{first_row, Grouped, ChainOf, Chained, GroupsOf, WholeGroups, JoinedOf};
ghost use Rattle.passes.specs.Steps.{SteppedOf, PassRules, BareRules};

use ids::Variables;
use sharing::{Shares, share_rows};
use tables::Facts;

#[tactic(auto, unfolding(crate::specs::Rows::first_row))]
fn first_row(below: u16, child: u16, root: u16, x: usize, n: Variables) -> u16
    requires { x < 16 }
    ensures { result ≡ first_row below child root x n.count }
{
    tables::gain(
        rowbits::has(root, x),
        below | child | tables::one(x),
        tables::all(n),
    )
}

// The rows chained: y by y, each row that has y gains row y.
#[tactic(auto, using(crate::proofs::Chain::lifting_none, crate::proofs::Chain::chain_of))]
pub fn chain_rows(t: [u16; 16], n: Variables) -> [u16; 16]
    ensures { ChainOf n.count t result }
{
    let mut a = t;
    for y in 0..n.count {
        let by = a[y];
        for x in 0usize..16 {
            let v = a[x];
            a[x] = tables::gain(rowbits::has(v, y), v, by);
        }
    }
    a
}

// The rows of below by the rules for itself, child, root and chain.
#[tactic(auto, using(crate::proofs::Chain::chained_rows))]
fn below_rows(below: [u16; 16], child: [u16; 16], root: u16, n: Variables) -> [u16; 16]
    ensures { Chained n.count below child root result }
{
    let mut a = below;
    for x in 0..n.count {
        let v = a[x];
        let c = child[x];
        a[x] = first_row(v, c, root, x, n);
    }
    chain_rows(a, n)
}

// The variables that are in the row of another one.
#[tactic(auto, using(crate::proofs::Chain::grouping_none, crate::proofs::Chain::grouping_more))]
pub fn grouped(same: [u16; 16]) -> u16
    ensures { Grouped same result }
{
    let mut a: u16 = 0;
    for x in 0usize..16 {
        let v = same[x];
        a |= tables::except(v, tables::one(x));
    }
    a
}

// The rows of below chained, their columns, the group of each variable, and the variables that are not alone in theirs.
#[derive(Clone, Copy)]
struct Groups {
    below: [u16; 16],
    above: [u16; 16],
    same: [u16; 16],
    several: u16,
}

fn find_groups(start: [u16; 16], child: [u16; 16], root: u16, n: Variables) -> Groups
    ensures { GroupsOf n.count start child root result }
{
    let below = below_rows(start, child, root, n);
    let above = tables::transpose(below);
    let same = tables::common(below, above);
    Groups {
        below,
        above,
        same,
        several: grouped(same),
    }
}

// A row with the whole group of each of its variables.
fn whole_groups(same: [u16; 16], row: u16) -> u16
    ensures { WholeGroups same row result }
{
    row | tables::meeting(same, row)
}

// No Option: the rows are wanted whether there is more or not.
#[derive(Clone, Copy)]
struct Joined {
    more: bool,
    below: [u16; 16],
}

// The rows of below with what becomes the same: a leaf and all below it, the parents of a child, and the children of a root.
#[tactic(auto, using(crate::proofs::Joining::joining_none, crate::proofs::Joining::joining_all))]
fn join_rows(
    below: [u16; 16],
    above: [u16; 16],
    leaf: u16,
    root: u16,
    child: [u16; 16],
    parent: [u16; 16],
    n: Variables,
) -> Joined
    ensures { JoinedOf n.count below above leaf root child parent result }
{
    let mut a = below;
    let mut more = false;
    for x in 0..n.count {
        let old = a[x];
        let up = above[x];
        let c = child[x];
        let p = parent[x];
        let others = tables::union_rows(parent, c) | tables::union_rows(child, p & root);
        let new = old | (up & leaf) | others;
        more |= old != new;
        a[x] = new;
    }
    Joined { more, below: a }
}

// What a step of settling makes of the tables, and whether another round may find more. A step that finds a clash
// answers None; the tables are wanted whether there is more or not.
#[derive(Clone, Copy)]
pub struct Stepped {
    pub more: bool,
    pub facts: Facts,
}

// One pass, the step for the rules of sharing, of one parent and of one element, which leaves before as it is. The rows of below are chained first, so that the
// groups are known. Where nothing else becomes the same those rules hold.
fn pass(f: Facts, n: Variables) -> Option<Stepped>
    ensures { SteppedOf (PassRules n.count) n.count f result }
{
    let Facts {
        child,
        parent,
        below,
        differ,
        before,
        after,
        label,
        ..
    } = f;
    let Groups {
        below,
        above,
        same,
        several,
    } = find_groups(below, child, f.root, n);
    let root = whole_groups(same, f.root);
    let leaf = whole_groups(same, f.leaf);
    let given = Shares {
        child,
        parent,
        differ,
        label,
    };
    let Shares {
        child,
        parent,
        differ,
        label,
    } = share_rows(given, same, several, n)?;
    let Joined { more, below } = join_rows(below, above, f.leaf, root, child, parent, n);
    let facts = Facts {
        child,
        parent,
        below,
        above,
        differ,
        before,
        after,
        root,
        label,
        leaf,
    };
    Some(Stepped { more, facts })
}

// A pass, with a clash also where the document node is a leaf or has a label.
pub fn pass_bare(f: Facts, n: Variables) -> Option<Stepped>
    ensures { SteppedOf (BareRules n.count) n.count f result }
{
    let p = pass(f, n)?;
    let root = p.facts.root;
    let l = tables::label_of(p.facts.label, root);
    if tables::on_document(root, p.facts.leaf, root, l) {
        return None;
    }
    Some(p)
}
