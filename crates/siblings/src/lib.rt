// What a group that was made passes on to its siblings, by rows. `pass_on` is pub only because crates are split.
#![tactic(auto)]

ghost use Rattle.grouping.specs.Rows.{Spread};
ghost use Rattle.siblings.specs.Rows.{Family};
ghost use Rattle.siblings.specs.Passing.{GivenToFamily, PassedOf};

use tables::Facts;

// The rows of the group with `along`, and the rows of `across` with the group. `grouping::unify` writes this out: the call is not inlined, and each
// round has to wait for it.
fn spread(t: [u16; 16], group: u16, along: u16, across: u16) -> [u16; 16]
    ensures { Spread t group along across result }
{
    tables::raise(tables::raise(t, group, along), across, group)
}

// All that a chain of rows of the two tables leads to from the group.
fn family(before: [u16; 16], after: [u16; 16], group: u16) -> u16
    ensures { Family before after group result }
{
    let mut all = group;
    loop {
        let later = tables::union_rows(before, all);
        let earlier = tables::union_rows(after, all);
        let more = tables::except(later | earlier, all);
        if more == 0 {
            return all;
        }
        all = all | more;
    }
}

// Before chained through the group, and its parents given to its whole family: what is earlier than the group is before what is later, the
// parents are parents of every member of the family, and so at or above all that is at or below one.
fn to_family(f: Facts, group: u16, parents: u16, earlier: u16, later: u16) -> Facts
    ensures { GivenToFamily f group parents earlier later result }
{
    let kin = family(f.before, f.after, group);
    let over = tables::union_rows(f.above, parents);
    let under = tables::union_rows(f.below, kin);
    let before = tables::raise(f.before, earlier, later);
    let after = tables::raise(f.after, later, earlier);
    let child = tables::raise(f.child, parents, kin);
    let parent = tables::raise(f.parent, kin, parents);
    let below = tables::raise(f.below, over, under);
    let above = tables::raise(f.above, under, over);
    let differ = spread(spread(f.differ, earlier, later, later), parents, kin, kin);
    Facts {
        child,
        parent,
        below,
        above,
        differ,
        before,
        after,
        ..f
    }
}

// The group shares before, and passes on what it has to its siblings, if there are any.
pub fn pass_on(f: Facts, group: u16, parents: u16) -> Facts
    ensures { PassedOf f group parents result }
{
    let later = tables::union_rows(f.before, group);
    let earlier = tables::union_rows(f.after, group);
    if earlier | later == 0 {
        return f;
    }
    let before = spread(f.before, group, later, earlier);
    let after = spread(f.after, group, earlier, later);
    to_family(Facts { before, after, ..f }, group, parents, earlier, later)
}
