// Variables become one group, by rows. What `merge` uses of it is pub only because crates are split: the caller shows what `unify` requires.
#![tactic(auto)]

ghost use Rattle.std.specs.Prelude.{◌≡◌, true};
ghost use Rattle.tables.specs.Rows.{Union, LabelOf};
ghost use Rattle.grouping.specs.Rows.{TwoLabels, Painted};
ghost use Rattle.grouping.specs.Grouping.{UnifiedOf};

use tables::Facts;

// Whether one of the variables named has another label than l.
fn two_labels(t: [u8; 16], rows: u16, l: u8) -> bool
    requires { LabelOf t rows l }
    ensures { TwoLabels t rows l result }
{
    if l == 0 {
        return false;
    }
    let mut rest = rows;
    while rest != 0 {
        let x = tables::lowest(rest);
        let v = t[x];
        if (v != 0) & (v != l) {
            return true;
        }
        rest = tables::rest(rest);
    }
    false
}

// The label l given to each of the variables named.
fn paint(t: [u8; 16], rows: u16, l: u8) -> [u8; 16]
    requires { LabelOf t rows l }
    ensures { Painted t rows l result }
{
    let mut a = t;
    if l == 0 {
        return a;
    }
    let mut rest = rows;
    while rest != 0 {
        let x = tables::lowest(rest);
        a[x] = l;
        rest = tables::rest(rest);
    }
    a
}

// The tables after a step, the group that was made, and the variables that have yet to become the same: after `unify` the parents of the group.
#[derive(Clone, Copy)]
pub struct Round {
    pub next: u16,
    pub group: u16,
    pub facts: Facts,
}

// The variables of x become the same. All that is at or above one of them and at or below one becomes one group, and
// shares its facts; a leaf at or above x is the same as all below it, so that these join the group. Before is left as
// it is. None is a clash.
pub fn unify(f: Facts, x: u16, lower: u16, upper: u16) -> Option<Round>
    requires { Union f.below x lower × Union f.above x upper }
    ensures { UnifiedOf f x result }
{
    let down = x | lower;
    let near = x | upper;
    let far = tables::union_rows(f.above, tables::when(tables::meet(near, f.leaf), down));
    let up = near | far;
    let group = up & down;
    let others = tables::union_rows(f.differ, group);
    if tables::meet(others, group) {
        return None;
    }
    let shown = tables::label_of(f.label, group);
    if two_labels(f.label, group, shown) {
        return None;
    }
    if tables::on_document(f.root, f.leaf, group, shown) {
        return None;
    }
    let children = tables::union_rows(f.child, group);
    let parents = tables::union_rows(f.parent, group);
    let below = tables::raise(f.below, up, down);
    let above = tables::raise(f.above, down, up);
    let child = tables::raise(tables::raise(f.child, group, children), parents, group);
    let parent = tables::raise(tables::raise(f.parent, group, parents), children, group);
    let differ = tables::raise(tables::raise(f.differ, group, others), others, group);
    let label = paint(f.label, group, shown);
    let root = tables::gain(tables::meet(f.root, group), f.root, group);
    let leaf = tables::gain(tables::meet(f.leaf, group), f.leaf, group);
    Some(Round {
        next: parents,
        group,
        facts: Facts {
            child,
            parent,
            below,
            above,
            differ,
            root,
            label,
            leaf,
            ..f
        },
    })
}
