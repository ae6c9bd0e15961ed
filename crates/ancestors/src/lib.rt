// The stages that look for an ancestor that variables have yet to share: joins of siblings, and joins of the document node, whose child is above all
// but the roots. They are pub only because crates are split.
#![tactic(auto)]

ghost use Rattle.ancestors.specs.Rows.{Missing, SiblingIn, DocumentIn};

use ids::{Var, Variables};
use stages::{Join, JoinKind};

// What of a row is missing in one of the rows named.
#[tactic(auto, using(crate::proofs::Lacks::lacks_all))]
fn missing(t: [u16; 16], rows: u16, of: u16) -> u16
    ensures { Missing t rows of result }
{
    let mut a: u16 = 0;
    let mut left = rows;
    while left != 0 {
        let x = tables::lowest(left);
        a |= tables::except(of, t[x]);
        left = tables::rest(left);
    }
    a
}

// The first join of siblings: a is properly above y and missing above x, a sibling of y. In most sets nothing is before anything, and most variables
// have no siblings.
pub fn sibling_join(
    before: [u16; 16],
    after: [u16; 16],
    below: [u16; 16],
    above: [u16; 16],
    n: Variables,
) -> Option<Join>
    ensures { SiblingIn n.count before after below above result }
{
    if tables::blank(before) {
        return None;
    }
    let vars = tables::all(n);
    for y in 0..n.count {
        let s = (before[y] | after[y]) & vars;
        if s != 0 {
            let over = tables::except(above[y] & vars, below[y]);
            let a = tables::lowest(missing(above, s, over));
            if a < 16 {
                let x = tables::lowest(tables::except(s, below[a]));
                return Some(Join {
                    kind: JoinKind::Sibling,
                    z: Var(y as u8),
                    x: Var(a as u8),
                    y: Var(x as u8),
                });
            }
        }
    }
    None
}

// The first join of the document node r: w is neither a root nor below the element y. Roots are the same, and so are their children, so the
// lowest root and its lowest child decide which w are left. Most sets name no root.
pub fn document_join(child: [u16; 16], below: [u16; 16], root: u16, n: Variables) -> Option<Join>
    ensures { DocumentIn n.count child below root result }
{
    let vars = tables::all(n);
    let r = tables::lowest(root & vars);
    if r < 16 {
        let y = tables::lowest(child[r] & vars);
        if y < 16 {
            let w = tables::lowest(tables::except(vars, root | below[y]));
            if w < 16 {
                return Some(Join {
                    kind: JoinKind::Document,
                    z: Var(r as u8),
                    x: Var(y as u8),
                    y: Var(w as u8),
                });
            }
        }
    }
    None
}
