// The stages that look for two variables above a third that are not yet one above the other: parent joins and chain joins. They are pub only because
// crates are split.
#![tactic(auto)]

ghost use Rattle.chains.specs.Rows.{Incomparable, ParentIn, ChainIn};

use ids::{Var, Variables};
use stages::{Join, JoinKind};

// The variables that are neither above nor below each.
fn incomparable_rows(below: [u16; 16], above: [u16; 16]) -> [u16; 16]
    ensures { Incomparable below above result }
{
    let mut apart = below;
    for x in 0..16 {
        apart[x] = (apart[x] | above[x]) ^ 65535;
    }
    apart
}

// The first parent join. The parents of z are the same, so the lowest of them decides which x above z are above a parent.
pub fn parent_join(
    parent: [u16; 16],
    below: [u16; 16],
    above: [u16; 16],
    n: Variables,
) -> Option<Join>
    ensures { ParentIn n.count parent below above result }
{
    let vars = tables::all(n);
    for z in 0..n.count {
        let y = tables::lowest(parent[z] & vars);
        if y < 16 {
            let x = tables::lowest(tables::except(above[z] & vars, below[z] | above[y]));
            if x < 16 {
                return Some(Join {
                    kind: JoinKind::Parent,
                    z: Var(z as u8),
                    x: Var(x as u8),
                    y: Var(y as u8),
                });
            }
        }
    }
    None
}

// The first chain join: two variables above z that are incomparable, found from the smaller one. Both are properly above z and incomparable with
// some variable (`loose`), and of most z nothing is.
pub fn chain_join(below: [u16; 16], above: [u16; 16], n: Variables) -> Option<Join>
    ensures { ChainIn n.count below above result }
{
    let vars = tables::all(n);
    let apart = incomparable_rows(below, above);
    let loose = tables::meeting(apart, vars);
    for z in 0..n.count {
        let b = below[z];
        let u = above[z] & vars;
        if tables::except(u & loose, b) != 0 {
            let x = tables::lowest(u & tables::meeting(apart, u));
            if x < 16 {
                let y = tables::lowest(u & apart[x]);
                return Some(Join {
                    kind: JoinKind::Chain,
                    z: Var(z as u8),
                    x: Var(x as u8),
                    y: Var(y as u8),
                });
            }
        }
    }
    None
}
