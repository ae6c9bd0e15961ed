// The first join of a settled set, in the fixed order of kinds: parent joins, chain joins, joins of siblings, joins of the document node.
// Within a kind the smallest first variable, then the second, then the third.
#![tactic(auto)]

ghost use Rattle.std.specs.Prelude.{List};
ghost use Rattle.meaning.specs.Constraint.{Fact};
ghost use Rattle.tables.specs.Tables.{Ready};
ghost use Rattle.joins.specs.Found.{FoundOf};

use ancestors::{document_join, sibling_join};
use chains::{chain_join, parent_join};
use ids::Variables;
use stages::Join;
use tables::Facts;

// The kinds in turn: one is asked where those before it have no join. The rows that decide go on alone: a compiler that takes the body of
// a callee into its caller copies what the callee was passed. The search is not to take in this one: its copies would be on the stack once for each
// alternative that is open.
#[inline(never)]
pub fn first_join(f: Facts, n: Variables) -> Option<Join>
    requires ready { (S : List Fact) × Ready n.count S f }
    ensures { FoundOf n.count f result }
{
    parent_join(f.parent, f.below, f.above, n)
        .or_else(|| chain_join(f.below, f.above, n))
        .or_else(|| sibling_join(f.before, f.after, f.below, f.above, n))
        .or_else(|| document_join(f.child, f.below, f.root, n))
}
