// The answer file of settled tables: the document node, with the variables that are root on it, and a blank element unless one group stands next under
// it; a node for each group of the other variables, by depth, then siblings in their order and otherwise by lowest variable; and the node of each variable.
#![tactic(auto)]

ghost use Rattle.std.specs.Prelude.{◌≡◌, [], ◌∷◌, suc, ◌+◌, ◌*◌, ◌≤◌, length};
ghost use Rattle.meaning.specs.Finite.{one};
ghost use Rattle.readoff.specs.Nodes.{node_numbers};
ghost use Rattle.readoff.specs.Planned.{number_for, LedFor, nodes_for, parent_for, record_for};
ghost use Rattle.readoff.specs.Written.{Recorded, Put, blank_at, place_record, SomeReady, WrittenOf};

use ids::{Node, Var, Variables};
use ordering::{Ancestry, Front, Order};

// What the nodes are read from: what is above and below each variable, the lowest of the groups as a row and in their
// order, and what is in front of them.
#[derive(Clone, Copy)]
struct Plan {
    ancestry: Ancestry,
    lows: u16,
    order: Order,
    front: Front,
}

impl Plan {
    // The parent of a group, where these variables are over it.
    #[tactic(auto, using(crate::proofs::Sets::parent), unfolding(crate::specs::Nodes::parent_in))]
    fn parent_of(&self, over: u16) -> Node
        ensures { result.0 ≡ parent_for self.now over }
    {
        if over & self.lows == 0 {
            return self.front.top();
        }
        self.front.node_at(self.order.nearest(&self.ancestry, over))
    }

    // The node of each variable: the document node, or that of the lowest of its group.
    #[tactic(auto, using(crate::proofs::Sets::assigning))]
    fn assign(&self, root: u16) -> [Node; 16]
        requires { LedFor self.now root }
        ensures { node_numbers self.now.ancestry.n.count result ≡ nodes_for self.now root }
    {
        let mut nodes = [Node(0); 16];
        let at = self.order.places();
        for x in 0..self.ancestry.n.count {
            if rowbits::has(root, x) {
                nodes[x] = Node(0);
                continue;
            }
            let low = tables::lowest(self.ancestry.above[x] & self.ancestry.below[x]);
            nodes[x] = self.front.node_at(at[low] as usize);
        }
        nodes
    }

    // Puts the nodes of the groups.
    #[tactic(auto, using(crate::proofs::Sets::node_records))]
    fn put_nodes(&self, answer: &mut [u8], label: [u8; 16])
        requires { number_for self.now self.now.order.len * 4 ≤ length answer.old }
        ensures { Recorded (number_for self.now) (record_for self.now label) self.now.order.len answer.old answer.new }
    {
        for i in 0..self.order.len {
            let g = self.order.group[i];
            let parent = self.parent_of(self.ancestry.over(g));
            put_node(answer, self.front.node_at(i), parent, label[g.0 as usize]);
        }
    }
}

// A record of four bytes, at its number.
fn put(answer: &mut [u8], number: usize, bytes: [u8; 4])
    requires { number * 4 + 4 ≤ length answer.old }
    ensures { Put number bytes answer.old answer.new }
{
    let at = number * 4;
    answer[at..at + 4].copy_from_slice(&bytes);
}

fn put_node(answer: &mut [u8], own: Node, parent: Node, label: u8)
    requires { own.0 * 4 + 4 ≤ length answer.old }
    ensures { Put own.0 (1 ∷ own.0 ∷ parent.0 ∷ label ∷ []) answer.old answer.new }
{
    put(answer, own.0 as usize, [1, own.0, parent.0, label]);
}

fn put_place(answer: &mut [u8], number: usize, own: Var, node: Node)
    requires { number * 4 + 4 ≤ length answer.old }
    ensures { Put number (2 ∷ own.0 ∷ node.0 ∷ 0 ∷ []) answer.old answer.new }
{
    put(answer, number, [2, own.0, node.0, 0]);
}

// The document node and the blank element.
fn put_front(answer: &mut [u8], front: Front)
    requires { suc (one front.element) * 4 ≤ length answer.old }
    ensures { Recorded (λ v. v) blank_at (suc (one front.element)) answer.old answer.new }
{
    put_node(answer, Node(0), Node(0), 0);
    if front.element {
        put_node(answer, Node(1), Node(0), 0);
    }
}

// The places of the variables.
#[tactic(auto, using(crate::proofs::Written::recorded_none))]
fn put_places(answer: &mut [u8], first: usize, nodes: [Node; 16], n: Variables)
    requires { (first + n.count) * 4 ≤ length answer.old }
    ensures { Recorded (λ x. first + x) (place_record (node_numbers n.count nodes)) n.count answer.old answer.new }
{
    for x in 0..n.count {
        put_place(answer, first + x, Var(x as u8), nodes[x]);
    }
}

// The answer file of settled tables at the front of the buffer, and how many bytes it has. Of the tables it wants these rows alone.
#[tactic(auto, using(crate::proofs::Sets::numbers))]
pub fn read_off(
    below: [u16; 16],
    above: [u16; 16],
    after: [u16; 16],
    label: [u8; 16],
    root: u16,
    n: Variables,
    answer: &mut [u8],
) -> usize
    requires { (136 ≤ length answer.old) × SomeReady below above after label root n.count }
    ensures { WrittenOf below above after label root n.count answer.old result answer.new }
{
    let ancestry = Ancestry { below, above, n };
    let lows = ancestry.lows(root);
    let layer = ancestry.layers(lows);
    let order = Order::in_order(layer, after, n);
    let front = Front::of(layer[0]);
    let plan = Plan {
        ancestry,
        lows,
        order,
        front,
    };
    put_front(answer, front);
    plan.put_nodes(answer, label);
    let first = front.node_at(order.len).0 as usize;
    let nodes = plan.assign(root);
    put_places(answer, first, nodes, n);
    (first + n.count) * 4
}
