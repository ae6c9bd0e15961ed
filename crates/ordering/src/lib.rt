// The groups in the order of their nodes: by depth, then siblings in their order and otherwise by lowest variable; the place of each and of the nearest over
// one, and the node of a place. Functions are `pub` here only because crates are split: every caller shows what one requires.
#![tactic(auto)]

ghost use Rattle.std.specs.Prelude.{◌≡◌, ◌≢◌, ◌++◌, [], ◌∷◌, ◌+◌, ◌<◌, ◌≤◌, length};
ghost use Rattle.std.specs.Int.Bits.{bit_and};
ghost use Rattle.std.specs.Int.Count.{ones};
ghost use Rattle.meaning.specs.Finite.{one, position};
ghost use Rattle.tables.specs.Tables.{row};
ghost use Rattle.ordering.specs.Rows.{Gathered, over_row, is_low, is_lowest, deep, AreLayers, near};
ghost use Rattle.ordering.specs.Numbering.{element_of, numbered};
ghost use Rattle.ordering.specs.Listing.{numbers, AreVariables, Strict, Earliest, in_line, listed, Placed};

use ids::{Node, Var, Variables};

// The rows of what is below and above each of the variables.
#[derive(Clone, Copy)]
pub struct Ancestry {
    pub below: [u16; 16],
    pub above: [u16; 16],
    pub n: Variables,
}

impl Ancestry {
    // The variables over x.
    #[tactic(auto, unfolding(crate::specs::Rows::over_row))]
    pub fn over(&self, x: Var) -> u16
        requires { x.0 < 16 }
        ensures { result ≡ over_row self.now.n.count (row self.now.above x.0) (row self.now.below x.0) }
    {
        let up = self.above[x.0 as usize];
        let down = self.below[x.0 as usize];
        tables::except(up, down) & tables::all(self.n)
    }

    // Whether no smaller variable is in the group of x.
    #[tactic(auto, unfolding(crate::specs::Rows::is_low))]
    fn is_low(&self, x: Var) -> bool
        requires { x.0 < 16 }
        ensures { result ≡ is_low self.now.below self.now.above x.0 }
    {
        let up = self.above[x.0 as usize];
        let down = self.below[x.0 as usize];
        up & down & (tables::one(x.0 as usize) - 1) == 0
    }

    // The lowest variables of the groups. Those that are root are on the document node, and no group.
    #[tactic(auto, using(crate::proofs::Bits::gather_none))]
    pub fn lows(&self, root: u16) -> u16
        ensures { Gathered self.now.n.count (is_lowest self.now.below self.now.above root) result }
    {
        let mut a: u16 = 0;
        for x in 0..self.n.count {
            a = tables::gain_one(self.is_low(Var(x as u8)), a, x);
        }
        tables::except(a, root)
    }

    // How many of the lowest variables are over x.
    #[tactic(auto, unfolding(crate::specs::Rows::deep))]
    fn depth(&self, lows: u16, x: Var) -> usize
        requires { x.0 < 16 }
        ensures value { result ≡ deep self.now.below self.now.above self.now.n.count lows x.0 }
        ensures most { result ≤ 16 }
    {
        count(self.over(x) & lows)
    }

    // The groups of each depth. A depth is a count of sixteen bits, so at most 16.
    #[tactic(auto, using(crate::proofs::Layered::layered_none))]
    pub fn layers(&self, lows: u16) -> [u16; 17]
        ensures { AreLayers self.now.below self.now.above self.now.n.count lows result }
    {
        let mut layer = [0u16; 17];
        for x in 0..self.n.count {
            let depth = self.depth(lows, Var(x as u8));
            layer[depth] = tables::gain_one(rowbits::has(lows, x), layer[depth], x);
        }
        layer
    }

    // Whether w is over, and over nothing else that is.
    #[tactic(auto, using(tables::proofs::Helpers::and_is), unfolding(crate::specs::Rows::near))]
    fn is_near(&self, over: u16, w: Var) -> bool
        requires { w.0 < 16 }
        ensures { result ≡ near self.now.below self.now.above over w.0 }
    {
        let down = self.below[w.0 as usize];
        let up = self.above[w.0 as usize];
        rowbits::has(over, w.0 as usize) & (over & tables::except(down, up) == 0)
    }
}

fn count(row: u16) -> usize
    ensures { (result ≡ ones row) × (result ≤ 16) }
{
    row.count_ones() as usize
}

// The lowest member of a row that none of them goes before. There is one, so the loop is left within.
#[tactic(auto, using(tables::proofs::Members::passed_none))]
fn earliest(after: [u16; 16], row: u16) -> usize
    requires { (row ≢ 0) × Strict after }
    ensures { Earliest after row result }
{
    let mut left = row;
    loop {
        let x = tables::lowest(left);
        let earlier = after[x];
        if row & earlier == 0 {
            return x;
        }
        left = tables::rest(left);
    }
}

// The groups in the order of their nodes, each by its lowest variable.
// `long` repeats the type of `group`, for proofs about a struct that holds an order.
#[derive(Clone, Copy)]
pub struct Order {
    pub group: [Var; 16],
    pub len: usize,
    pub ghost long: { length group ≡ 16 },
    pub ghost few: { len ≤ 16 },
    pub ghost inside: { AreVariables (numbers group len) },
}

impl Order {
    ghost use Rattle.ordering.specs.Groups.{groups};

    #[tactic(auto, using(crate::proofs::Listing::no_groups), unfolding(crate::specs::Groups::groups))]
    fn new() -> Self
        ensures { groups result ≡ [] }
    {
        Order {
            group: [Var(0); 16],
            len: 0,
        }
    }

    fn push(&mut self, x: Var)
        requires { (x.0 < 16) × (self.old.len < 16) }
        ensures { groups self.new ≡ groups self.old ++ x.0 ∷ [] }
    {
        self.group[self.len] = x;
        self.len += 1;
    }

    // Puts the members of a row behind the groups, each after those that go before it.
    #[tactic(auto, using(crate::proofs::Listing::appending))]
    fn append(&mut self, row: u16, after: [u16; 16])
        requires { (length (groups self.old) + length (in_line after row) ≤ 16) × Strict after }
        ensures { groups self.new ≡ groups self.old ++ in_line after row }
    {
        let mut rest = row;
        while rest != 0 {
            let x = earliest(after, rest);
            self.push(Var(x as u8));
            rest = tables::except(rest, tables::one(x));
        }
    }

    // The groups layer by layer.
    #[tactic(auto, using(crate::proofs::Listing::listing))]
    pub fn in_order(layer: [u16; 17], after: [u16; 16], n: Variables) -> Self
        requires { (length (listed after layer n.count) ≤ 16) × Strict after }
        ensures { groups result ≡ listed after layer n.count }
    {
        let mut order = Order::new();
        for d in 0..n.count {
            order.append(layer[d], after);
        }
        order
    }

    // The place of each group, by its lowest variable: the first place of each, as the last are stored first.
    #[tactic(auto, using(crate::proofs::Listing::placing))]
    pub fn places(&self) -> [u8; 16]
        ensures { Placed (groups self.now) result }
    {
        let mut a = [0u8; 16];
        for i in (0..self.len).rev() {
            let g = self.group[i];
            a[g.0 as usize] = i as u8;
        }
        a
    }

    // The place of the nearest group of those over one variable, or how many groups there are where none is: the meaning's `position`, and so no Option.
    pub fn nearest(&self, ancestry: &Ancestry, over: u16) -> usize
        ensures { result ≡ position (near ancestry.now.below ancestry.now.above over) (groups self.now) }
    {
        self.group[..self.len]
            .iter()
            .position(|w| ancestry.is_near(over, *w))
            .unwrap_or(self.len)
    }
}

// What is in front of the nodes of the groups: the document node, node 0, and perhaps a blank element, node 1.
#[derive(Clone, Copy)]
pub struct Front {
    pub element: bool,
}

impl Front {
    // In front of these groups at the top there is an element unless there is exactly one group.
    #[tactic(auto, using(crate::proofs::Bits::not_is), unfolding(crate::specs::Numbering::element_of))]
    pub fn of(top: u16) -> Self
        ensures { one result.element ≡ element_of (ones top) }
    {
        Front {
            element: count(top) != 1,
        }
    }

    // The parent of a group at the top: the blank element, or else the document node.
    #[tactic(auto, using(crate::proofs::Bits::byte_is))]
    pub fn top(self) -> Node
        ensures { result.0 ≡ one self.element }
    {
        Node(self.element as u8)
    }

    // The node of the group at a place of the order.
    #[tactic(auto, using(crate::proofs::Bits::byte_is), unfolding(crate::specs::Numbering::numbered))]
    pub fn node_at(self, place: usize) -> Node
        requires { numbered (one self.element) place < 256 }
        ensures { result.0 ≡ numbered (one self.element) place }
    {
        node_at(self.element as u8, place)
    }
}

// The node of the group at a place of the order, behind the document node and so many blank elements. `Front` asks it; it stands for any number of
// them, as it promised.
pub fn node_at(element: u8, place: usize) -> Node
    requires { numbered element place < 256 }
    ensures { result.0 ≡ numbered element place }
{
    Node((1 + element as usize + place) as u8)
}
