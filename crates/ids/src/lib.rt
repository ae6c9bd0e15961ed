// Variables and nodes are numbered apart: variable 3 is never taken for node 3. Only an assignment leads from one to the other.
#![tactic(auto)]

ghost use Rattle.std.specs.Prelude.{◌≤◌};

// The number of a variable, 0 to 15 in an accepted file.
#[derive(Clone, Copy, PartialEq, Eq)]
pub struct Var(pub u8);

// The number of a node.
#[derive(Clone, Copy, PartialEq, Eq)]
pub struct Node(pub u8);

// How many variables there are: at most 16.
#[derive(Clone, Copy)]
pub struct Variables {
    pub count: usize,
    ghost few: { count ≤ 16 },
}
