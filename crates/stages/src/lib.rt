// What a stage finds. Each kind of join has a stage, which finds the first of its kind: the smallest first variable,
// then the second, then the third.
#![tactic(auto)]

use ids::Var;

#[derive(Clone, Copy, PartialEq, Eq)]
pub enum JoinKind {
    Parent,
    Chain,
    Sibling,
    Document,
}

// A join by its kind and its variables, in the order in which they are compared: z, x, y; of siblings y, a, x; of the
// document node r, y, w.
#[derive(Clone, Copy, PartialEq, Eq)]
pub struct Join {
    pub kind: JoinKind,
    pub z: Var,
    pub x: Var,
    pub y: Var,
}
