// solve: solves the constraints of standard input and prints the verdict and its count, or `refused` and the number; then, of a tree, a line
// for each node and for each variable.
#![tactic(auto)]

use reading::{CONSTRAINTS_READ, fill, standard_input};
use text::TEXT_BYTES;

fn main(rt: HostRuntime) {
    let mut constraints = [0u8; CONSTRAINTS_READ];
    let Some(n) = standard_input(&rt, b"usage: solve < CONSTRAINTS\n", fill, &mut constraints)
    else {
        return;
    };
    let mut out = [0u8; TEXT_BYTES];
    let length = text::solve(&constraints[..n], &mut out);
    printing::print(&rt, &out[..length]);
}
