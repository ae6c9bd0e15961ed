// toxml: reads node records from standard input, of any length, and writes their tree as XML, with no newline; or `refused` and the number.
#![tactic(auto)]

use pieces::{PIECES_READ, read_pieces};
use reading::standard_input;
use xmltext::XML_BYTES;

fn main(rt: HostRuntime) {
    let mut nodes = [0u8; PIECES_READ];
    let Some(n) = standard_input(&rt, b"usage: toxml < NODES\n", read_pieces, &mut nodes) else {
        return;
    };
    let mut out = [0u8; XML_BYTES];
    let length = xmltext::write(&nodes[..n], &mut out);
    printing::print(&rt, &out[..length]);
}
