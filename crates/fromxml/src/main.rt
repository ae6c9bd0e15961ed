// fromxml: reads a tree that was written as XML from standard input and writes its node records, numbered in document order; or `refused` and the number.
#![tactic(auto)]

use reading::{fill, standard_input};
use xmltext::{NODES_BYTES, XML_READ};

fn main(rt: HostRuntime) {
    let mut text = [0u8; XML_READ];
    let Some(n) = standard_input(&rt, b"usage: fromxml < TEXT\n", fill, &mut text) else {
        return;
    };
    let mut out = [0u8; NODES_BYTES];
    let length = xmltext::read(&text[..n], &mut out);
    printing::print(&rt, &out[..length]);
}
