// paths: reads a text of paths from standard input and writes the records of its question, for `solve` to read; or `refused` and the number.
#![tactic(auto)]

use reading::{CONSTRAINTS_READ, fill, standard_input};
use text::RECORDS_BYTES;

fn main(rt: HostRuntime) {
    let mut lines = [0u8; CONSTRAINTS_READ];
    let Some(n) = standard_input(&rt, b"usage: paths < TEXT\n", fill, &mut lines) else {
        return;
    };
    let mut out = [0u8; RECORDS_BYTES];
    let length = text::paths(&lines[..n], &mut out);
    printing::print(&rt, &out[..length]);
}
