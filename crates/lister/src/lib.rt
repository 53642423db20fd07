// What the programs bench, quick and decide do: each prints the listing of a map file by a planner of its own.
#![tactic(auto)]

use listing::Text;
use repair::Planner;
use std::io::Result;

// The descriptor of standard input.
const STDIN_FILENO: i32 = 0;

// Prints the listing of the map file on standard input, of which no more than 4,096 bytes are read.
pub fn print_listing(rt: &impl Print, planner: Planner) -> Result<()> {
    let mut buf = io::buffer();
    let n = io::read_full(STDIN_FILENO, &mut buf);
    let mut text = Text::new();
    listing::list_map(planner, &buf[..n], &mut text);
    rt.write_all(text.as_slice())
}
