// Prints the text grid of the map file on standard input, of which no more than 4,096 bytes are read. Why a file is no map goes to
// standard error, and nothing to standard output then; bin/mapfile puts it in words.
#![tactic(auto)]

use console::Console;
use readers::Head;
use std::io::Result;

// The descriptor of standard input.
const STDIN_FILENO: i32 = 0;

// Prints the text of a grid, which has at most 1,056 bytes.
fn print_text(rt: &(impl Print + Eprint), head: Head, grid: &[u8]) -> Result<()> {
    let mut text = [0u8; 2048];
    if let Ok(k) = grids::write_text(head.rows, head.columns, grid, &mut text) {
        if rt.write_all(&text[..k]).is_err() {
            return eprintln!(rt; "the text cannot be written");
        }
    }
    Ok(())
}

fn main() {
    let mut buf = io::buffer();
    let n = io::read_full(STDIN_FILENO, &mut buf);
    let mut grid = [2u8; 1024];
    // What cannot be written is lost: the status stays 0.
    let _ = match readers::read_map(&buf[..n], &mut grid) {
        Ok(head) => print_text(&Console, head, &grid),
        Err(r) => eprintln!(Console; "refused {} at byte {}", r.number(), r.place),
    };
}
