// Turns the text grid on standard input into a map file on standard output. What is wrong with the text goes to standard error, and
// nothing to standard output then.
#![tactic(auto)]

use console::Console;
use std::io::Result;

// The descriptor of standard input.
const STDIN_FILENO: i32 = 0;

// Writes the map file of a grid, which has at most 2,046 bytes.
fn write_map(rt: &(impl Print + Eprint), n: usize, m: usize, grid: &[u8; 1024]) -> Result<()> {
    let mut file = [0u8; 4096];
    if let Ok(k) = writers::write_map(n, m, grid, &mut file) {
        if rt.write_all(&file[..k]).is_err() {
            return eprintln!(rt; "the map file cannot be written");
        }
    }
    Ok(())
}

// Turns the bytes that were read, which fill the buffer where there are more.
fn convert(rt: &(impl Print + Eprint), text: &[u8], is_full: bool) -> Result<()> {
    if is_full {
        let k = text.len();
        return eprintln!(rt; "the text is too long: it has {k} bytes or more");
    }
    let mut grid = [2u8; 1024];
    match grids::read_text(text, &mut grid) {
        Ok((n, m)) => write_map(rt, n, m, &grid),
        Err(wrong) => eprintln!(rt; "{wrong}"),
    }
}

fn main() {
    let mut buf = io::large_buffer();
    let k = io::read_full(STDIN_FILENO, &mut buf);
    // What cannot be written is lost: the status stays 0.
    let _ = convert(&Console, &buf[..k], k == buf.len());
}
