// Reads lines from standard input that set up wafers and files or call an operation, and prints each, a call with its answer.
#![tactic(auto)]

mod buffers;
mod calls;
mod reports;
mod settings;
mod show;

use crate::calls::Call;
use crate::settings::State;
use words::{FirstWords, Lines};

// The descriptor of standard input.
const STDIN_FILENO: i32 = 0;

// A line that is no remark: one that sets something up, or a call.
fn obey(state: &mut State, line: &[u8]) {
    let words = FirstWords::of(line);
    let words = words.as_slice();
    if let [b"file", ..] = words {
        state.set_file(line);
    } else if state.set(words).is_none() {
        show::say(" -> ");
        match Call::of(words) {
            Some(call) => calls::make(call, state),
            None => show::say("error"),
        }
    }
}

fn main() {
    let mut text = [0u8; 262144];
    let length = io::read_full(STDIN_FILENO, &mut text);
    let mut state = State::new();
    for line in Lines::of(&text[..length]) {
        show::say_bytes(line);
        // A blank line and a comment do nothing.
        if !matches!(line, [] | [b'#', ..]) {
            obey(&mut state, line);
        }
        show::say("\n");
    }
}
