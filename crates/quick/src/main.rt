// Prints the listing of the map file on standard input by the quick planner. No more than 4,096 bytes are read.
#![tactic(auto)]

use console::Console;
use repair::Planner;

fn main() {
    // What cannot be written is lost: the status stays 0.
    let _ = lister::print_listing(&Console, Planner::Quick);
}
