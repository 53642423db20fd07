// A second planner, plan check, placement, routing and follower, written from document 01 in other ways than the proved ones, to compare with them.
// They are proved safe, and nothing is promised of what they compute.
#![tactic(auto)]

pub mod cells;
pub mod checks;
pub mod links;
pub mod maps;
pub mod planner;
pub mod switches;
