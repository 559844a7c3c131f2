// The lines of the cases as texts. Each code has a file, which names its blocks.
#![tactic(auto)]

pub mod ceilings;
pub mod cores;
pub mod lines;
pub mod newtables;
pub mod orders;
pub mod outputs;
pub mod planlines;
pub mod quicks;
pub mod recordlines;
pub mod tables;
