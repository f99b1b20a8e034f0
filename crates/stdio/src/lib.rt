// What the programs over batches share: files read from standard input, text gathered and written, the lines of a load.
#![tactic(auto)]

pub mod input;
pub mod load_lines;
pub mod out;
pub mod told;
