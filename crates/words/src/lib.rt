// The text of a replay script's words: bytes, numbers, places, contents, lists, nodes and tables, and what kind of line it is. Every
// function here is pure, and nothing has a `requires`, so any bytes at all may go in.
#![tactic(auto)]

pub mod contents;
pub mod digits;
pub mod line;
pub mod lists;
pub mod tables;
pub mod text;
