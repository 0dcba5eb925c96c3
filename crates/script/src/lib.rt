// What a line of a replay script asks for, and the call that it makes. Every function here is pure: bytes and numbers go in,
// structs and enums come out. No public function has a `requires`, so any bytes at all may go in.
#![tactic(auto)]

pub mod calls;
pub mod offer;
pub mod operations;
pub mod request;
pub mod transaction;
