// Document 02's journal bytes (Q-3): a program that holds a device's journal in memory lends it and gets the bytes of a circular range back,
// the front part by one call and the back part by another. Each is a part of the lent area itself, so nothing is copied; a part that doesn't
// exist is empty, and so is a refused one. The companion of each call gives its number on the same inputs: 1 for a device above 2, or
// where upstream's `requires` of the part's location fails (the front takes any length, the back at most the journal's); else 23 where the
// lent area isn't exactly as long as the device's journal; else 0. `front_part` and `back_part` tell the same of a count of bytes: the refusal, or
// where in an area of so many bytes the part lies. No call has a `requires`.
#![tactic(auto)]

mod parts;

pub use parts::{back, back_part, back_result, front, front_part, front_result};
