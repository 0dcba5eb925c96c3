// Number 1 for each kind of written form that is broken, beside one that is whole: in a call, in the cache, on the disk, and offered
// to a crash. Prints a line for each, `case=NAME answer=N`; every N is document 01's or 02's.
#![tactic(auto)]

mod form_cases;
mod mark_cases;
mod state_cases;

use output::{Output, finish};
use std::io;

fn main(rt: HostRuntime) -> io::Result<()> {
    let mut out = Output::new(rt.stdout());
    form_cases::run(&mut out);
    state_cases::run(&mut out);
    mark_cases::run(&mut out);
    finish(out)
}
