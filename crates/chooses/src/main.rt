// The chooser and the marks (document 02, Q-1) on states made by hand. Prints a line for each case: `case=NAME answer=N block=K addr=A free=F last=L
// kept=Y` for a call of the chooser on the store, where L is the block given last afterwards and Y is 1 where the cache is otherwise as it was; and
// `case=NAME answer=N low=X high=Y last=L` for a step on the cache alone, with the two words of the marks that it leaves. (`forms` has the marks that
// are refused.)
#![tactic(auto)]

mod choose_cases;
mod disk_cases;
mod step_cases;

use output::{Output, finish};
use std::io;

fn main(rt: HostRuntime) -> io::Result<()> {
    let mut out = Output::new(rt.stdout());
    choose_cases::run(&mut out);
    disk_cases::run(&mut out);
    step_cases::run(&mut out);
    finish(out)
}
