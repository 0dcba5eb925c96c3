// What no list of joined calls leads to, on states made by hand, and what is no joined call: a step on the cache alone, a formatting. Prints a
// line for each: `case=NAME answer=N` for a call of cache and disk, where every N is document 01's or 02's, and `case=NAME lost=X added=Y altered=Z`
// for the counts of demand 3, which are 0 after every list. Then nodes are compared, carried ones among them: `case=NAME equal=1` where the two are
// equal, else `equal=0`; reads are answered that cache and disk have, or only one of the two; and nodes are compared with a working picture's:
// `case=NAME picture=same` where it has that node of the reference, else `picture=other`. Then the two freeze rules: `case=NAME rule=R`
// is the rule that a disk carries. Last, lists of operations, with the place of each refusal. (`forms` has the written forms that are
// broken.)
#![tactic(auto)]

mod audit_cases;
mod cache_cases;
mod crash_cases;
mod disk_cases;
mod joined_cases;
mod letgo_cases;
mod list_cases;
mod node_cases;
mod rule_cases;
mod screen_cases;

use output::{Output, finish};
use std::io;

fn main(rt: HostRuntime) -> io::Result<()> {
    let mut out = Output::new(rt.stdout());
    disk_cases::run(&mut out);
    crash_cases::run(&mut out);
    cache_cases::run(&mut out);
    joined_cases::run(&mut out);
    audit_cases::run(&mut out);
    node_cases::run(&mut out);
    letgo_cases::run(&mut out);
    screen_cases::run(&mut out);
    rule_cases::run(&mut out);
    list_cases::run(&mut out);
    finish(out)
}
