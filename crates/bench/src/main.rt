// The joined call in a loop, to be timed (docs/PERFORMANCE.md): `bench ROUNDS` runs the script of 91 calls so many times, and prints
// the calls made, those accepted, and a checksum of the answers, of the contents read and of the places where a list failed.
#![tactic(auto)]

ghost use Rattle.std.specs.Prelude.{◌≤◌, IfOk};

mod calls;
mod script;
mod steps;

use calls::State;
use output::{Output, finish, text, word};
use std::rt::Env;
use std::{env, io};

// The digit's value; 0 for another byte.
fn digit(b: u8) -> u64
    ensures { result ≤ 9 }
{
    if b < 48 {
        return 0;
    }
    if b > 57 {
        return 0;
    }
    calls::wide(b - 48)
}

// The number that the digits are; past 99 million it grows no more.
fn number(digits: &[u8]) -> u64
    ensures { result ≤ 99999999 }
{
    let mut n: u64 = 0;
    for i in 0..digits.len() {
        let d = digit(digits[i]);
        if n < 9999999 {
            n = n * 10 + d;
        }
    }
    n
}

// The program's first argument; 0 where it has none.
fn rounds(rt: &(impl Env + Alloc)) -> io::Result<u64>
    ensures { IfOk result (λ n. n ≤ 99999999) }
{
    match env::args(rt)?.nth(1) {
        Some(digits) => Ok(number(digits.as_bytes())),
        None => Ok(0),
    }
}

fn run(count: u64) -> State {
    let mut s = script::start();
    for i in 0..count {
        s = script::round(s, i);
    }
    s
}

fn main(rt: HostRuntime) -> io::Result<()> {
    let n = rounds(&rt)?;
    let s = run(n);
    let mut out = Output::new(rt.stdout());
    word(&mut out, b"calls=", s.calls);
    word(&mut out, b" accepted=", s.accepted);
    word(&mut out, b" checksum=", s.checksum);
    text(&mut out, b"\n");
    finish(out)
}
