// What the programs print to standard output, in one place: text, numbers, words with a number, lists of references.
#![tactic(auto)]

ghost use Rattle.std.specs.Prelude.{◌≡◌, ◌≤◌};

use sectortype::Succs;
use std::io;
use std::io::{Stdout, Write};

// How many bytes are kept before they are written.
const ROOM: usize = 4096;

// Standard output, with what has been printed and not yet been written. Of the writes that fail the first one's error is kept,
// and nothing is written after it. It can't be let go: `finish` writes what is left, and hands out that error.
pub struct Output {
    to: Stdout,
    room: [u8; 4096],
    used: usize,
    outcome: io::Result<()>,
    ghost fits: { used ≤ 4096 },
}

impl Output {
    pub fn new(to: Stdout) -> Output {
        Output {
            to,
            room: [0; 4096],
            used: 0,
            outcome: Ok(()),
        }
    }

    // Writes what is kept, now.
    pub fn write(&mut self)
        ensures { self.new.used ≡ 0 }
    {
        if self.outcome.is_ok() {
            let written = self.to.write_all(&self.room[..self.used]);
            self.outcome = written;
        }
        self.used = 0;
    }

    fn byte(&mut self, b: u8) {
        if self.used == ROOM {
            self.write();
        }
        self.room[self.used] = b;
        self.used += 1;
    }
}

// Writes what is left: an error where this write or one before it failed.
pub fn finish(mut out: Output) -> io::Result<()> {
    out.write();
    let Output {
        to: _,
        room: _,
        used: _,
        outcome,
    } = out;
    outcome
}

pub fn text(out: &mut Output, s: &[u8]) {
    for b in s {
        out.byte(*b);
    }
}

pub fn number(out: &mut Output, n: u64) {
    let mut digits = itoa::Buffer::new();
    text(out, digits.format(n).as_bytes());
}

// A text, as a key with its `=`, and a number behind it.
pub fn word(out: &mut Output, key: &[u8], n: u64) {
    text(out, key);
    number(out, n);
}

// A list's references, joined by commas.
pub fn list(out: &mut Output, l: Succs) {
    for (i, r) in l.at.iter().take(usize::from(l.count)).enumerate() {
        if i > 0 {
            text(out, b",");
        }
        number(out, u64::from(*r));
    }
}
