// What is printed.
use blockcache::Choice;
use blocksystem::Counts;
use disklayout::{Kind, Location, Refused};
use output::{Output, list, number, text, word};
use sectortype::{Contents, Node};

// The lines passed, and how many of them were calls, accepted, refused and errors.
#[derive(Clone, Copy)]
pub struct Tally {
    pub lines: u64,
    pub calls: u64,
    pub accepted: u64,
    pub refused: u64,
    pub errors: u64,
}

pub fn nothing() -> Tally {
    Tally {
        lines: 0,
        calls: 0,
        accepted: 0,
        refused: 0,
        errors: 0,
    }
}

pub fn error(out: &mut Output, line: u64) {
    word(out, b"line=", line);
    text(out, b" error\n");
}

pub fn answer(out: &mut Output, line: u64, answer: u64) {
    word(out, b"line=", line);
    word(out, b" answer=", answer);
    text(out, b"\n");
}

// What step 20 answers, and the place of the operation that failed.
pub fn transaction(out: &mut Output, line: u64, answer: u64, place: u64) {
    word(out, b"line=", line);
    word(out, b" answer=", answer);
    word(out, b" place=", place);
    text(out, b"\n");
}

// The word of a kind.
fn kind_word(out: &mut Output, kind: Option<Kind>) {
    match kind {
        Some(Kind::Superblock1) => text(out, b"superblock1"),
        Some(Kind::Superblock2) => text(out, b"superblock2"),
        Some(Kind::Journal) => text(out, b"journal"),
        Some(Kind::Table) => text(out, b"table"),
        Some(Kind::Node) => text(out, b"node"),
        None => text(out, b"none"),
    }
}

// What the chooser gives.
pub fn choice(out: &mut Output, line: u64, c: Choice) {
    word(out, b"line=", line);
    word(out, b" answer=", c.answer);
    word(out, b" block=", c.block);
    word(out, b" addr=", c.addr);
    word(out, b" free=", c.free);
    text(out, b"\n");
}

// What a place is: 0 and its kind, or the number of the refusal and no kind.
pub fn place(out: &mut Output, line: u64, asked: Result<Option<Kind>, Refused>) {
    word(out, b"line=", line);
    let (answer, kind) = match asked {
        Ok(kind) => (0, kind),
        Err(refused) => (u64::from(refused), None),
    };
    word(out, b" answer=", answer);
    text(out, b" kind=");
    kind_word(out, kind);
    text(out, b"\n");
}

// `LOW` where high is 0, else `HIGH.LOW`.
fn contents(out: &mut Output, c: Contents) {
    if c.high > 0 {
        number(out, c.high);
        text(out, b".");
    }
    number(out, c.low);
}

// Whether a node that was handed out is the working picture's.
fn picture(out: &mut Output, same: bool) {
    if same {
        text(out, b" picture=same");
    } else {
        text(out, b" picture=other");
    }
}

// What step 17 answers, and of an accepted one whether the node is the working picture's.
pub fn read(out: &mut Output, line: u64, answer: u64, node: Node, same: bool) {
    word(out, b"line=", line);
    word(out, b" answer=", answer);
    text(out, b" contents=");
    contents(out, node.contents);
    text(out, b" succs=");
    list(out, node.succs);
    if answer == 0 {
        picture(out, same);
    }
    text(out, b"\n");
}

pub fn counts(out: &mut Output, line: u64, place: Location, c: Counts) {
    word(out, b"line=", line);
    word(out, b" place=", place.addr);
    word(out, b"+", place.len);
    word(out, b" lost=", c.lost);
    word(out, b" added=", c.added);
    word(out, b" altered=", c.altered);
    text(out, b"\n");
}

pub fn summary(out: &mut Output, t: Tally) {
    word(out, b"calls=", t.calls);
    word(out, b" accepted=", t.accepted);
    word(out, b" refused=", t.refused);
    word(out, b" errors=", t.errors);
    text(out, b"\n");
}
