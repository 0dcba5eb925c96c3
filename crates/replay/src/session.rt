// A run of a script: the store, its names and pictures, and what has been counted.
use crate::print::Tally;
use crate::{print, show};
use blockcache::{CacheState, Call};
use blockdisk::{DiskState, Records};
use blocksystem::{Named, Pictures};
use disklayout::Location;
use output::Output;
use sectortype::Contents;
use system::{CRASH, READ, Store, TRANSACTION};
use words::line::Line;

// A sequence of calls on one device: the store as the last call left it, and its names and pictures.
#[derive(Clone, Copy)]
pub struct Sequence {
    pub store: Store,
    pub pictures: Pictures,
}

// Until a `format` has been accepted there is no sequence.
#[derive(Clone, Copy)]
pub struct Session {
    pub sequence: Option<Sequence>,
    pub tally: Tally,
}

// The sequence after a call that was accepted.
fn moved(device: u64, cache: CacheState, disk: DiskState, pictures: Pictures) -> Sequence {
    Sequence {
        store: Store {
            device,
            cache,
            disk,
        },
        pictures,
    }
}

pub fn unstarted() -> Session {
    Session {
        sequence: None,
        tally: print::nothing(),
    }
}

// One more, as far as 64 bits go: no run comes there.
fn more(n: u64) -> u64 {
    if n < u64::MAX { n + 1 } else { n }
}

// Whether the place of a comes before that of b.
fn comes_before(a: Named, b: Named) -> bool {
    let p = a.place;
    let q = b.place;
    (p.addr < q.addr) | ((p.addr == q.addr) & (p.len < q.len))
}

fn audit_one(out: &mut Output, line: u64, store: Store, named: Named) {
    if named.present {
        let c = store.audit(named);
        print::counts(out, line, named.place, c);
    }
}

impl Sequence {
    // Each named place, by ascending address.
    fn audit(&self, out: &mut Output, line: u64) {
        let store = self.store;
        let pictures = self.pictures;
        let first = pictures.first;
        let second = pictures.second;
        if comes_before(second, first) {
            audit_one(out, line, store, second);
            audit_one(out, line, store, first);
        } else {
            audit_one(out, line, store, first);
            audit_one(out, line, store, second);
        }
    }

    fn show(&self, out: &mut Output, line: u64) {
        let store = self.store;
        let cache = store.cache;
        let disk = store.disk;
        show::sizes(out, line, cache);
        show::blocks(out, line, store.device, cache, disk);
    }
}

impl Session {
    fn error(&mut self, out: &mut Output) {
        self.tally.errors = more(self.tally.errors);
        print::error(out, self.tally.lines);
    }

    fn counted(&mut self, answer: u64) {
        self.tally.calls = more(self.tally.calls);
        if answer == 0 {
            self.tally.accepted = more(self.tally.accepted);
        } else {
            self.tally.refused = more(self.tally.refused);
        }
    }

    // What a place is: no call on the store, so it wants no sequence and is not counted.
    fn place(&self, out: &mut Output, device: u64, loc: Location) {
        print::place(out, self.tally.lines, layout::kind_of(device, loc));
    }

    // A refused `format` leaves the sequence before it as it was.
    fn format(&mut self, out: &mut Output, device: u64, contents: Contents, rule: u64) {
        let o = Store::format(device, contents, rule);
        let answer = o.answer;
        print::answer(out, self.tally.lines, answer);
        self.counted(answer);
        if answer == 0 {
            let pictures = system::format_pictures(device, contents);
            self.sequence = Some(moved(device, o.cache, o.disk, pictures));
        }
    }

    // Makes a call, prints what it answers, and keeps names and pictures where it is accepted.
    fn call(
        &mut self,
        out: &mut Output,
        sequence: Sequence,
        number: u64,
        call: Call,
        offered: Records,
    ) {
        let store = sequence.store;
        let o = store.step(number, call, offered);
        let answer = o.answer;
        let before = sequence.pictures;
        if number == READ {
            let same = system::is_pictured(before, call.reference, o.node);
            print::read(out, self.tally.lines, answer, o.node, same);
        } else {
            print::answer(out, self.tally.lines, answer);
        }
        self.counted(answer);
        if answer == 0 {
            let pictures = system::pictures_after(before, number, call);
            self.sequence = Some(moved(store.device, o.cache, o.disk, pictures));
        }
    }

    // Makes step 20's call with the operations that the line has; names and pictures take them where it is accepted.
    fn transaction(&mut self, out: &mut Output, sequence: Sequence, call: Call, rest: &[u8]) {
        let Some(list) = script::transaction::operation_list(rest) else {
            return self.error(out);
        };
        let store = sequence.store;
        let o = store.operations(call, list.operations());
        let answer = o.answer;
        print::transaction(out, self.tally.lines, answer, o.place);
        self.counted(answer);
        if answer == 0 {
            let pictures = system::pictures_after_operations(sequence.pictures, list.operations());
            self.sequence = Some(moved(store.device, o.cache, o.disk, pictures));
        }
    }

    // Asks for a free block: a call that changes no name and no picture.
    fn choose(&mut self, out: &mut Output, sequence: Sequence) {
        let store = sequence.store;
        let c = store.choose();
        print::choice(out, self.tally.lines, c);
        self.counted(c.answer);
        self.sequence = Some(moved(store.device, c.cache, store.disk, sequence.pictures));
    }

    // A step line, by what follows its first word. Only a crash is offered records other than those that are stored.
    fn step(&mut self, out: &mut Output, sequence: Sequence, number: u64, rest: &[u8]) {
        let keys = script::request::step_keys(number);
        let Some(q) = script::request::request_of(rest, keys) else {
            return self.error(out);
        };
        let store = sequence.store;
        let cache = store.cache;
        let disk = store.disk;
        let stored = disk.records;
        let call = script::calls::call_of(q, store.device, cache, disk);
        if number == TRANSACTION {
            return self.transaction(out, sequence, call, rest);
        }
        if number != CRASH {
            return self.call(out, sequence, number, call, stored);
        }
        let Some(offer) = script::offer::offered(rest, stored) else {
            return self.error(out);
        };
        let records = offer.records;
        self.call(out, sequence, number, call, records);
    }

    // A line that wants a sequence.
    fn started_line(&mut self, out: &mut Output, kind: Line, s: &[u8]) {
        let Some(sequence) = self.sequence else {
            return self.error(out);
        };
        let line = self.tally.lines;
        match kind {
            Line::Step(n) => self.step(out, sequence, n, words::line::rest(s)),
            Line::Audit => sequence.audit(out, line),
            Line::Show => sequence.show(out, line),
            Line::Choose => self.choose(out, sequence),
            Line::Format(d, c, r) => self.format(out, d, c, r),
            Line::Place(d, l) => self.place(out, d, l),
            Line::Skip => {}
        }
    }

    // Runs one line, without its line feed.
    pub fn run(&mut self, out: &mut Output, s: &[u8]) {
        self.tally.lines = more(self.tally.lines);
        let Some(kind) = words::line::line_of(s) else {
            return self.error(out);
        };
        match kind {
            Line::Skip => {}
            Line::Format(d, c, r) => self.format(out, d, c, r),
            Line::Place(d, l) => self.place(out, d, l),
            Line::Step(_) | Line::Audit | Line::Show | Line::Choose => {
                self.started_line(out, kind, s);
            }
        }
    }
}
