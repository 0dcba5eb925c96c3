// The two lines of `show`.
use blockcache::{CacheState, Phase};
use blockdisk::DiskState;
use cache::is_ready;
use output::{Output, text, word};
use queue::Requests;
use sectortype::Table;

fn phase_name(out: &mut Output, phase: Phase) {
    match phase {
        Phase::Unready => text(out, b"Unready"),
        Phase::Loading => text(out, b"Loading"),
        Phase::Ready => text(out, b"Ready"),
    }
}

// A count of the cache's, 0 outside Ready.
fn counted(ready: bool, n: u8) -> u64 {
    if ready {
        return u64::from(n);
    }
    0
}

pub fn sizes(out: &mut Output, line: u64, cache: CacheState) {
    let phase = cache.phase;
    let ready = is_ready(phase);
    word(out, b"line=", line);
    text(out, b" phase=");
    phase_name(out, phase);
    word(
        out,
        b" allocated=",
        counted(ready, cache.tables.ephemeral.count),
    );
    word(out, b" cached=", counted(ready, cache.nodes.count));
    word(
        out,
        b" writes=",
        counted(ready, cache.outstanding.writes.count),
    );
    word(
        out,
        b" reads=",
        counted(ready, cache.outstanding.reads.count),
    );
    text(out, b"\n");
}

// The address of each reference's location; 0, at which no node block of a device that is made begins, where the reference has none.
fn located(t: Table) -> [u64; 64] {
    let mut addrs = [0; 64];
    for (addr, e) in addrs.iter_mut().zip(&t.entries) {
        if e.located {
            *addr = e.loc.addr;
        }
    }
    addrs
}

// The address of each outstanding request; 0 where a place of the queue is not used.
fn requested(q: Requests) -> [u64; 16] {
    let used = q.at.iter().take(usize::from(q.count));
    let mut addrs = [0; 16];
    for (addr, r) in addrs.iter_mut().zip(used) {
        *addr = r.loc.addr;
    }
    addrs
}

// Whether one of the addresses is `at`.
fn has(addrs: &[u64], at: u64) -> bool {
    addrs.contains(&at)
}

// The letter of a block: w, p, e, f say whether an outstanding write, the persistent, the ephemeral and the frozen table have
// its address, o whether a record is stored there.
fn letter(w: bool, p: bool, e: bool, f: bool, o: bool) -> u8 {
    if w {
        return b'W';
    }
    if (p & e) | (p & f) | (e & f) {
        return b'*';
    }
    if p {
        return b'P';
    }
    if e {
        return b'E';
    }
    if f {
        return b'F';
    }
    if o {
        return b'o';
    }
    b'.'
}

// A letter for each block, by who has its address: outside Ready only what is stored counts. The walk keeps a running address.
fn letters(device: u64, cache: CacheState, disk: DiskState) -> [u8; 128] {
    let phase = cache.phase;
    let ready = is_ready(phase);
    let tables = cache.tables;
    let records = disk.records;
    let frozen = ready & tables.isfrozen;
    let w = requested(cache.outstanding.writes);
    let p = located(tables.persistent);
    let e = located(tables.ephemeral);
    let f = located(tables.frozen);
    let size = layout::node_block_size(device).unwrap_or(0);
    let mut at = layout::first_node_addr(device).unwrap_or(0);
    let mut row = [b'.'; 128];
    for k in 0..128 {
        let r = records.nodes[k];
        row[k] = letter(
            ready & has(&w, at),
            ready & has(&p, at),
            ready & has(&e, at),
            frozen & has(&f, at),
            r.present,
        );
        at += size;
    }
    row
}

pub fn blocks(out: &mut Output, line: u64, device: u64, cache: CacheState, disk: DiskState) {
    let row = letters(device, cache, disk);
    word(out, b"line=", line);
    text(out, b" blocks=");
    text(out, &row);
    text(out, b"\n");
}
