// The store's command line: reads a list of calls from standard input, makes each on the proved library, and prints a line for
// each. Here the input is cut into lines, each of which goes to the session.
#![tactic(auto)]

mod print;
mod session;
mod show;

use output::{Output, finish};
use session::Session;
use std::io;
use std::io::{Read, Stdin};
use words::text::front;

// One byte more than a line may have: a line that fills it is too long, and what follows up to its line feed is dropped.
const ROOM: usize = 4097;

// Puts a piece behind the line's first `used` bytes, as far as there is room, and answers how many bytes the line has then.
fn gather(line: &mut [u8], used: usize, piece: &[u8]) -> usize {
    let mut n = used;
    for b in piece {
        if n < line.len() {
            line[n] = *b;
            n += 1;
        }
    }
    n
}

// Takes a part of the input: each line that ends in it is run, and what is left is kept. Answers how many bytes are.
fn take(
    out: &mut Output,
    session: &mut Session,
    line: &mut [u8],
    kept: usize,
    part: &[u8],
) -> usize {
    let mut used = kept;
    for piece in part.split_inclusive(|b| *b == b'\n') {
        if let Some((b'\n', text)) = piece.split_last() {
            used = gather(line, used, text);
            session.run(out, front(line, used));
            used = 0;
        } else {
            used = gather(line, used, piece);
        }
    }
    used
}

// Reads once, and writes what the lines in it print. Answers how many bytes of a line that has no end yet are kept, or nothing where no
// byte is read: the input has ended.
fn read_some(
    out: &mut Output,
    input: &mut Stdin,
    session: &mut Session,
    line: &mut [u8],
    used: usize,
) -> io::Result<Option<usize>> {
    let mut part = [0u8; 4096];
    let n = input.read(&mut part)?;
    if n == 0 {
        return Ok(None);
    }
    let kept = take(out, session, line, used, &part[..n]);
    out.write();
    Ok(Some(kept))
}

// A proved loop has to end, and nothing says that the input does: so the turns are counted, to a number that no run comes to.
// What is left behind the last line feed is a line too.
fn run_all(out: &mut Output, input: &mut Stdin, line: &mut [u8]) -> io::Result<Session> {
    let mut session = session::unstarted();
    let mut used = 0;
    for _ in 0..u64::MAX {
        let Some(kept) = read_some(out, input, &mut session, line, used)? else {
            break;
        };
        used = kept;
    }
    if used > 0 {
        session.run(out, front(line, used));
    }
    Ok(session)
}

// The whole input, and the line of the counts.
fn replay(out: &mut Output, input: &mut Stdin) -> io::Result<()> {
    let mut line = [0u8; ROOM];
    let session = run_all(out, input, &mut line)?;
    print::summary(out, session.tally);
    Ok(())
}

fn main(rt: HostRuntime) -> io::Result<()> {
    let mut out = Output::new(rt.stdout());
    let ran = replay(&mut out, &mut rt.stdin());
    finish(out)?;
    ran
}
