// bookcheck: reads a graph book, names each bad line, and says what it took.

#![tactic(auto)]

mod book;

use crate::book::Book;
use anyhow::anyhow;
use std::io::Read;
use std::process::ExitCode;
use std::{env, fs};

const PIECE: usize = 65536;

// The book is read in pieces, so that neither a long book nor a long line takes more memory.
fn check(rt: &HostRuntime, input: &mut impl Read) -> anyhow::Result<()> {
    let heap = rt.alloc();
    let mut book = Book::new(heap)?;
    let mut piece = vec![in heap; 0u8; PIECE]?;
    for _ in 0..u64::MAX {
        // As `try_map_err` it was tried: the proof that the piece has n bytes did not close. As a context, a long message would be cut at another place.
        let n = match input.read(&mut piece) {
            Ok(n) => n,
            Err(e) => return Err(anyhow!(format!(in heap; "cannot read the book: {e}")?)),
        };
        if n == 0 {
            break;
        }
        book.feed(rt, &piece[0..n])?;
    }
    book.end(rt)?;
    Ok(())
}

fn check_file(rt: &HostRuntime, path: &str) -> anyhow::Result<()> {
    let heap = rt.alloc();
    // `try_map_err` would be no plainer: four calls, one in the other, in place of two arms.
    match fs::open(rt, path) {
        Ok(mut file) => check(rt, &mut file),
        Err(e) => Err(anyhow!(format!(in heap; "cannot open {path}: {e}")?)),
    }
}

fn run(rt: &HostRuntime) -> anyhow::Result<()> {
    let mut args = env::args(rt)?;
    let _program = args.next();
    let first = args.next();
    if args.next().is_some() {
        return Err(anyhow!("usage: bookcheck [FILE]"));
    }
    match first {
        None => check(rt, &mut rt.stdin()),
        Some(path) => check_file(rt, path.as_str()),
    }
}

fn main(rt: HostRuntime) -> ExitCode {
    match run(&rt) {
        Ok(()) => ExitCode::SUCCESS,
        Err(e) => {
            let _ = eprintln!(rt; "bookcheck: {e}");
            ExitCode::FAILURE
        }
    }
}
