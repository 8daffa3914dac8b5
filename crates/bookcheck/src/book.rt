// A book as it is read, byte by byte.

use line::LoadKind;
use parts::{FaultLine, LineBuffer, Told};
use std::alloc::{AllocError, Global};
use std::io;
use tables::{Draft, Limits};
use values::Choice;

#[derive(Drop)]
pub(crate) struct Book {
    draft: Draft,
    line: LineBuffer,
    lines: u64,
    others: u64,
    faults: u64,
}

impl Book {
    pub(crate) fn new(heap: Global) -> Result<Book, AllocError> {
        let draft = Draft::new(heap, Limits::full())?;
        Ok(Book {
            draft,
            line: LineBuffer::new(),
            lines: 0,
            others: 0,
            faults: 0,
        })
    }

    // A line feed ends a line; any other byte belongs to it.
    pub(crate) fn feed(&mut self, rt: &HostRuntime, piece: &[u8]) -> io::Result<()> {
        for b in piece {
            if *b == b'\n' {
                self.end_line(rt)?;
            } else {
                self.line.push(*b);
            }
        }
        Ok(())
    }

    fn end_line(&mut self, rt: &HostRuntime) -> io::Result<()> {
        self.lines = self.lines.saturating_add(1);
        match self.draft.load_line(self.line.bytes()) {
            Ok(None) => {}
            Ok(Some(_)) => self.others = self.others.saturating_add(1),
            Err(fault) => {
                self.faults = self.faults.saturating_add(1);
                rt.println(FaultLine {
                    line: self.lines,
                    told: Told::from(fault),
                })?;
            }
        }
        self.line.clear();
        Ok(())
    }

    // A last line without a line feed counts if it has a byte.
    pub(crate) fn end(&mut self, rt: &HostRuntime) -> io::Result<()> {
        if !self.line.bytes().is_empty() {
            self.end_line(rt)?;
        }
        self.say(rt)
    }

    fn say(&self, rt: &HostRuntime) -> io::Result<()> {
        let lines = self.lines;
        let others = self.others;
        let faults = self.faults;
        print!(rt; "Lines read: {lines}.\nRows taken:")?;
        for kind in LoadKind::all() {
            let count = self.draft.count(*kind);
            print!(rt; " {kind} {count};")?;
        }
        println!(rt; " marks, host rows and questions left aside: {others}.\nFaults: {faults}.")
    }
}
