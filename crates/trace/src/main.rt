//! Reads a sheet from standard input and writes a line for each token that it gives.
#![tactic(auto)]

mod line;

use crate::line::Line;
use names::Names;
use sources::{MakeFault, Source, Text};
use std::alloc::{AllocError, Global};
use std::io;
use std::io::{BufWriter, Read, Write};
use tokens::Category;

// So many reads are made at the most.
const READ_LIMIT: u32 = 100_000;

// One byte more than a text may have shows that it has too many.
const BYTE_LIMIT: u64 = 65_537;

// Writes what each read of the text answers, up to the end.
fn write_trace<W: Write>(heap: Global, mut text: Text, out: &mut W) -> io::Result<()> {
    let mut names = Names::new(heap)?;
    let categories = Category::first_table();
    for _ in 0..READ_LIMIT {
        let line = Line::from(text.read(&categories, &mut names));
        writeln!(out, "{line}")?;
        if line.is_end() {
            return Ok(());
        }
    }
    writeln!(out, "{}", Line::Stopped)
}

fn main(rt: HostRuntime) -> io::Result<()> {
    let heap = rt.alloc();
    let mut bytes = Vec::new(heap);
    rt.stdin().take(BYTE_LIMIT).read_to_end(&mut bytes)?;
    let mut out = BufWriter::new(heap, rt.stdout())?;
    match Text::new(heap, bytes) {
        Ok(text) => write_trace(heap, text, &mut out)?,
        Err(MakeFault::Refused(fault)) => {
            writeln!(out, "{}", Line::from(fault))?;
        }
        Err(MakeFault::NoMemory) => return Err(AllocError.into()),
    }
    out.flush()
}
