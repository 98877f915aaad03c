// The report of a sheet's text: its worst basic and its worst special combination.
// Without arguments the text is read from standard input; otherwise each argument is the path of a text, or - for standard input.
#![tactic(auto)]

use std::fs::File;
use std::io::{Read, Write};
use std::{env, io};
use text_report::{Memory, report_text};

// One byte more than a text may have is enough to see that it is too long.
const LONGEST_SEEN: u64 = 4_097;

// Large enough for every report, so that none is refused as too long.
const REPORT: usize = 8_192;

const PLACES: usize = 32;

// Writes the report of a text, or the line that says why it is refused.
fn report(rt: &HostRuntime, input: impl Read + Drop) -> io::Result<()> {
    let mut text = Vec::new(rt.alloc());
    input.take(LONGEST_SEEN).read_to_end(&mut text)?;
    let memory = Memory {
        forces: Vec::with_capacity(rt.alloc(), PLACES)?,
        moments: Vec::with_capacity(rt.alloc(), PLACES)?,
    };
    let mut buffer = [0u8; REPORT];
    match report_text(text.as_slice(), memory, PLACES, &mut buffer) {
        Ok(n) => rt.stdout().write_all(&buffer[0..n]),
        Err(fault) => println!(rt; "{fault}"),
    }
}

fn main(rt: HostRuntime) -> io::Result<()> {
    let mut paths = env::args(&rt)?.skip(1).peekable();
    if paths.peek().is_none() {
        return report(&rt, rt.stdin());
    }
    for path in paths {
        match path.as_str() {
            "-" => report(&rt, rt.stdin())?,
            name => report(&rt, File::open(&rt, name)?)?,
        }
    }
    Ok(())
}
