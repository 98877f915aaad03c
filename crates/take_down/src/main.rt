// Says the loads of a column, read from lines `STOREY CLASS AREA Q` of standard input, for each section.
#![tactic(auto)]

use column::Column;
use listing::{Section, read_column};
use std::io;
use std::io::{BufWriter, Read, Write};

fn print_sections(out: &mut impl Write, column: &Column) -> io::Result<()> {
    for storey in 1..=column.lowest() {
        if let Ok(section) = Section::of_column(column, storey) {
            writeln!(out, "{section}")?;
        }
    }
    Ok(())
}

fn main(rt: HostRuntime) -> io::Result<()> {
    let mut text = Vec::new(rt.alloc());
    rt.stdin().read_to_end(&mut text)?;
    let mut out = BufWriter::new(rt.alloc(), rt.stdout())?;
    match read_column(text.as_slice()) {
        Ok(column) => print_sections(&mut out, &column)?,
        Err(fault) => writeln!(out, "{fault}")?,
    }
    out.flush()
}
