// Prints the percentages of both norms for each line `NL NT` of standard input, the numbers of long-term and short-term loads taken.
#![tactic(auto)]

use lines::number_lines::NumberLines;
use listing::norm_rows;
use norm::{NormName, Taken};
use std::io;
use std::io::{BufWriter, Read, Write};

fn print_norm(out: &mut impl Write, norm: NormName, taken: Taken) -> io::Result<()> {
    for row in norm_rows(norm, taken) {
        writeln!(out, "{row}")?;
    }
    Ok(())
}

fn print_tables(out: &mut impl Write, counts: [u64; 2]) -> io::Result<()> {
    let [long, short] = counts;
    writeln!(out, "TAKEN {long} {short}")?;
    let taken = Taken { long, short };
    print_norm(out, NormName::Sp20, taken)?;
    print_norm(out, NormName::Snip85, taken)
}

fn main(rt: HostRuntime) -> io::Result<()> {
    let mut text = Vec::new(rt.alloc());
    rt.stdin().read_to_end(&mut text)?;
    let mut out = BufWriter::new(rt.alloc(), rt.stdout())?;
    for line in NumberLines::<2>::new(text.as_slice()) {
        match line {
            Ok(counts) => print_tables(&mut out, counts)?,
            Err(fault) => writeln!(out, "{fault}")?,
        }
    }
    out.flush()
}
