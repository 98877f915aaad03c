// Answers the reduction factor for each line `CLASS AREA STOREYS` of standard input.
#![tactic(auto)]

use lines::number_lines::NumberLines;
use listing::{Reply, line_factor};
use std::io;
use std::io::{BufWriter, Read, Write};

fn main(rt: HostRuntime) -> io::Result<()> {
    let mut text = Vec::new(rt.alloc());
    rt.stdin().read_to_end(&mut text)?;
    let mut out = BufWriter::new(rt.alloc(), rt.stdout())?;
    for line in NumberLines::<3>::new(text.as_slice()) {
        let reply = Reply(line_factor(line));
        writeln!(out, "{reply}")?;
    }
    out.flush()
}
