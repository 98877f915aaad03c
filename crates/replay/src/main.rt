// Makes the calls of standard input on a sheet, and says what each came to and which records the sheet then holds.
#![tactic(auto)]

mod said;

use calls::{Header, RecordLine, read_change, read_header};
use effect::{EffectName, N, NM, Written};
use history::{Call, perform};
use lines::fault::Fault;
use lines::token::Tokens;
use loads::Record;
use norm::{NormName, Snip85, Sp20, SpecialNorm};
use refusals::Refusal;
use said::Said;
use sheet::Sheet;
use std::io;
use std::io::{BufWriter, Read, Write};

// Makes the calls of the lines that are left, up to the first that is malformed.
// Kept: stream, tokens and norm are parameters: the effect type is known only once the first line is read, and a struct of them would be taken apart at once.
// Kept: a result in a result: an error of the stream ends the program, a fault of the text is printed.
fn make_calls<E: Written, M: SpecialNorm>(
    out: &mut impl Write,
    tokens: &mut Tokens,
    norm: &M,
    sheet: &mut Sheet<E>,
) -> io::Result<Result<(), Fault>> {
    while !tokens.is_at_end() {
        let line = tokens.line();
        let Some(change) = read_change::<E>(tokens) else {
            let refusal = Refusal::BodyLine;
            return Ok(Err(Fault { refusal, line }));
        };
        let said = Said::from(perform(norm, sheet, Call::Change(change)));
        writeln!(out, "{said}")?;
    }
    Ok(Ok(()))
}

fn list_records<E: Written>(out: &mut impl Write, records: &[Record<E>]) -> io::Result<()> {
    for record in records {
        let line = RecordLine(*record);
        writeln!(out, "{line}")?;
    }
    Ok(())
}

// The run of a sheet of an effect type under a norm. The places are cut by nothing, since `usize` has 64 bits here.
fn run<E: Written, M: SpecialNorm>(
    rt: &HostRuntime,
    out: &mut impl Write,
    tokens: &mut Tokens,
    norm: &M,
    places: u64,
) -> io::Result<()> {
    let memory = Vec::with_capacity(rt.alloc(), 32)?;
    let mut sheet = Sheet::<E>::open(memory, places as usize);
    match make_calls(out, tokens, norm, &mut sheet)? {
        Ok(()) => list_records(out, sheet.records()),
        Err(fault) => writeln!(out, "{fault}"),
    }
}

// The same of the effect type that the first line names.
fn run_under<M: SpecialNorm>(
    rt: &HostRuntime,
    out: &mut impl Write,
    tokens: &mut Tokens,
    norm: &M,
    header: Header,
) -> io::Result<()> {
    match header.names.effect {
        EffectName::N => run::<N, M>(rt, out, tokens, norm, header.places),
        EffectName::Nm => run::<NM, M>(rt, out, tokens, norm, header.places),
    }
}

fn main(rt: HostRuntime) -> io::Result<()> {
    let mut text = Vec::new(rt.alloc());
    rt.stdin().read_to_end(&mut text)?;
    let mut out = BufWriter::new(rt.alloc(), rt.stdout())?;
    let mut tokens = Tokens::new(text.as_slice());
    match read_header(&mut tokens) {
        None => {
            let refusal = Refusal::Header;
            let fault = Fault { refusal, line: 1 };
            writeln!(out, "{fault}")?;
        }
        Some(header) => match header.names.norm {
            NormName::Sp20 => run_under(&rt, &mut out, &mut tokens, &Sp20, header)?,
            NormName::Snip85 => run_under(&rt, &mut out, &mut tokens, &Snip85, header)?,
        },
    }
    out.flush()
}
