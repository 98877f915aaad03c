// A text with its report, and what a refusal leaves of the buffer.
use crate::memory::Memory;
use crate::reports::report_text;
use lines::fault::Fault;
use refusals::Refusal;
use sheet_lines::{Layer, TextFault};
use std::alloc::{AllocError, Global};
use std::test::Fail;

const TEXT: &str =
    "SP20 N\nP 1 L 1 T 2 S 0\n11 0 110 90 0 0 0 500000\n21 0 105 0 0 0 0 80000\n31 0 120 0 1 3600 1 300000\n32 0 140 0 0 0 0 200000\n";

const REPORT: &str =
    "SP20 N\nBASIC 1140800.00000000\n11 P 110\n21 L 1 100\n32 T 1 100\n31 T 2 90\nSPECIAL NONE\n";

fn memory(heap: Global) -> Result<Memory, AllocError> {
    Ok(Memory {
        forces: Vec::with_capacity(heap, 32)?,
        moments: Vec::with_capacity(heap, 32)?,
    })
}

#[test]
fn the_report_is_written_and_the_rest_stays(rt: HostRuntime) -> Result<(), Fail> {
    let mut out = [b'x'; 90];
    let written = report_text(TEXT.as_bytes(), memory(rt.alloc())?, 32, &mut out);
    assert_eq!(rt; written, Ok(84));
    assert_eq!(rt; &out[0..84], REPORT.as_bytes());
    assert_eq!(rt; &out[84..90], b"xxxxxx".as_slice());
    Ok(())
}

#[test]
fn a_short_buffer_stays_as_it_was(rt: HostRuntime) -> Result<(), Fail> {
    let mut out = [b'x'; 83];
    let written = report_text(TEXT.as_bytes(), memory(rt.alloc())?, 32, &mut out);
    let fault = TextFault {
        fault: Fault {
            refusal: Refusal::OutputTooLong,
            line: 0,
        },
        layer: Layer::Writing,
    };
    assert_eq!(rt; written, Err(fault));
    assert_eq!(rt; &out[0..83], [b'x'; 83].as_slice());
    Ok(())
}

#[test]
fn too_few_places_refuse_the_fourth_load(rt: HostRuntime) -> Result<(), Fail> {
    let mut out = [b'x'; 90];
    let written = report_text(TEXT.as_bytes(), memory(rt.alloc())?, 3, &mut out);
    let fault = TextFault {
        fault: Fault {
            refusal: Refusal::SheetFull,
            line: 6,
        },
        layer: Layer::Sheet,
    };
    assert_eq!(rt; written, Err(fault));
    assert_eq!(rt; &out[0..90], [b'x'; 90].as_slice());
    Ok(())
}
