// A text that is read, and each refusal with its line and its layer.
use crate::sheets::read_text;
use crate::start::text_names;
use effect::{EffectName, N};
use lines::fault::Fault;
use refusals::Refusal;
use sheet::Sheet;
use sheet_lines::{Layer, TextFault};
use std::test::*;

fn read(rt: &HostRuntime, text: &[u8]) -> Result<Result<Sheet<N>, TextFault>, Fail> {
    let memory = Vec::with_capacity(rt.alloc(), 4)?;
    Ok(read_text::<N>(text, memory, 4))
}

#[test]
fn a_text_is_read(rt: HostRuntime) -> Result<(), Fail> {
    let text =
        b"SP20 N\nP 1 L 1 T 2 S 0\n11 0 110 90 0 0 0 500000\n21 0 105 0 0 0 0 80000\n31 0 120 0 1 3600 1 300000\n32 0 140 0 0 0 0 -200000\n";
    assert_eq!(rt; text_names(text)?.effect, EffectName::N);
    let sheet = read(&rt, text)?.ok().ok_or("a text is refused")?;
    let records = sheet.records();
    assert!(rt; records.len() == 4);
    assert!(rt; records[0].number == 11 && records[3].load.effect.force == -200_000);
    Ok(())
}

fn is_refused(
    rt: &HostRuntime,
    text: &[u8],
    refusal: Refusal,
    line: usize,
    layer: Layer,
) -> Result<bool, Fail> {
    let fault = TextFault {
        fault: Fault { refusal, line },
        layer,
    };
    Ok(read(rt, text)?.err() == Some(fault))
}

#[test]
fn headers_are_refused(rt: HostRuntime) -> Result<(), Fail> {
    let cases = [
        ("", 1),
        ("SP20 N", 1),
        ("SP20 N 1\nP 0 L 0 T 0 S 0\n", 1),
        ("SP20 N\n", 2),
        ("SP20 N\nP 0 L 0 T 0 S 100\n", 2),
        ("SP20 N\nP 0 L 0 T 0 S 0", 2),
    ];
    for (text, line) in cases {
        let refused = is_refused(&rt, text.as_bytes(), Refusal::Header, line, Layer::Reading)?;
        assert!(rt; refused, "{text}");
    }
    let refused = is_refused(&rt, &[b'\n'; 4097], Refusal::Header, 1, Layer::Reading)?;
    assert!(rt; refused);
    Ok(())
}

#[test]
fn bodies_are_refused(rt: HostRuntime) -> Result<(), Fail> {
    let cases = [
        ("SP20 N\nP 1 L 0 T 0 S 0\n", 3),
        ("SP20 N\nP 1 L 0 T 0 S 0\n1 0 100 90 0 0 0 5\n\n", 4),
        ("SP20 N\nP 1 L 0 T 1 S 0\n1 0 100 90 0 0 0 5\n", 4),
        ("SP20 N\nP 1 L 0 T 0 S 0\n1 0 100 90 0 0 0 5", 3),
        ("SP20 N\nP 1 L 0 T 1 S 0\n1 0 100 90 0 0 0 5 6\n0 0\n", 3),
    ];
    for (text, line) in cases {
        let refused = is_refused(
            &rt,
            text.as_bytes(),
            Refusal::BodyLine,
            line,
            Layer::Reading,
        )?;
        assert!(rt; refused, "{text}");
    }
    Ok(())
}

#[test]
fn entries_are_refused(rt: HostRuntime) -> Result<(), Fail> {
    let cases = [
        (
            "SP20 N\nP 0 L 0 T 0 S 1\n0 0 100 0 0 0 0 5\n",
            Refusal::RecordNumber,
            3,
        ),
        (
            "SP20 N\nP 1 L 0 T 0 S 0\n1 0 100 0 0 0 0 5\n",
            Refusal::LoadFactor,
            3,
        ),
        (
            "SP20 N\nP 0 L 1 T 0 S 0\n1 0 100 0 1 900 1 5\n",
            Refusal::Reduction,
            3,
        ),
        (
            "SP20 N\nP 0 L 1 T 1 S 0\n1 7 100 0 0 0 0 5\n2 7 100 0 0 0 0 5\n",
            Refusal::Group,
            4,
        ),
        (
            "SP20 N\nP 0 L 0 T 0 S 1\n1 0 100 0 0 0 0 1000000001\n",
            Refusal::Reach,
            3,
        ),
        (
            "SP20 N\nP 0 L 1 T 1 S 0\n1 0 100 0 0 0 0 5\n1 0 100 0 0 0 0 5\n",
            Refusal::NumberTaken,
            4,
        ),
    ];
    for (text, refusal, line) in cases {
        let refused = is_refused(&rt, text.as_bytes(), refusal, line, Layer::Sheet)?;
        assert!(rt; refused, "{text}");
    }
    Ok(())
}
