// Lines that are read, and lines that are not.
use crate::bodies::read_body;
use crate::counts::Counts;
use crate::fault::{Layer, TextFault};
use crate::heading::{read_counts, read_names};
use effect::N;
use lines::fault::Fault;
use lines::token::Tokens;
use refusals::Refusal;
use std::test::Fail;

#[test]
fn a_first_line_has_two_names(rt: HostRuntime) {
    let mut tokens = Tokens::new(b"SP20 NM\nP");
    assert!(rt; read_names(&mut tokens).is_some());
    assert_eq!(rt; tokens.line(), 2);
    for text in ["SP20 N", "SP20 N 1\n", "N SP20\n", " SP20 N\n", ""] {
        assert!(rt;
            read_names(&mut Tokens::new(text.as_bytes())).is_none(),
            "{}",
            text
        );
    }
}

#[test]
fn counts_have_their_letters_and_their_order(rt: HostRuntime) {
    let counts = Counts {
        permanent: 1,
        long_term: 0,
        short_term: 99,
        special: 3,
    };
    let mut tokens = Tokens::new(b"P 1 L 0 T 99 S 3\n");
    assert_eq!(rt; read_counts(&mut tokens), Some(counts));
    for text in [
        "P 1 L 0 T 100 S 3\n",
        "P 1 L 0 T 9 S 3",
        "P 1 L 0 T 9\n",
        "P 1 T 9 L 0 S 3\n",
        "P 1 L 00 T 9 S 3\n",
        "P 1 L 0 T 9 S 3 \n",
        "PP 1 L 0 T 9 S 3\n",
    ] {
        assert_eq!(rt;
            read_counts(&mut Tokens::new(text.as_bytes())),
            None,
            "{}",
            text
        );
    }
}

// Number, upper factor, storeys and force of a body.
fn parts(text: &str) -> Option<(u64, u64, u64, i64)> {
    let (number, load) = read_body::<N>(&mut Tokens::new(text.as_bytes()))?;
    Some((number, load.upper, load.storeys, load.effect.force))
}

#[test]
fn a_body_has_eight_fields(rt: HostRuntime) {
    assert_eq!(rt;
        parts("31 0 120 0 1 3600 2 -300000\n"),
        Some((31, 120, 2, -300_000))
    );
    for text in [
        "31 0 120 0 1 3600 2\n",
        "31 0 120 0 1 3600 2 5 6\n",
        "31 0 120 0 1 3600 -2 5\n",
        " 31 0 120 0 1 3600 2 5\n",
        "31 0 120 0 1 3600 2 5",
        "",
    ] {
        assert_eq!(rt; parts(text), None, "{}", text);
    }
}

#[test]
fn a_fault_is_shown_by_number_and_line(rt: HostRuntime) -> Result<(), Fail> {
    let fault = TextFault {
        fault: Fault {
            refusal: Refusal::NumberTaken,
            line: 4,
        },
        layer: Layer::Sheet,
    };
    let text = fault.to_string(rt.alloc())?;
    assert_eq!(rt; text.as_str(), "REFUSED 7 LINE 4");
    Ok(())
}
