// The edges of the form, and the places of tokens.
use crate::fault::Fault;
use crate::numeral::Numeral;
use crate::token::{Token, Tokens};
use refusals::Refusal;
use std::test::Fail;

#[test]
fn numbers_have_one_to_ten_digits(rt: HostRuntime) {
    assert_eq!(rt; u64::from_text(b"0"), Some(0));
    assert_eq!(rt; u64::from_text(b"7"), Some(7));
    assert_eq!(rt; u64::from_text(b"9999999999"), Some(9_999_999_999));
}

#[test]
fn other_texts_are_no_numbers(rt: HostRuntime) {
    for text in ["", "10000000000", "00", "07", "-7", "+7", "7a", "7 "] {
        assert_eq!(rt; u64::from_text(text.as_bytes()), None, "{}", text);
    }
}

#[test]
fn integers_may_have_a_minus(rt: HostRuntime) {
    assert_eq!(rt; i64::from_text(b"-9999999999"), Some(-9_999_999_999));
    assert_eq!(rt; i64::from_text(b"0"), Some(0));
    for text in ["", "-", "-0", "--7", "-07", "7-", "-12345678901"] {
        assert_eq!(rt; i64::from_text(text.as_bytes()), None, "{}", text);
    }
}

// The sort of the next token by a letter, with its length, its offset and its line.
fn next_parts(tokens: &mut Tokens) -> Option<(char, usize, usize, usize)> {
    match tokens.next() {
        Some(Token::Word(text, place)) => Some(('w', text.len(), place.offset, place.line)),
        Some(Token::Number(text, place)) => Some(('n', text.len(), place.offset, place.line)),
        Some(Token::LineEnd(text, place)) => Some(('e', text.len(), place.offset, place.line)),
        None => None,
    }
}

#[test]
fn tokens_have_places(rt: HostRuntime) {
    let mut tokens = Tokens::new(b"ab -1\n\n 7 \n");
    let places = [
        ('w', 2, 0, 1),
        ('n', 2, 3, 1),
        ('e', 1, 5, 1),
        ('e', 1, 6, 2),
        ('n', 1, 8, 3),
        ('w', 0, 10, 3),
        ('e', 1, 10, 3),
    ];
    for expected in places {
        assert_eq!(rt; next_parts(&mut tokens), Some(expected));
    }
    assert_eq!(rt; next_parts(&mut tokens), None);
}

#[test]
fn two_blanks_make_an_empty_field(rt: HostRuntime) {
    let mut tokens = Tokens::new(b"1  2 ");
    for expected in [
        ('n', 1, 0, 1),
        ('w', 0, 2, 1),
        ('n', 1, 3, 1),
        ('w', 0, 5, 1),
    ] {
        assert_eq!(rt; next_parts(&mut tokens), Some(expected));
    }
    assert_eq!(rt; next_parts(&mut tokens), None);
}

#[test]
fn a_cursor_knows_where_it_stands(rt: HostRuntime) {
    let mut tokens = Tokens::new(b"12 0\n5");
    assert!(rt; !tokens.at_blank());
    assert_eq!(rt; next_parts(&mut tokens), Some(('n', 2, 0, 1)));
    assert!(rt; tokens.at_blank());
    assert_eq!(rt; tokens.line(), 1);
    assert!(rt; !tokens.is_at_end());
    tokens.skip_rest();
    assert_eq!(rt; tokens.line(), 2);
    assert!(rt; tokens.is_at_end());
}

#[test]
fn readers_go_field_by_field(rt: HostRuntime) {
    let mut tokens = Tokens::new(b"12 0\n5");
    assert!(rt; !tokens.at_blank());
    assert_eq!(rt; tokens.number(), Some(12u64));
    assert!(rt; tokens.at_blank());
    assert_eq!(rt; tokens.field(), Some(0u64));
    assert_eq!(rt; tokens.line_end(), Some(()));
    assert_eq!(rt; tokens.line(), 2);
    assert!(rt; !tokens.is_at_end());
    tokens.skip_rest();
    assert!(rt; tokens.is_at_end());
}

#[test]
fn a_line_has_as_many_numbers_as_are_asked_for(rt: HostRuntime) {
    let mut tokens = Tokens::new(b"1 20 9999999999\n0\n\n");
    assert_eq!(rt; tokens.numbers::<3>(), Some([1, 20, 9_999_999_999]));
    assert_eq!(rt; tokens.numbers::<1>(), Some([0]));
    assert_eq!(rt; tokens.numbers::<0>(), Some([]));
    assert_eq!(rt; tokens.line(), 4);
    assert!(rt; tokens.is_at_end());
}

#[test]
fn other_lines_have_no_two_numbers(rt: HostRuntime) {
    let texts = [
        "",
        "1 2",
        "1\n",
        "1 2 3\n",
        " 1 2\n",
        "1  2\n",
        "1 2 \n",
        "1 02\n",
        "1 -2\n",
        "1 12345678901\n",
    ];
    for text in texts {
        assert_eq!(rt;
            Tokens::new(text.as_bytes()).numbers::<2>(),
            None,
            "{}",
            text
        );
    }
}

#[test]
fn a_fault_is_shown(rt: HostRuntime) -> Result<(), Fail> {
    let fault = Fault {
        refusal: Refusal::BodyLine,
        line: 3,
    };
    let text = fault.to_string(rt.alloc())?;
    assert_eq!(rt; text.as_str(), "REFUSED 12 LINE 3");
    Ok(())
}
