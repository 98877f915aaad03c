// Every row of both tables, the edges of the ranges, and the words.
use super::*;
use std::test::Fail;
use words::Word;

// A question, by term, role and the numbers of loads taken, and the basic and the special percentage due.
type Row = (Term, u64, u64, u64, u64, u64);

// Outside the ranges: role 0 and 4, a role above the number taken, and 33 loads.
const OUTSIDE: [Row; 10] = [
    (Term::Long, 0, 1, 1, 0, 0),
    (Term::Short, 0, 1, 1, 0, 0),
    (Term::Long, 4, 32, 32, 0, 0),
    (Term::Short, 4, 32, 32, 0, 0),
    (Term::Long, 2, 1, 32, 0, 0),
    (Term::Short, 2, 32, 1, 0, 0),
    (Term::Long, 1, 33, 1, 0, 0),
    (Term::Short, 1, 33, 1, 0, 0),
    (Term::Long, 1, 1, 33, 0, 0),
    (Term::Short, 1, 1, 33, 0, 0),
];

fn answers<N: SpecialNorm>(norm: &N, rows: &[Row]) -> Result<(), Fail> {
    for (term, role, long, short, basic, special) in rows {
        let taken = Taken {
            long: *long,
            short: *short,
        };
        if norm.percent(*term, *role, taken) != *basic {
            return Err(Fail::new("another basic percentage"));
        }
        if norm.special_percent(*term, *role, taken) != *special {
            return Err(Fail::new("another special percentage"));
        }
    }
    Ok(())
}

#[test]
fn sp20() -> Result<(), Fail> {
    answers(&Sp20, &OUTSIDE)?;
    answers(
        &Sp20,
        &[
            (Term::Long, 1, 1, 0, 100, 100),
            (Term::Long, 2, 2, 0, 95, 95),
            (Term::Long, 3, 32, 32, 95, 95),
            (Term::Short, 1, 0, 1, 100, 80),
            (Term::Short, 2, 0, 2, 90, 80),
            (Term::Short, 3, 32, 32, 70, 80),
        ],
    )
}

#[test]
fn snip85() -> Result<(), Fail> {
    answers(&Snip85, &OUTSIDE)?;
    answers(
        &Snip85,
        &[
            (Term::Long, 1, 1, 0, 100, 95),
            (Term::Long, 1, 1, 1, 95, 95),
            (Term::Long, 3, 32, 32, 95, 95),
            (Term::Short, 1, 0, 1, 100, 80),
            (Term::Short, 2, 0, 2, 90, 80),
            (Term::Short, 3, 32, 32, 90, 80),
        ],
    )
}

#[test]
fn words_and_roles(rt: HostRuntime) {
    assert_eq!(rt; NormName::Sp20.word(), "SP20");
    assert_eq!(rt; NormName::Snip85.word(), "SNIP85");
    assert_eq!(rt; NormName::from_word(b"SP20"), Some(NormName::Sp20));
    assert_eq!(rt; NormName::from_word(b"SNIP85"), Some(NormName::Snip85));
    assert_eq!(rt; NormName::from_word(b"SP2"), None);
    assert_eq!(rt; NormName::from_word(b"sp20"), None);
    assert_eq!(rt; NormName::from_word(b"SNIP850"), None);
    assert_eq!(rt; NormName::from_word(b""), None);
    assert_eq!(rt; Role::Leading.number(), 1);
    assert_eq!(rt; Role::Second.number(), 2);
    assert_eq!(rt; Role::Other.number(), 3);
}
