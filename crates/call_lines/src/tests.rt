// Lines that are read, lines that are not, and a record that is listed.
use crate::call::read_call;
use crate::{Header, RecordLine, read_header};
use combination::Question;
use effect::{EffectName, N, NM};
use history::Call;
use lines::token::Tokens;
use load_lines::Names;
use loads::{Kind, Load, Record};
use norm::NormName;
use sheet::{Change, Entry};
use writing::write_whole;

#[test]
fn a_first_line_is_read(rt: HostRuntime) {
    let names = Names {
        norm: NormName::Snip85,
        effect: EffectName::Nm,
    };
    let places = 9_999_999_999;
    let header = Header { names, places };
    let mut tokens = Tokens::new(b"SNIP85 NM 9999999999\nSTRIKE 1\n");
    assert_eq!(rt; read_header(&mut tokens), Some(header));
    assert_eq!(rt; tokens.line(), 2);
}

#[test]
fn other_first_lines_are_refused(rt: HostRuntime) {
    for text in [
        "SP21 N 32\n",
        "SP20  N 32\n",
        "SP20 N\n",
        "SP20 N 032\n",
        "SP20 N 32",
    ] {
        assert_eq!(rt;
            read_header(&mut Tokens::new(text.as_bytes())),
            None,
            "{}",
            text
        );
    }
}

// Number, letter, group, storeys and force of an entry.
fn entered(text: &str) -> Option<(u64, char, u64, u64, i64)> {
    match read_call::<N>(&mut Tokens::new(text.as_bytes())) {
        Some(Call::Change(Change::Enter(entry))) => {
            let Entry {
                number,
                letter,
                load,
            } = entry;
            Some((number, letter, load.group, load.storeys, load.effect.force))
        }
        _ => None,
    }
}

#[test]
fn an_entry_is_read(rt: HostRuntime) {
    assert_eq!(rt;
        entered("ENTER 31 T 4 120 0 1 3600 2 -300000\n"),
        Some((31, 'T', 4, 2, -300_000))
    );
    assert_eq!(rt;
        entered("ENTER 0 7 0 0 0 0 0 9999999999 0\n"),
        Some((0, '7', 0, 9_999_999_999, 0))
    );
}

#[test]
fn other_entries_are_refused(rt: HostRuntime) {
    for text in [
        "ENTER 31 T 0 120 0 1 3600 2 -0\n",
        "ENTER 31 T 0 120 0 1 3600 2 -\n",
        "ENTER 31 TT 0 120 0 1 3600 2 5\n",
        "ENTER 31 T 0 120 0 1 3600 5\n",
        "ENTER 31 T 0 120 0 1 3600 2 5 6\n",
        "ENTER 31 T 0 120 0 1 3600 2 5",
        "ENTER 31  0 120 0 1 3600 2 5\n",
        "ENTER  31 T 0 120 0 1 3600 2 5\n",
        "enter 31 T 0 120 0 1 3600 2 5\n",
        "ALTER 31 T 0 120 0 1 3600 2 5\n",
    ] {
        assert_eq!(rt; entered(text), None, "{}", text);
    }
}

// Number, force and moment of an alteration; the number alone of a striking-off.
fn changed(text: &str) -> Option<(u64, Option<(i64, i64)>)> {
    match read_call::<NM>(&mut Tokens::new(text.as_bytes())) {
        Some(Call::Change(Change::Alter(Entry { number, load, .. }))) => {
            Some((number, Some((load.effect.force, load.effect.moment))))
        }
        Some(Call::Change(Change::Strike(number))) => Some((number, None)),
        _ => None,
    }
}

#[test]
fn other_changes_are_read(rt: HostRuntime) {
    assert_eq!(rt;
        changed("ALTER 7 P 0 110 90 0 0 0 -5 6\n"),
        Some((7, Some((-5, 6))))
    );
    assert_eq!(rt; changed("STRIKE 7\n"), Some((7, None)));
    for text in [
        "ALTER 7 P 0 110 90 0 0 0 -5\n",
        "STRIKE 7 8\n",
        "STRIKE 7 \n",
        "STRIKE\n",
        "STRIKE 7",
        "",
    ] {
        assert_eq!(rt; changed(text), None, "{}", text);
    }
}

fn question(text: &str) -> Option<Question> {
    match read_call::<N>(&mut Tokens::new(text.as_bytes())) {
        Some(Call::Ask(question)) => Some(question),
        _ => None,
    }
}

#[test]
fn questions_are_read(rt: HostRuntime) {
    assert_eq!(rt; question("BASIC\n"), Some(Question::Basic));
    assert_eq!(rt; question("SPECIAL\nBASIC\n"), Some(Question::WithSpecial));
    for text in ["BASIC", "BASIC \n", "BASIC 1\n", "SPECIALS\n", "basic\n"] {
        assert_eq!(rt; question(text), None, "{}", text);
    }
}

#[test]
fn a_record_is_listed(rt: HostRuntime) {
    let load = Load {
        group: 4,
        upper: 120,
        lower: 0,
        class: 1,
        area: 3600,
        storeys: 2,
        effect: NM {
            force: -300_000,
            moment: 5,
        },
    };
    let line = RecordLine(Record {
        number: 31,
        kind: Kind::ShortTerm,
        load,
    });
    let mut buffer = [0u8; 40];
    assert_eq!(rt; write_whole(&line, &mut buffer), Ok(32));
    assert_eq!(rt;
        &buffer[0..32],
        b"31 T 4 120 0 1 3600 2 -300000 5\n".as_slice()
    );
}
