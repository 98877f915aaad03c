use crate::choice::Choice;
use crate::examples::entered_two_ways;
use crate::picks::Pick;
use crate::questions::Question;
use effect::N;
use loads::{Kind, Load, Record};
use norm::{InSpecial, Role, Snip85, Sp20};

const LEADING: Pick = Pick::As(Role::Leading);

const SECOND: Pick = Pick::As(Role::Second);

const OTHER: Pick = Pick::As(Role::Other);

fn record(kind: Kind, force: i64, upper: u64, lower: u64) -> Record<N> {
    Record {
        number: 1,
        kind,
        load: Load {
            group: 0,
            upper,
            lower,
            class: 0,
            area: 0,
            storeys: 0,
            effect: N { force },
        },
    }
}

fn section() -> [Record<N>; 4] {
    let mut reduced = record(Kind::ShortTerm, 300_000, 120, 0);
    reduced.load.class = 1;
    reduced.load.area = 3_600;
    reduced.load.storeys = 1;
    [
        record(Kind::Permanent, 500_000, 110, 90),
        record(Kind::LongTerm, 80_000, 105, 0),
        reduced,
        record(Kind::ShortTerm, 200_000, 140, 0),
    ]
}

fn of<'a>(records: &'a [Record<N>], picks: &'a [Pick]) -> Choice<'a, N> {
    Choice { records, picks }
}

// in units of 0.00000001 N
fn newtons(force: i64) -> N {
    N {
        force: force.wrapping_mul(100_000_000),
    }
}

// role 1 on the larger entered effect comes to less
#[test]
fn role_1(rt: HostRuntime) {
    let records = section();
    let smaller = [Pick::Upper, LEADING, SECOND, LEADING];
    let larger = [Pick::Upper, LEADING, LEADING, SECOND];
    assert!(rt; of(&records, &smaller).is_admissible(Question::Basic));
    assert!(rt; of(&records, &larger).is_admissible(Question::Basic));
    assert_eq!(rt; of(&records, &smaller).comes_to(&Sp20), newtons(1_140_800));
    assert_eq!(rt; of(&records, &larger).comes_to(&Sp20), newtons(1_138_000));
    assert_eq!(rt; of(&records, &larger).comes_to(&Snip85), newtons(1_108_600));
}

#[test]
fn special(rt: HostRuntime) {
    let records = [
        record(Kind::Permanent, 10, 100, 100),
        record(Kind::Special, 20, 100, 0),
        record(Kind::ShortTerm, 100, 100, 0),
    ];
    let picks = [Pick::Lower, Pick::Taken, LEADING];
    assert!(rt; of(&records, &picks).is_admissible(Question::WithSpecial));
    assert!(rt; !of(&records, &picks).is_admissible(Question::Basic));
    assert_eq!(rt;
        of(&records, &picks).comes_to(&InSpecial(&Sp20)),
        newtons(110)
    );
    assert_eq!(rt;
        of(&records, &picks).comes_to(&InSpecial(&Snip85)),
        newtons(110)
    );
}

#[test]
fn roles(rt: HostRuntime) {
    let records = section();
    let basic = Question::Basic;
    assert!(rt; of(&records, &[Pick::Lower, Pick::Out, Pick::Out, Pick::Out]).is_admissible(basic));
    assert!(rt; !of(&records, &[Pick::Upper, SECOND, Pick::Out, Pick::Out]).is_admissible(basic));
    assert!(rt; !of(&records, &[Pick::Upper, LEADING, LEADING, LEADING]).is_admissible(basic));
    assert!(rt; !of(&records, &[Pick::Upper, LEADING, LEADING, OTHER]).is_admissible(basic));
    assert!(rt; !of(&records, &[Pick::Out, LEADING, LEADING, SECOND]).is_admissible(basic));
    assert!(rt; !of(&records, &[Pick::Upper, Pick::Taken, LEADING, SECOND]).is_admissible(basic));
    assert!(rt; !of(&records, &[Pick::Upper, LEADING, LEADING]).is_admissible(basic));
}

#[test]
fn two_ways(rt: HostRuntime) {
    let lists = entered_two_ways();
    let both = [Pick::Upper, LEADING, SECOND];
    let one = [Pick::Upper, LEADING, Pick::Out];
    let same = [Pick::Out, Pick::Upper, LEADING];
    assert!(rt; !of(&lists.first, &both).is_admissible(Question::Basic));
    assert!(rt; of(&lists.first, &one).is_admissible(Question::Basic));
    assert!(rt; of(&lists.second, &same).is_admissible(Question::Basic));
    assert_eq!(rt; of(&lists.first, &one).comes_to(&Sp20), newtons(802));
    assert_eq!(rt; of(&lists.second, &same).comes_to(&Sp20), newtons(802));
}
