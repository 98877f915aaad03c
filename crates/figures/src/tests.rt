// The worst combinations of small lists of loads, as the search answers them.
use combination::{Answer, Pick};
use effect::{N, NM};
use loads::{Kind, Load, Record};
use norm::{Role, Snip85, Sp20};
use questions::{basic, special};

// An effect of 1 N is 100,000,000 units where factor, reduction and percentage are applied.
const UNIT: i64 = 100_000_000;

fn load<E>(kind: Kind, group: u64, upper: u64, lower: u64, effect: E) -> Record<E> {
    Record {
        number: 1,
        kind,
        load: Load {
            group,
            upper,
            lower,
            class: 0,
            area: 0,
            storeys: 0,
            effect,
        },
    }
}

fn newtons(kind: Kind, upper: u64, lower: u64, force: i64) -> Record<N> {
    load(kind, 0, upper, lower, N { force })
}

#[test]
fn role_1_by_the_design_load(rt: HostRuntime) {
    let mut reduced = newtons(Kind::ShortTerm, 120, 0, 300_000);
    reduced.load.class = 1;
    reduced.load.area = 3_600;
    reduced.load.storeys = 1;
    let records = [
        newtons(Kind::Permanent, 110, 90, 500_000),
        newtons(Kind::LongTerm, 105, 0, 80_000),
        reduced,
        newtons(Kind::ShortTerm, 140, 0, 200_000),
    ];
    let answer = basic(&Sp20, &records);
    assert_eq!(rt; answer.effect.force, 1_140_800 * UNIT);
    assert_eq!(rt; answer.picks[0], Pick::Upper);
    assert_eq!(rt; answer.picks[1], Pick::As(Role::Leading));
    assert_eq!(rt; answer.picks[2], Pick::As(Role::Second));
    assert_eq!(rt; answer.picks[3], Pick::As(Role::Leading));
}

#[test]
fn one_load_alone_and_a_relieving_one(rt: HostRuntime) {
    let pair = [
        newtons(Kind::LongTerm, 100, 0, 4),
        newtons(Kind::ShortTerm, 100, 0, 100),
    ];
    assert_eq!(rt; basic(&Snip85, &pair).effect.force, 100 * UNIT);
    let relieving = [newtons(Kind::Permanent, 110, 90, -10)];
    let answer = basic(&Sp20, &relieving);
    assert_eq!(rt; answer.effect.force, -9 * UNIT);
    assert_eq!(rt; answer.picks[0], Pick::Lower);
    let falling = [newtons(Kind::ShortTerm, 100, 0, -50)];
    assert_eq!(rt; basic(&Sp20, &falling).effect.force, 0);
}

#[test]
fn one_of_a_group(rt: HostRuntime) {
    let smaller = NM {
        force: 100,
        moment: 5,
    };
    let larger = NM {
        force: 100,
        moment: 9,
    };
    let records = [
        load(Kind::ShortTerm, 7, 100, 0, smaller),
        load(Kind::ShortTerm, 7, 100, 0, larger),
    ];
    let answer = basic(&Sp20, &records);
    assert_eq!(rt; answer.effect.force, 100 * UNIT);
    assert_eq!(rt; answer.effect.moment, 9 * UNIT);
    assert_eq!(rt; answer.picks[0], Pick::Out);
    assert_eq!(rt; answer.picks[1], Pick::As(Role::Leading));
}

fn force(answer: Option<Answer<N>>) -> i64 {
    answer.map_or(-1, |answer| answer.effect.force)
}

#[test]
fn with_a_special_load(rt: HostRuntime) {
    let records = [
        newtons(Kind::Permanent, 100, 100, 10),
        newtons(Kind::Special, 100, 0, 20),
        newtons(Kind::ShortTerm, 100, 0, 100),
    ];
    assert_eq!(rt; force(special(&Sp20, &records)), 110 * UNIT);
    assert_eq!(rt; force(special(&Snip85, &records)), 110 * UNIT);
    assert_eq!(rt; force(special(&Sp20, &records[..1])), -1);
}
