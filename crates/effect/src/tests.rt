use crate::*;
use std::cmp::Ordering;
use words::Word;

// The largest reach at which sums and multiples are owed.
const LIMIT: i64 = 6_400_000_000_000_000_000;

#[test]
fn ends_of_n(rt: HostRuntime) {
    let least = N { force: i64::MIN };
    let most = N { force: i64::MAX };
    assert_eq!(rt; least.reach(), 9_223_372_036_854_775_808);
    assert_eq!(rt; most.reach(), 9_223_372_036_854_775_807);
    assert_eq!(rt; least.compare(most), Ordering::Less);
    assert_eq!(rt; most.compare(least), Ordering::Greater);
    assert_eq!(rt; least.compare(least), Ordering::Equal);
}

#[test]
fn ties_in_nm(rt: HostRuntime) {
    let low = NM {
        force: 5,
        moment: i64::MIN,
    };
    let high = NM {
        force: 5,
        moment: i64::MAX,
    };
    let less = NM {
        force: 4,
        moment: i64::MAX,
    };
    assert_eq!(rt; low.compare(high), Ordering::Less);
    assert_eq!(rt; high.compare(low), Ordering::Greater);
    assert_eq!(rt; high.compare(high), Ordering::Equal);
    assert_eq!(rt; less.compare(low), Ordering::Less);
    assert_eq!(rt; low.reach(), 9_223_372_036_854_775_808);
    assert_eq!(rt; NM::zero().reach(), 0);
}

#[test]
fn sums_at_the_limit(rt: HostRuntime) {
    let most = N { force: LIMIT };
    let half = NM {
        force: LIMIT / 2,
        moment: -LIMIT / 2,
    };
    let whole = NM {
        force: LIMIT,
        moment: -LIMIT,
    };
    assert_eq!(rt; most.sum(N::zero()), most);
    assert_eq!(rt; half.sum(half), whole);
    assert_eq!(rt; whole.sum(NM::zero()), whole);
}

#[test]
fn multiples_at_the_limit(rt: HostRuntime) {
    let load = NM {
        force: 1_000_000_000,
        moment: -1_000_000_000,
    };
    let whole = NM {
        force: LIMIT,
        moment: -LIMIT,
    };
    assert_eq!(rt; load.multiple(6_400_000_000), whole);
    assert_eq!(rt; load.multiple(0), NM::zero());
    assert_eq!(rt; whole.multiple(1), whole);
    assert_eq!(rt; N { force: -1 }.multiple(3), N { force: -3 });
    assert_eq!(rt; N::zero().multiple(u64::MAX), N::zero());
}

#[test]
fn numbers_and_back(rt: HostRuntime) {
    let made = NM {
        force: -7,
        moment: 8,
    };
    assert_eq!(rt; effect_of::<NM>(&[-7, 8]), Some(made));
    assert_eq!(rt; effect_of::<NM>(&[-7]), None);
    assert_eq!(rt; effect_of::<N>(&[i64::MIN]), Some(N { force: i64::MIN }));
    assert_eq!(rt; effect_of::<N>(&[1, 2]), None);
    assert_eq!(rt; (N::NUMBERS, N::count()), (1, 1));
    assert_eq!(rt; (NM::NUMBERS, NM::count()), (2, 2));
    assert_eq!(rt;
        (made.number(0), made.number(1), made.number(2)),
        (-7, 8, 0)
    );
    assert_eq!(rt;
        (N { force: 9 }.number(0), N { force: 9 }.number(1)),
        (9, 0)
    );
}

#[test]
fn order_and_sum_of_any_type(rt: HostRuntime) {
    let a = N { force: -2 };
    let b = N { force: 3 };
    assert!(rt; at_most(a, b) && at_most(a, a) && !at_most(b, a));
    assert_eq!(rt; larger(a, b), b);
    assert_eq!(rt; larger(b, a), b);
    assert_eq!(rt; sum_all(&[a, b, b]), N { force: 4 });
    assert_eq!(rt; sum_all::<N>(&[]), N::zero());
    assert_eq!(rt; multiple_if(b, Some(4)), N { force: 12 });
    assert_eq!(rt; multiple_if(b, None), N::zero());
}

#[test]
fn words(rt: HostRuntime) {
    assert_eq!(rt; EffectName::N.word(), "N");
    assert_eq!(rt; EffectName::Nm.word(), "NM");
    assert_eq!(rt; EffectName::from_word(b"N"), Some(EffectName::N));
    assert_eq!(rt; EffectName::from_word(b"NM"), Some(EffectName::Nm));
    assert_eq!(rt; EffectName::from_word(b"nm"), None);
    assert_eq!(rt; EffectName::from_word(b"NMM"), None);
    assert_eq!(rt; EffectName::from_word(b""), None);
}
