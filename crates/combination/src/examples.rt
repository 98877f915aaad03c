// The same loads, entered in two ways.
ghost use Rattle.std.specs.Prelude.{◌≡◌};
ghost use Rattle.combination.specs.Examples.{permanent_load, short_term_load, first_way, second_way, SameLoads};

use effect::N;
use loads::{Kind, Load, Record};

// Two lists of records.
#[derive(Clone, Copy)]
pub struct TwoLists {
    pub first: [Record<N>; 3],
    pub second: [Record<N>; 3],
}

fn permanent(number: u64, force: i64, upper: u64, lower: u64) -> Record<N>
    ensures { result ≡ permanent_load number force upper lower }
{
    Record {
        number,
        kind: Kind::Permanent,
        load: Load {
            group: 0,
            upper,
            lower,
            class: 0,
            area: 0,
            storeys: 0,
            effect: N { force },
        },
    }
}

// A short-term load of a group; class 0 is not reduced.
fn short_term(number: u64, group: u64, force: i64, upper: u64, class: u64, area: u64) -> Record<N>
    ensures { result ≡ short_term_load number group force upper class area }
{
    Record {
        number,
        kind: Kind::ShortTerm,
        load: Load {
            group,
            upper,
            lower: 0,
            class,
            area,
            storeys: class,
            effect: N { force },
        },
    }
}

fn first_way() -> [Record<N>; 3]
    ensures { result ≡ first_way }
{
    [
        permanent(1, 500, 110, 88),
        short_term(2, 3, 300, 120, 1, 3_600),
        short_term(3, 3, 200, 100, 0, 0),
    ]
}

fn second_way() -> [Record<N>; 3]
    ensures { result ≡ second_way }
{
    [
        short_term(4, 7, 100, 200, 0, 0),
        permanent(5, 550, 100, 80),
        short_term(6, 7, 210, 120, 0, 0),
    ]
}

// Two lists that have no record in common and the same design loads: other effects with other factors, a reduced load beside one that is not,
// another group and another order.
pub fn entered_two_ways() -> TwoLists
    ensures { SameLoads result.first result.second }
{
    TwoLists {
        first: first_way(),
        second: second_way(),
    }
}
