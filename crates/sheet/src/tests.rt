// The order of the causes, and both edges of every range.
use crate::{Entry, Sheet};
use effect::N;
use loads::Load;
use refusals::Refusal;
use std::test::Fail;

fn load(group: u64, upper: u64, lower: u64, reduction: [u64; 3], force: i64) -> Load<N> {
    let [class, area, storeys] = reduction;
    let effect = N { force };
    Load {
        group,
        upper,
        lower,
        class,
        area,
        storeys,
        effect,
    }
}

fn entry(number: u64, letter: char, load: Load<N>) -> Entry<N> {
    Entry {
        number,
        letter,
        load,
    }
}

const PLAIN: [u64; 3] = [0, 0, 0];

fn blank(rt: &HostRuntime, places: usize) -> Result<Sheet<N>, Fail> {
    Ok(Sheet::open(Vec::with_capacity(rt.alloc(), places)?, places))
}

#[test]
fn ends_of_the_ranges(rt: HostRuntime) -> Result<(), Fail> {
    let mut sheet = blank(&rt, 8)?;
    let entries = [
        (1, 'P', load(0, 200, 80, PLAIN, 1_000_000_000)),
        (9_999, 'P', load(0, 80, 80, PLAIN, -1_000_000_000)),
        (2, 'T', load(99, 200, 0, [1, 1_000_000, 40], 0)),
        (3, 'T', load(99, 80, 0, [2, 1, 1], 0)),
        (4, 'L', load(1, 80, 0, PLAIN, 0)),
        (5, 'S', load(0, 80, 0, PLAIN, 0)),
    ];
    for (number, letter, load) in entries {
        assert_eq!(rt; sheet.enter(entry(number, letter, load)), Ok(()));
    }
    assert_eq!(rt; sheet.records().len(), 6);
    Ok(())
}

#[test]
fn outside_the_ranges(rt: HostRuntime) -> Result<(), Fail> {
    let mut sheet = blank(&rt, 8)?;
    let fine = load(0, 100, 0, PLAIN, 0);
    let entries = [
        (0, 'T', fine, Refusal::RecordNumber),
        (10_000, 'T', fine, Refusal::RecordNumber),
        (1, 'Q', fine, Refusal::KindLetter),
        (1, 'T', load(0, 79, 0, PLAIN, 0), Refusal::LoadFactor),
        (1, 'T', load(0, 201, 0, PLAIN, 0), Refusal::LoadFactor),
        (1, 'P', load(0, 100, 101, PLAIN, 0), Refusal::LoadFactor),
        (1, 'T', load(0, 100, 0, [1, 0, 1], 0), Refusal::Reduction),
        (1, 'L', load(0, 100, 0, [1, 1, 1], 0), Refusal::Reduction),
        (1, 'T', load(0, 100, 0, [0, 1, 0], 0), Refusal::Reduction),
        (1, 'T', load(100, 100, 0, PLAIN, 0), Refusal::Group),
        (1, 'S', load(1, 100, 0, PLAIN, 0), Refusal::Group),
        (
            1,
            'T',
            load(0, 100, 0, PLAIN, 1_000_000_001),
            Refusal::Reach,
        ),
    ];
    for (number, letter, load, refusal) in entries {
        assert_eq!(rt; sheet.enter(entry(number, letter, load)), Err(refusal));
    }
    assert_eq!(rt; sheet.records().len(), 0);
    Ok(())
}

#[test]
fn the_smallest_cause_counts(rt: HostRuntime) -> Result<(), Fail> {
    let mut sheet = blank(&rt, 2)?;
    let of_group = load(7, 100, 0, PLAIN, 5);
    sheet.enter(entry(1, 'T', of_group))?;
    sheet.enter(entry(2, 'T', of_group))?;
    assert_eq!(rt; sheet.strike(0), Err(Refusal::RecordNumber));
    assert_eq!(rt; sheet.strike(3), Err(Refusal::NumberMissing));
    assert_eq!(rt; sheet.enter(entry(1, 'L', of_group)), Err(Refusal::Group));
    assert_eq!(rt;
        sheet.enter(entry(1, 'T', of_group)),
        Err(Refusal::NumberTaken)
    );
    assert_eq!(rt; sheet.alter(entry(3, 'L', of_group)), Err(Refusal::Group));
    assert_eq!(rt;
        sheet.alter(entry(3, 'T', of_group)),
        Err(Refusal::NumberMissing)
    );
    assert_eq!(rt;
        sheet.enter(entry(3, 'T', of_group)),
        Err(Refusal::SheetFull)
    );
    assert_eq!(rt;
        blank(&rt, 0)?.enter(entry(3, 'T', of_group)),
        Err(Refusal::SheetFull)
    );
    Ok(())
}

// an altered record keeps its place and leaves its own old group out; later ones close up after a striking-off
#[test]
fn changes_in_their_places(rt: HostRuntime) -> Result<(), Fail> {
    let mut sheet = blank(&rt, 3)?;
    let of_group = load(7, 100, 0, PLAIN, 5);
    for number in [11, 12, 13] {
        sheet.enter(entry(number, 'T', load(number % 10, 100, 0, PLAIN, 5)))?;
    }
    sheet.alter(entry(12, 'L', load(2, 100, 0, PLAIN, 6)))?;
    sheet.strike(11)?;
    sheet.enter(entry(11, 'T', of_group))?;
    let numbers = sheet.records();
    assert!(rt; numbers.len() == 3);
    assert!(rt; numbers[0].number == 12 && numbers[0].load.effect.force == 6);
    assert!(rt; numbers[1].number == 13 && numbers[2].number == 11);
    Ok(())
}
