// The loads of small columns, and both edges of every range.
use super::*;
use std::test::Fail;

// What the reduction takes off the load below a storey.
fn relief(column: &Column, storey: u64) -> Result<u64, Refusal> {
    let (full, reduced) = column.section(storey)?;
    Ok(full - reduced)
}

#[test]
fn two_equal_storeys(rt: HostRuntime) -> Result<(), Fail> {
    let below = example::two_storeys()?;
    assert_eq!(rt;
        below,
        (
            (7_020_000_000_000, 4_914_000_000_000),
            (14_040_000_000_000, 8_595_288_000_000),
        )
    );
    Ok(())
}

#[test]
fn edges_of_the_ranges(rt: HostRuntime) {
    let mut column = Column::new();
    for (s, c, a, q) in [(1, 0, 1, 0), (40, 2, 1_000_000, 50_000)] {
        assert_eq!(rt; column.set(s, c, a, q), Ok(()));
    }
    for (s, c, a, q) in [
        (0, 0, 1, 0),
        (41, 0, 1, 0),
        (1, 3, 1, 0),
        (1, 0, 0, 0),
        (1, 0, 1_000_001, 0),
        (1, 0, 1, 50_001),
    ] {
        assert_eq!(rt; column.set(s, c, a, q), Err(Refusal::ColumnValue));
    }
    assert_eq!(rt; column.section(0), Err(Refusal::ColumnValue));
    assert_eq!(rt; column.section(41), Err(Refusal::ColumnValue));
    assert_eq!(rt; column.section(39), Ok((0, 0)));
    assert_eq!(rt;
        column.section(40),
        Ok((60_000_000_000_000_000, 31_278_000_000_000_000))
    );
    assert_eq!(rt; column.lowest(), 40);
}

#[test]
fn load_factors_and_changes(rt: HostRuntime) -> Result<(), Fail> {
    let mut column = Column::new();
    assert_eq!(rt; column.lowest(), 0);
    assert_eq!(rt; column.section(40), Ok((0, 0)));
    column.set(3, 0, 1, 1_999)?;
    assert_eq!(rt; column.section(3), Ok((2_598_700_000, 2_598_700_000)));
    column.set(3, 0, 1, 2_000)?;
    assert_eq!(rt; column.section(3), Ok((2_400_000_000, 2_400_000_000)));
    assert_eq!(rt; column.section(2), Ok((0, 0)));
    assert_eq!(rt; column.lowest(), 3);
    Ok(())
}

#[test]
fn unset_between(rt: HostRuntime) -> Result<(), Fail> {
    let mut column = Column::new();
    column.set(1, 1, 3_600, 1_500)?;
    column.set(3, 1, 3_600, 1_500)?;
    assert_eq!(rt; column.section(2), column.section(1));
    assert_eq!(rt;
        column.section(3),
        Ok((14_040_000_000_000, 8_595_288_000_000))
    );
    assert_eq!(rt; column.section(40), column.section(3));
    assert_eq!(rt; relief(&column, 3)?, 5_444_712_000_000);
    Ok(())
}
