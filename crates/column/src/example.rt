// A worked example: two equal storeys.
ghost use Rattle.std.specs.Prelude.{◌≡◌, Ok};
ghost use Rattle.column.specs.Example.{TwoStoreys};

use crate::Column;
use refusals::Refusal;

// The loads below the first and below the second storey of that column.
fn both_sections(column: &Column) -> Result<((u64, u64), (u64, u64)), Refusal>
    requires { TwoStoreys column.now.storeys }
    ensures { result ≡ Ok ((7020000000000, 4914000000000), (14040000000000, 8595288000000)) }
{
    Ok((column.section(1)?, column.section(2)?))
}

// Two storeys of class 1, 36 square metres each, with a floor load of 1,500 N per square metre: 70,200 N and 49,140 N below the first,
// 140,400 N and 85,952.88 N below the second.
pub fn two_storeys() -> Result<((u64, u64), (u64, u64)), Refusal>
    ensures { result ≡ Ok ((7020000000000, 4914000000000), (14040000000000, 8595288000000)) }
{
    let mut column = Column::new();
    column.set(1, 1, 3_600, 1_500)?;
    column.set(2, 1, 3_600, 1_500)?;
    both_sections(&column)
}
