// The formula of a class: base + (10,000 - base) / √(a × n / from), where n is the number of storeys and a the area, or `from` if that is larger.
ghost use Rattle.std.specs.Prelude.{◌<◌, ◌≤◌};
ghost use Rattle.reduction.specs.Factor.{RootAbove, Smallest, Usable, Reduced};

use crate::extent::Extent;

// `bound` is the square of 10,000 - base times `from`: base + k is enough where k × k × a × n is at least that.
#[derive(Clone, Copy)]
pub struct Formula {
    pub base: u64,
    pub bound: u64,
    pub from: u64,
}

impl Formula {
    // 0.4 + 0.6 / √(A / 9)
    pub const ROOMS: Formula = Formula {
        base: 4_000,
        bound: 32_400_000_000,
        from: 900,
    };

    // 0.5 + 0.5 / √(A / 36)
    pub const HALLS: Formula = Formula {
        base: 5_000,
        bound: 90_000_000_000,
        from: 3_600,
    };
}

// One more than the whole part of the square root: the smallest number whose square is above x.
fn root_above(x: u64) -> u64
    ensures { RootAbove x result }
{
    x.isqrt() + 1
}

// The smallest k for which k × k × share is at least `bound`, which is the smallest for which it is above bound - 1.
fn smallest(bound: u64, share: u64) -> u64
    requires { (0 < bound) × (0 < share) }
    ensures { Smallest bound share result }
{
    root_above((bound - 1) / share)
}

impl Formula {
    // The factor by this formula.
    pub(crate) fn factor(self, extent: Extent) -> u64
        requires { Usable self }
        ensures factor { Reduced self extent.area extent.storeys result }
        ensures bound { result ≤ 10000 }
    {
        let share = extent.area.max(self.from) * extent.storeys;
        self.base + smallest(self.bound, share)
    }
}
