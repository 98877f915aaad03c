// The loads of storeys, in units of 0.00000001 N.
ghost use Rattle.std.specs.Prelude.{◌≡◌, ◌*◌, ◌≤◌, length, count_by, is_some};
ghost use Rattle.column.specs.Loads.{factor_of_load, design_of, LoadsOf};
ghost use Rattle.reduction.specs.Factor.{factor_of};

use crate::storeys::Storey;

// The load factor in percent: 130 for a floor load below 2,000 N per square metre, and 120 from there on.
fn load_factor(load: u64) -> u64
    ensures { result ≡ factor_of_load load }
{
    if load < 2_000 { 130 } else { 120 }
}

impl Storey {
    // The full and the reduced load of this storey, where `count` storeys are set down to the section.
    fn loads(&self, count: u64) -> (u64, u64)
        requires { (1 ≤ count) × (count ≤ 40) }
        ensures full { result.0 ≡ design_of self.now * 10000 }
        ensures reduced { result.1 ≡ design_of self.now * factor_of self.now.class self.now.area count }
        ensures bound { (result.0 ≤ 65000000000000000) × (result.1 ≤ result.0) }
    {
        let design = self.load * self.area * load_factor(self.load);
        let factor = reduction::factor(self.class, self.area, count).unwrap();
        (design * 10_000, design * factor)
    }
}

// How many storeys are set.
fn count_set(storeys: &[Option<Storey>]) -> u64
    ensures { result ≡ count_by is_some storeys.now }
{
    storeys.iter().flatten().count() as u64
}

// The full and the reduced load of the storeys down to a section.
pub(crate) fn section_loads(storeys: &[Option<Storey>]) -> (u64, u64)
    requires { length storeys.now ≤ 40 }
    ensures { LoadsOf storeys.now result.0 result.1 }
{
    let count = count_set(storeys);
    let mut full = 0;
    let mut reduced = 0;
    for storey in storeys.iter().flatten() {
        let (f, r) = storey.loads(count);
        full += f;
        reduced += r;
    }
    (full, reduced)
}
