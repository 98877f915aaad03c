// Worked figures, computed and proved over the definitions in one statement.
#![tactic(auto)]

ghost use Rattle.std.specs.Prelude.{◌≡◌, [], ◌∷◌};
ghost use Rattle.reduction.specs.Factor.{InRange, factor_of};
ghost use Rattle.figures.specs.Figures.{Figures};

#[cfg(test)]
mod tests;

// A factor in range.
fn factor(class: u64, area: u64, storeys: u64) -> u64
    requires { InRange class area storeys }
    ensures { result ≡ factor_of class area storeys }
{
    reduction::factor(class, area, storeys).unwrap()
}

// The reduction factors of the worked cases.
fn worked_factors() -> [u64; 6]
    ensures { result ≡ factor_of 1 900 1 ∷ factor_of 1 901 1 ∷ factor_of 1 2000 1 ∷ factor_of 1 3600 4 ∷ factor_of 1 2000 3 ∷ factor_of 2 14400 1 ∷ [] }
{
    [
        factor(1, 900, 1),
        factor(1, 901, 1),
        factor(1, 2_000, 1),
        factor(1, 3_600, 4),
        factor(1, 2_000, 3),
        factor(2, 14_400, 1),
    ]
}

// All the figures hold. It answers the reduction factors of the worked cases, as the reduction gives them.
pub fn figures() -> [u64; 6]
    ensures factors { result ≡ 10000 ∷ 9997 ∷ 8025 ∷ 5500 ∷ 6324 ∷ 7500 ∷ [] }
    ensures figures { Figures }
{
    worked_factors()
}
