// Signed numbers: multiples within the limit, and the places of a list.
ghost use Rattle.std.specs.Prelude.{◌≡◌, ◌*◌, ◌≤◌, pos, ◌*ℤ◌, slice_index_or, unsigned_abs};
ghost use Rattle.effect.specs.Laws.{limit};

// p times z, while that stays within the limit.
pub(crate) fn scaled(z: i64, p: u64) -> i64
    ensures { p * unsigned_abs z ≤ limit → result ≡ pos p *ℤ z }
{
    match i64::try_from(p) {
        Ok(k) => k.wrapping_mul(z),
        Err(_) => 0,
    }
}

// The number at a place, 0 past the end.
pub(crate) fn at(numbers: &[i64], place: usize) -> i64
    ensures { result ≡ slice_index_or numbers.now place (pos 0) }
{
    numbers.get(place).copied().unwrap_or(0)
}
