// The weights of the records: the upper factor times the reduction factor, each found once for a question.
ghost use Rattle.std.specs.Prelude.{◌≡◌, Decides, MatchOption};
ghost use Rattle.combination.specs.Sound.{Sound};
ghost use Rattle.questions.specs.Weights.{Allowed, Reduces, Weighs};

use crate::rated::WeighedRecords;
use effect::Effect;
use loads::{Kind, Record};

// Whether a kind allows a reduction factor.
fn is_allowed(kind: Kind, f: u64) -> bool
    ensures { Decides result (Allowed kind f) }
{
    match kind {
        Kind::ShortTerm => true,
        Kind::Permanent | Kind::LongTerm | Kind::Special => f == 10_000,
    }
}

// The reduction factor of a record; None where its rule is broken.
fn reduction_of<E: Effect>(record: &Record<E>) -> Option<u64>
    ensures { Reduces «record».now result }
{
    let f = record.load.reduction_factor().ok()?;
    is_allowed(record.kind, f).then_some(f)
}

// The weight of a record; None where a rule is broken.
fn weight<E: Effect>(record: &Record<E>) -> Option<u64>
    ensures { Weighs E.means «record».now result }
{
    let load = &record.load;
    if load.effect.reach() > 1_000_000_000 || load.upper > 200 || load.lower > 200 {
        return None;
    }
    let f = reduction_of(record)?;
    Some(load.upper * f)
}

// The records with their weights; None where a rule is broken.
pub(crate) fn weigh<E: Effect>(records: &[Record<E>]) -> Option<WeighedRecords<'_, E>>
    ensures { MatchOption result (Sound E.means records.now → ⊥) (λ loads. loads.records.now ≡ records.now) }
{
    if records.len() > 32 {
        return None;
    }
    let mut weights = [0; 32];
    // Kept: the place is counted, since of a zip over `weights.iter_mut()` the proof leaves open what `weights` holds after the loop, and the contract of `array::try_from_fn` doesn't say that its closure reads these records at each call.
    for (k, record) in records.iter().enumerate() {
        weights[k] = weight(record)?;
    }
    Some(WeighedRecords { records, weights })
}
