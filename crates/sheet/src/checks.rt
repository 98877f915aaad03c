// The checks of one record, each by itself.
ghost use Rattle.std.specs.Prelude.{◌≡◌, ◌<◌, length, Decides, MatchOption, MatchResult};
ghost use Rattle.std.specs.List.{HoldsAt};
ghost use Rattle.loads.specs.Letters.{letter_of};
ghost use Rattle.loads.specs.Rules.{NumberIn, FactorsIn, ReductionIn, ReachIn};
ghost use Rattle.refusals.specs.declared.Refusal.TheVariants.{NumberMissing};
ghost use Rattle.sheet.specs.Checks.{LoadCause};
ghost use Rattle.sheet.specs.Ledger.{Missing, Due, Clear};

use crate::changes::Entry;
use crate::groups::Membership;
use effect::Effect;
use loads::{Kind, Load, Record};
use refusals::Refusal;

const REACH_LIMIT: u64 = 1_000_000_000;

pub(crate) fn number_in(number: u64) -> bool
    ensures { Decides result (NumberIn number) }
{
    number >= 1 && number <= 9999
}

fn factors_in<E>(kind: Kind, load: &Load<E>) -> bool
    ensures { Decides result (FactorsIn kind load.now.upper load.now.lower) }
{
    if load.upper < 80 || load.upper > 200 {
        return false;
    }
    match kind {
        Kind::Permanent => 80 <= load.lower && load.lower <= load.upper,
        _ => load.lower == 0,
    }
}

// Whether a record of this kind may be reduced so. Area and storeys have the ranges of the reduction.
fn reduction_in<E>(kind: Kind, load: &Load<E>) -> bool
    ensures { Decides result (ReductionIn kind load.now.class load.now.area load.now.storeys) }
{
    match kind {
        Kind::ShortTerm if load.class > 0 => { load.reduction_factor().is_ok() }
        _ => load.class == 0 && load.area == 0 && load.storeys == 0,
    }
}

fn reach_in<E: Effect>(load: &Load<E>) -> bool
    ensures { Decides result (ReachIn E.means load.now) }
{
    load.effect.reach() <= REACH_LIMIT
}

// The place of the record with this number.
pub(crate) fn position<E: Effect>(records: &[Record<E>], number: u64) -> Option<usize>
    ensures { MatchOption result (Missing number records.now) (λ i. (i < length records.now) × HoldsAt (λ b. b.number ≡ number) records.now i) }
{
    records.iter().position(|beside| beside.number == number)
}

// The same, or the refusal where there is none.
pub(crate) fn place_of<E: Effect>(records: &[Record<E>], number: u64) -> Result<usize, Refusal>
    ensures { MatchResult result (λ i. (i < length records.now) × HoldsAt (λ b. b.number ≡ number) records.now i) (λ e. (e ≡ NumberMissing) × Missing number records.now) }
{
    position(records, number).ok_or(Refusal::NumberMissing)
}

// The kind of a record that is handed in, or why it is refused whatever its number is beside the others.
// Kept: `own` beside the entry whose number it may be: an entry leaves no record out of the group rule, and an alteration its own.
pub(crate) fn checked<E: Effect>(
    records: &[Record<E>],
    own: Option<u64>,
    entry: &Entry<E>,
) -> Result<Kind, Refusal>
    ensures { MatchResult result (λ k. (letter_of k ≡ entry.now.letter) × Clear (LoadCause E.means own entry.now records.now)) (λ e. Due (LoadCause E.means own entry.now records.now) e) }
{
    let load = &entry.load;
    if !number_in(entry.number) {
        return Err(Refusal::RecordNumber);
    }
    let kind = Kind::try_from(entry.letter)?;
    if !factors_in(kind, load) {
        return Err(Refusal::LoadFactor);
    }
    if !reduction_in(kind, load) {
        return Err(Refusal::Reduction);
    }
    let group = load.group;
    if !(Membership { own, kind, group }).is_kept(records) {
        return Err(Refusal::Group);
    }
    if !reach_in(load) {
        return Err(Refusal::Reach);
    }
    Ok(kind)
}
