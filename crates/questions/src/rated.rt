// Records that keep the rules, with what their contributions are reckoned by.
ghost use Rattle.std.specs.Prelude.{◌≡◌};
ghost use Rattle.questions.specs.Items.{InRange, InRange-prop, Kept, Kept-prop, Weighed, Whole, Whole-prop};

use combination::Percents;
use effect::Effect;
use loads::Record;

// Every role at 100 percent.
pub(crate) const WHOLE: Percents = Percents {
    leading: 100,
    second: 100,
    other: 100,
};

// A record that keeps the rules.
#[derive(Drop)]
pub(crate) struct RuledRecord<'a, E: Effect> {
    pub record: &'a Record<E>,
    ghost in_range: { InRange E.means record.now } by { InRange-prop E.means record.now },
}

// Records that keep the rules, and the weight of each in their order: its upper factor times its reduction factor. Weights past the last record mean nothing.
// Kept: the weights stand in an array of 32 beside the records, since the records are lent and the search has no heap.
#[derive(Drop)]
pub(crate) struct WeighedRecords<'a, E: Effect> {
    pub records: &'a [Record<E>],
    pub weights: [u64; 32],
    ghost kept: { Kept E.means records.now } by { Kept-prop E.means records.now },
    ghost weighed: { Weighed weights records.now },
}

// Such records with the percentages in force for one kind.
#[derive(Drop)]
pub(crate) struct Rated<'a, E: Effect> {
    pub loads: &'a WeighedRecords<'a, E>,
    pub percents: Percents,
    ghost whole: { Whole percents } by { Whole-prop percents },
}
