// The percentages of the norms, a row for each norm, combination and term.
ghost use Rattle.std.specs.Prelude.{◌≡◌, Some};
ghost use Rattle.listing.specs.NormTables.{percents_by, row_of, row_text, rows_of, combination_word, in_combination, word_of_term};

use norm::{InSpecial, Norm, NormName, Role, Snip85, Sp20, SpecialNorm, Taken, Term};
use std::fmt;
use words::Word;

// Which combinations a percentage is for.
// Kept: beside `combination::Question`, since the tables of the norms stand on the norms alone.
#[derive(Clone, Copy, PartialEq, Eq, Debug)]
pub enum Combination {
    // without a special load
    Basic,
    // with one
    Special,
}

impl Combination {
    pub fn word(self) -> &'static str
        ensures { result.now ≡ combination_word self }
    {
        match self {
            Combination::Basic => "BASIC",
            Combination::Special => "SPECIAL",
        }
    }
}

// Kept: a word for the tables alone: `Word` for a term would bring a reading that nothing asks for.
fn term_word(term: Term) -> &'static str
    ensures { result.now ≡ word_of_term term }
{
    match term {
        Term::Long => "LONG",
        Term::Short => "SHORT",
    }
}

// The percentages of the leading, the second and any other role, for the numbers of loads taken.
fn percents<N: Norm>(norm: &N, term: Term, taken: Taken) -> [u64; 3]
    ensures { result ≡ percents_by (N.percentages norm.now) term taken.long taken.short }
{
    [Role::Leading, Role::Second, Role::Other].map(|role| norm.percent(term, role.number(), taken))
}

impl Combination {
    // The percentages of a norm in this combination.
    fn percents<N: SpecialNorm>(self, norm: &N, term: Term, taken: Taken) -> [u64; 3]
        ensures { result ≡ percents_by (in_combination self (N.percentages norm.now) (N.special norm.now)) term taken.long taken.short }
    {
        match self {
            Combination::Basic => percents(norm, term, taken),
            Combination::Special => percents(&InSpecial(norm), term, taken),
        }
    }
}

// The percentages of the leading, the second and any other role, where some numbers of loads are taken.
#[derive(Clone, Copy, PartialEq, Debug)]
pub struct NormRow {
    pub norm: NormName,
    pub combination: Combination,
    pub term: Term,
    pub percents: [u64; 3],
}

impl NormRow {
    // The row of a norm for the numbers of loads taken.
    pub fn of_counts(norm: NormName, combination: Combination, term: Term, taken: Taken) -> NormRow
        ensures { result ≡ row_of norm combination term taken.long taken.short }
    {
        // Kept: the norm of a name by a match, here and where a text or a run is read: a norm that a name picks at run time would match at each percentage.
        let percents = match norm {
            NormName::Sp20 => combination.percents(&Sp20, term, taken),
            NormName::Snip85 => combination.percents(&Snip85, term, taken),
        };
        NormRow {
            norm,
            combination,
            term,
            percents,
        }
    }
}

impl fmt::Display for NormRow {
    ghost output = { λ x. Some (row_text x) };

    fn fmt<W: fmt::Write>(&self, f: &mut fmt::Formatter<W>) -> fmt::Result {
        let norm = self.norm.word();
        let combination = self.combination.word();
        let term = term_word(self.term);
        let [first, second, third] = self.percents;
        write!(f, "{norm} {combination} {term} {first} {second} {third}")
    }
}

// The rows of a norm: basic and then special, long-term and then short-term.
pub fn norm_rows(norm: NormName, taken: Taken) -> [NormRow; 4]
    ensures { result ≡ rows_of norm taken.long taken.short }
{
    [
        (Combination::Basic, Term::Long),
        (Combination::Basic, Term::Short),
        (Combination::Special, Term::Long),
        (Combination::Special, Term::Short),
    ]
    .map(|(combination, term)| NormRow::of_counts(norm, combination, term, taken))
}
