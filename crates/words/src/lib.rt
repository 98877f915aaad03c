// Words for the cases of an enum, by which texts name them.
#![tactic(auto)]

ghost use Rattle.std.specs.Prelude.{◌≡◌, ℕ, List};
ghost use Rattle.words.specs.Words.{Named, Words};

// An enum of which each case has a word.
// Kept: not `Display` with `FromStr`: a text comes as bytes, and one law ties both ways, so that each word names one case.
pub trait Word: Copy {
    // The word of each case, as bytes.
    ghost word_of: { Self → List ℕ };

    fn word(self) -> &'static str
        ensures { result.now ≡ word_of self };

    // The case that a text is the word of, None where it is the word of none.
    fn from_word(text: &[u8]) -> Option<Self>
        ensures { Named word_of text.now result };

    // The words can stand as fields of a line, and each names one case.
    ghost lawful: { Words word_of };
}
