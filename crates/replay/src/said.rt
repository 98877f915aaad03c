// What is said of an outcome.
ghost use Rattle.std.specs.Prelude.{◌≡◌, Some};
ghost use Rattle.replay.specs.Said.{said_of, said_text};

use history::Outcome;
use refusals::Refusal;
use std::fmt;

// That a call is done, or why it is refused.
#[derive(Clone, Copy)]
pub struct Said(pub Result<(), Refusal>);

impl<E: Copy> From<Outcome<E>> for Said {
    ghost from_gives = { λ outcome said. said.0 ≡ said_of outcome };

    fn from(outcome: Outcome<E>) -> Said {
        Said(outcome.map(|_| ()))
    }
}

impl fmt::Display for Said {
    ghost output = { λ x. Some (said_text x.0) };

    fn fmt<W: fmt::Write>(&self, f: &mut fmt::Formatter<W>) -> fmt::Result {
        match self.0 {
            Ok(()) => write!(f, "DONE"),
            Err(refusal) => write!(f, "{refusal}"),
        }
    }
}
