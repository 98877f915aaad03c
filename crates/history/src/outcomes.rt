// What a call came to.
use combination::Answer;
use refusals::Refusal;

// A change that is done gives nothing, and a question its answer.
pub type Outcome<E> = Result<Option<Answer<E>>, Refusal>;
