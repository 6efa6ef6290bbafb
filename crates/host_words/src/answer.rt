// Answers as words: the kind and the refusal by their numbers, the number of the state after the call, and how many
// bytes were written.
ghost use Rattle.std.specs.Prelude.{◌≡◌};
ghost use Rattle.host_words.specs.Answers.{answer_words};

use answers::answer;
use answers::answer::Answer;

const WORDS: usize = 4;

pub type AnswerWords = [u64; WORDS];

// An answer is put and never read back, so it is no `Words`.
pub fn put_answer(words: &mut AnswerWords, a: Answer)
    ensures { words.new ≡ answer_words a }
{
    *words = [
        answer::kind_number(a.kind),
        answer::refusal_in(a.kind),
        answer::sequence_in(a.kind).0,
        a.written as u64,
    ];
}
