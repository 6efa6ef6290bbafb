// A header as words, at either end, and what a call leaves as words.
ghost use Rattle.std.specs.Prelude.{◌≡◌, List, ℕ};
ghost use Rattle.host_words.specs.Answers.{answer_words};

use crate::answer;
use crate::answer::AnswerWords;
use answers::outcome::Outcome;

// A header that is N words.
pub trait Words<const N: usize> {
    ghost words_of: { Self → List ℕ };

    ghost read_from: { List ℕ → Self };

    fn from_words(words: &[u64; N]) -> Self
        ensures { result ≡ read_from words.now };

    fn into_words(self) -> [u64; N]
        ensures { result ≡ words_of self };

    // What is put into words is read from them.
    ghost reads_back: { (h : Self) → read_from (words_of h) ≡ h };
}

// What a call leaves, put into the words.
pub fn put_outcome<const N: usize, H: Words<N>>(
    header: &mut [u64; N],
    answer: &mut AnswerWords,
    r: Outcome<H>,
)
    ensures { (header.new ≡ H.words_of r.header) × (answer.new ≡ answer_words r.answer) }
{
    *header = r.header.into_words();
    answer::put_answer(answer, r.answer);
}
