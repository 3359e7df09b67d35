//! Questions that are asked of each line of a kind with its number, the first no deciding.
ghost use Rattle.std.specs.Prelude.{◌≡◌, ℕ, ◌<◌, ◌≤◌, Bool, IfSome, length};
ghost use Rattle.linefile.specs.Questions.{Decided, count_yes, first_no};

// A trait and no closure: a closure would have to be one that may be called, and calls have no
// `requires` here.
/// A question that is asked of each line of a kind, with the line's number.
pub trait Question<L> {
    ghost yes: { Self → ℕ → L → Bool };

    fn holds(&self, number: usize, line: &L) -> bool
        ensures { result ≡ yes self.now number line.now };
}

// Where the first line that says no stands, without the equation for it.
fn position_of_no<L, Q: Question<L>>(question: &Q, lines: &[L]) -> Option<usize>
    ensures first { Decided (Q.Question.yes question.now) lines.now result }
    ensures within { IfSome result (λ number. number < length lines.now) }
{
    lines
        .iter()
        .enumerate()
        .position(|(number, line)| !question.holds(number, line))
}

/// The number of the first line that says no.
pub fn first_no<L, Q: Question<L>>(question: &Q, lines: &[L]) -> Option<usize>
    ensures value { result ≡ first_no (Q.Question.yes question.now) lines.now }
    ensures first { Decided (Q.Question.yes question.now) lines.now result }
    ensures within { IfSome result (λ number. number < length lines.now) }
{
    position_of_no(question, lines)
}

/// How many lines say yes.
#[tactic(auto, using(crate::proofs::Asking::count_all, crate::proofs::Asking::count_more))]
pub fn count_yes<L, Q: Question<L>>(question: &Q, lines: &[L]) -> usize
    ensures value { result ≡ count_yes (Q.Question.yes question.now) lines.now }
    ensures bound { result ≤ length lines.now }
{
    // a loop: a chain proves too, but with an answer, and then a wrong count is found only there
    let mut count = 0;
    for (number, line) in lines.iter().enumerate() {
        if question.holds(number, line) {
            count += 1;
        }
    }
    count
}
