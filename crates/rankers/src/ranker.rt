//! What a ranker is.
ghost use Rattle.std.specs.Prelude.{◌≡◌, ⊤, length};
ghost use Rattle.rankers.specs.FactsTold.{FactsTold, coflows_in};
ghost use Rattle.rankers.specs.Meaning.{Meaning, after_note, after_question, answer_of};
ghost use Rattle.report_text.specs.Compared.{IsName};

use crate::facts::Facts;

/// Orders coflows, and may learn from what came of its order. It holds a list of numbers; its name, and what it makes
/// of questions and notes, no call changes.
pub trait Ranker: Drop {
    /// The name, the list held, the answer to a list held and the facts, and the lists held after a question and after
    /// a note.
    ghost meaning: { Self → Meaning };

    /// That a ranker was asked of these facts, as it was. Only `rank` gives this of any ranker, so code that owes it
    /// has asked. An `impl` may leave it out.
    ghost answered: { Self → FactsTold → Type 0 } = { λ _ _. ⊤ };

    /// The name, of 1 to 16 lower-case letters.
    fn name(&self) -> &str
        ensures name { result.now ≡ (meaning self.now).name }
        ensures letters { IsName result.now };

    /// Fills `out`, which has one place for each coflow, with a number for each place, from what the ranker holds and
    /// the facts.
    fn rank(&mut self, facts: &Facts, out: &mut [u32])
        requires { length out.old ≡ coflows_in facts.now }
        ensures answer { out.new ≡ answer_of (meaning self.old) facts.now }
        ensures asked { meaning self.new ≡ after_question (meaning self.old) facts.now }
        ensures answered { answered self.old facts.now };

    /// Takes notice of the slot in which a coflow ended, 0 where it had no units.
    fn note(&mut self, coflow: u32, slot: u64)
        ensures { meaning self.new ≡ after_note (meaning self.old) coflow slot };
}
