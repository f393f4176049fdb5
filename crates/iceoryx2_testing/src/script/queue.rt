//! The answers of a script that are left.

ghost use Rattle.std.specs.Prelude.{◌≡◌, ◌∷◌, [], drop, MatchOption};

use super::Answer;
use std::marker::Model;
use std::mem;

/// Answers in order, of which the first ones were taken. An answer that is taken leaves one without
/// memory in its place, so taking moves nothing else and takes no memory.
#[derive(Drop)]
pub struct Queue {
    answers: Vec<Answer>,
    taken: usize,
}

impl Model for Queue {
    ghost use Rattle.std.specs.Prelude.{List, drop, length, ◌≤◌};
    ghost use Rattle.iceoryx2_testing.specs.declared.script.Answer.{Answer};

    ghost Value = { List Answer };

    ghost view = { λ q. drop q.taken q.answers.items };

    ghost invariant = { λ q. q.taken ≤ length q.answers.items };
}

impl Queue {
    pub(super) fn new(answers: Vec<Answer>) -> Queue
        ensures { result ≡ answers.items }
    {
        Queue { answers, taken: 0 }
    }

    pub(super) fn left(&self) -> &[Answer]
        ensures { result.now ≡ self.now }
    {
        &self.answers[self.taken..]
    }

    pub(super) fn front(&self) -> Option<&Answer>
        ensures { MatchOption result (self.now ≡ []) (λ front. self.now ≡ front.now ∷ drop 1 self.now) }
    {
        self.answers.get(self.taken)
    }

    /// Takes the first answer, if one is left.
    pub(super) fn skip(&mut self)
        ensures { self.new ≡ drop 1 self.old }
    {
        if self.taken < self.answers.len() {
            self.taken += 1;
        }
    }

    /// Takes the first answer, and returns it.
    pub(super) fn pop(&mut self) -> Option<Answer>
        ensures { MatchOption result ((self.old ≡ []) × (self.new ≡ []))
            (λ front. self.old ≡ front ∷ self.new) }
    {
        if self.taken == self.answers.len() {
            return None;
        }
        let front = mem::replace(&mut self.answers[self.taken], Answer::Counts(false));
        self.taken += 1;
        Some(front)
    }
}
