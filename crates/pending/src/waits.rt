ghost use Rattle.std.specs.Prelude.{◌≡◌, ◌+◌, [], ◌++◌, length, is_ok, if◌then◌else◌, vec_len, vec_capacity, nat_le};
ghost use Rattle.pending.specs.Underway.{tasks_of, waiting_of, beyond_waiting};

use crate::stack::Full;
use crate::task::{Task, Tasks};
use tokens::Token;

impl Tasks {
    /// How many tokens wait at the newest end.
    pub fn waiting(&self) -> usize
        ensures { result ≡ length (waiting_of (tasks_of self.now)) }
    {
        self.held
            .iter()
            .rev()
            .take_while(|task| matches!(task, Task::After(_)))
            .count()
    }

    /// Copies the tokens that wait at the newest end behind others, the oldest first: all of them, or none where there is no room.
    /// Any vector of the caller's, so its room is said here.
    pub fn copy_waiting(&self, tokens: &mut Vec<Token>) -> Result<(), Full>
        ensures answer { is_ok result ≡ nat_le (vec_len tokens.old + length (waiting_of (tasks_of self.now))) (vec_capacity tokens.old) }
        ensures tokens { tokens.new.items ≡ tokens.old.items ++ (if is_ok result then waiting_of (tasks_of self.now) else []) }
        ensures room { vec_capacity tokens.new ≡ vec_capacity tokens.old }
    {
        let count = self.waiting();
        if tokens.capacity() - tokens.len() < count {
            return Err(Full);
        }
        for task in &self.held[self.held.len() - count..] {
            if let Task::After(token) = task {
                tokens.push_reserved(*token);
            }
        }
        Ok(())
    }

    /// Ends the tasks of the tokens that wait at the newest end.
    pub fn end_waiting(&mut self)
        ensures { tasks_of self.new ≡ beyond_waiting (tasks_of self.old) }
    {
        let kept = self.held.len() - self.waiting();
        self.held.truncate(kept);
    }
}
