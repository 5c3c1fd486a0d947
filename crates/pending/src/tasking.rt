ghost use Rattle.std.specs.Prelude.{◌≡◌, length, is_ok, nat_lt};
ghost use Rattle.pending.specs.Fronts.{joining};
ghost use Rattle.pending.specs.Underway.{tasks_of, is_prefix, prefixed};

use crate::stack::Full;
use crate::task::{NoPrefix, Prefix, Task, Tasks};

impl Tasks {
    /// Starts a task; refused where no more may be under way.
    pub fn start(&mut self, task: Task) -> Result<(), Full>
        ensures answer { is_ok result ≡ nat_lt (length (tasks_of self.old)) 64 }
        ensures tasks { tasks_of self.new ≡ joining 64 task (tasks_of self.old) }
    {
        self.push(task)
    }

    /// One more prefix together with the newest task, where that is a prefix.
    pub fn add_prefix(&mut self, more: Prefix) -> Result<(), NoPrefix>
        ensures answer { is_ok result ≡ is_prefix (tasks_of self.old) }
        ensures tasks { tasks_of self.new ≡ prefixed more (tasks_of self.old) }
    {
        let Some(Task::Prefix(prefix)) = self.last() else {
            return Err(NoPrefix);
        };
        let _ = self.replace_last(Task::Prefix(prefix.and(more)));
        Ok(())
    }
}
