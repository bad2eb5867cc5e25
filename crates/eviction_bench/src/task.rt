//! Which plan is made.

/// Which plan is made in each round of a loop.
#[derive(Clone, Copy)]
pub enum Task {
    /// That of a key.
    Key,
    /// That of a jar.
    Jar,
}

impl Task {
    /// The task of a word, `None` for another word.
    pub fn of(word: &str) -> Option<Task> {
        match word {
            "key" => Some(Task::Key),
            "jar" => Some(Task::Jar),
            _ => None,
        }
    }
}
