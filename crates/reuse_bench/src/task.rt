//! What is done in each round of a loop.

/// What one round of a loop does.
#[derive(Clone, Copy)]
pub enum Task {
    /// It loads a word of its own.
    Load,
    /// It looks at the cell.
    Look,
    /// It loads a word of its own and copies the text.
    LoadCopy,
    /// It reuses the kept text and copies it.
    ReuseCopy,
}

impl Task {
    /// The task of a word, `None` for another word.
    pub fn of(word: &str) -> Option<Task> {
        match word {
            "load" => Some(Task::Load),
            "look" => Some(Task::Look),
            "load-copy" => Some(Task::LoadCopy),
            "reuse-copy" => Some(Task::ReuseCopy),
            _ => None,
        }
    }
}
