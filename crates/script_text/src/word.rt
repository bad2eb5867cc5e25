//! The words of steps.

ghost use Rattle.std.specs.Prelude.{◌≡◌};
ghost use Rattle.script_text.specs.Readings as spec;

/// The word of a step, its `op`.
#[derive(Clone, Copy)]
pub enum Word {
    Set,
    Get,
    Delete,
    All,
    Clear,
    Listen,
    Changes,
    Unlisten,
    Post,
    Hear,
    Read,
    Write,
}

impl Word {
    /// The word that a text is; one that is none reads as `post`.
    pub fn of(text: &str) -> Word
        ensures { result ≡ spec.word_of text.now }
    {
        match text {
            "set" => Word::Set,
            "get" => Word::Get,
            "delete" => Word::Delete,
            "all" => Word::All,
            "clear" => Word::Clear,
            "listen" => Word::Listen,
            "changes" => Word::Changes,
            "unlisten" => Word::Unlisten,
            "hear" => Word::Hear,
            "read" => Word::Read,
            "write" => Word::Write,
            _ => Word::Post,
        }
    }
}
