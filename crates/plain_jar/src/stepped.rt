//! What an op leads to.

use crate::content::Content;
use jar_types::{Change, Reply};
use std::marker::Model;

/// The content after an op, the reply to it, and the changes of the cookies.
#[derive(Drop)]
pub struct Stepped {
    pub content: Content,
    pub reply: Reply,
    pub changes: Vec<Change>,
}

impl Model for Stepped {
    ghost use Rattle.jar_types.specs.States.{Stepped};

    ghost Value = { Stepped };

    ghost view = { λ s. record { state = s.content; reply = s.reply; changes = s.changes.items } };
}
