//! Forms as constants.

/// What a JSON value may be, as a constant that owns nothing.
///
/// A number is whole where it is written without fraction and exponent and has at most 64 bits.
///
/// This jar's own rule: docs/DEFINITIONS.md.
#[cycle(form)]
#[derive(Clone, Copy)]
pub enum Form {
    /// null.
    Null,
    /// `true` or `false`.
    Flag,
    /// A text of fewer than [`jar_values::TEXT_END`] bytes.
    Text,
    /// One of these texts.
    Words(&'static [&'static str]),
    /// A whole number from the first up to the second.
    Whole(u64, u64),
    /// A whole number, below 0 too; in the pass of moments one that is a moment.
    Moment,
    /// A whole number below the length of the list that is measured.
    BelowLength,
    /// A whole number from 1 to the count of the items before.
    UpToCount,
    /// A list of values of a form.
    ListOf(&'static Form),
    /// A list whose length is known to its items.
    Measured(&'static Form),
    /// A list whose items know how many before them have, at the member of the first name, the
    /// second text.
    Counting(&'static str, &'static str, &'static Form),
    /// An object with these members and no others.
    Object(&'static [Member]),
    /// null, or what is of a form.
    OrNull(&'static Form),
    /// What is of the first form where it has a member of this name, and else of the second.
    IfHas(&'static str, &'static Form, &'static Form),
    /// An object whose form goes by the word of the member of this name.
    Tagged(&'static str, &'static [Word]),
    /// What is of the first form, or else of the second.
    Either(&'static Form, &'static Form),
    /// An object with just the members of one of these, whose keys fit.
    OneOf(&'static [Outline]),
}

/// Whether a member has to be there.
#[derive(Clone, Copy, PartialEq, Eq)]
pub enum Presence {
    /// It has to be there.
    Required,
    /// It may be absent.
    Optional,
    /// It has to be there, and to fit: by it the outline of an object is chosen.
    Key,
}

/// A member of an object: its name, whether it has to be there, and its form.
#[cycle(form)]
#[derive(Clone, Copy)]
pub struct Member(pub &'static str, pub Presence, pub Form);

/// A word of a tag, and the form of an object that has it.
#[cycle(form)]
#[derive(Clone, Copy)]
pub struct Word(pub &'static str, pub Form);

/// The members of an object, as one of several lists that it may have.
#[cycle(form)]
#[derive(Clone, Copy)]
pub struct Outline(pub &'static [Member]);
