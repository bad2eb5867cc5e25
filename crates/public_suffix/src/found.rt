//! What the rules say of the last labels of a host.

ghost use Rattle.std.specs.Prelude.{◌≡◌, ◌<◌, ◌+◌, ◌^◌, ◌∷◌, [], List, ℕ, if◌then◌else◌};
ghost use Rattle.public_suffix.specs.Rule.{SuffixRule};
ghost use Rattle.public_suffix.specs.Suffix.{suffix_len_by};

use crate::marks::Marks;

/// What the rules say of the last labels of a host, more of them one by one.
#[derive(Clone, Copy, Debug, PartialEq, Eq)]
pub struct Found {
    /// How many labels these are.
    pub count: usize,
    /// The most labels of an exception that matches; 0 where none does.
    pub exception: usize,
    /// The most labels of another rule that matches; 0 where none does.
    pub other: usize,
    /// The marks of the rules with these labels.
    pub marks: Marks,
}

impl Found {
    ghost use Rattle.public_suffix.specs.Tables.{AreMarksOf, IsFoundOf};

    /// What the rules say of no labels, by the marks of the rules without labels.
    pub fn none(marks: Marks) -> Found
        ensures count { result.count ≡ 0 }
        ensures none { (rules : List SuffixRule) → AreMarksOf rules [] marks
            → IsFoundOf rules [] result }
    {
        Found {
            count: 0,
            exception: 0,
            other: 0,
            marks,
        }
    }

    /// What the rules say of one label more, by the marks of the rules with all of these labels.
    pub fn more(self, marks: Marks) -> Found
        requires { self.count + 1 < 2 ^ 64 }
        ensures count { result.count ≡ self.count + 1 }
        ensures more { (rules : List SuffixRule) (label : List ℕ) (labels : List (List ℕ))
            → IsFoundOf rules labels self → AreMarksOf rules (label ∷ labels) marks
            → IsFoundOf rules (label ∷ labels) result }
    {
        let count = self.count + 1;
        let below = count_if(self.marks.wildcard, count, self.other);
        Found {
            count,
            exception: count_if(marks.exception, count, self.exception),
            other: count_if(marks.plain, count, below),
            marks,
        }
    }

    /// How many labels the public suffix has.
    pub fn suffix_len(self) -> usize
        ensures { result ≡ suffix_len_by self.exception self.other }
    {
        if self.exception > 0 {
            self.exception - 1
        } else {
            self.other.max(1)
        }
    }
}

/// As many labels as there are where they fit, else as many as before.
fn count_if(fits: bool, count: usize, before: usize) -> usize
    ensures { result ≡ (if fits then count else before) }
{
    if fits { count } else { before }
}
