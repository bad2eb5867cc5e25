//! The form of a script.

ghost use Rattle.std.specs.Prelude.{◌≡◌};
ghost use Rattle.json_form.specs.Meaning.{form_of};
ghost use Rattle.script_text.specs.Form as spec;

use crate::script::MOST_LIMIT;
use json_form::Form::{
    BelowLength, Counting, Flag, IfHas, Measured, Moment, Object, OrNull, Tagged, Text, UpToCount,
    Whole,
};
use json_form::Presence::{Optional, Required};
use json_form::{Form, Member, Word};

const OP: Member = Member("op", Required, Text);

const NOW: Member = Member("now", Required, Moment);

const URL: Member = Member("url", Required, Text);

const OWN_URL: Member = Member("url", Optional, Text);

const LINE: Member = Member("line", Required, Text);

const NAME: Member = Member("name", Optional, Text);

const SITE: Member = Member("site", Optional, OrNull(&Text));

const INITIATOR: Member = Member("initiator", Optional, Text);

const METHOD: Member = Member("method", Optional, Text);

const NAVIGATION: Member = Member("navigation", Optional, Flag);

const ALONE: Form = Object(&[OP, NOW]);

const OF_LISTENER: Form = Object(&[OP, NOW, Member("listener", Required, UpToCount)]);

const HEAR: Form = Object(&[
    OP,
    NOW,
    Member("actor", Required, BelowLength),
    Member("n", Required, Whole(1, u64::MAX)),
]);

const DELETE: Form = Object(&[
    OP,
    NOW,
    Member("host", Required, Text),
    Member("name", Required, Text),
    Member("path", Required, Text),
]);

const FETCH_LISTEN: Form = IfHas(
    "url",
    &Object(&[OP, NOW, URL, NAME, SITE, INITIATOR, METHOD, NAVIGATION]),
    &ALONE,
);

const FETCH_STEP: Form = Tagged(
    "op",
    &[
        Word(
            "set",
            Object(&[OP, NOW, URL, LINE, SITE, INITIATOR, METHOD, NAVIGATION]),
        ),
        Word(
            "get",
            Object(&[OP, NOW, URL, SITE, INITIATOR, METHOD, NAVIGATION]),
        ),
        Word("delete", DELETE),
        Word("all", ALONE),
        Word("clear", ALONE),
        Word("listen", FETCH_LISTEN),
        Word("changes", OF_LISTENER),
        Word("unlisten", OF_LISTENER),
        Word("post", ALONE),
        Word("hear", HEAR),
    ],
);

const RENDERER_STEP: Form = Tagged(
    "op",
    &[
        Word("listen", Object(&[OP, NOW, NAME])),
        Word("changes", OF_LISTENER),
        Word("unlisten", OF_LISTENER),
        Word("post", ALONE),
        Word("hear", HEAR),
        Word("read", Object(&[OP, NOW, OWN_URL])),
        Word("write", Object(&[OP, NOW, LINE, OWN_URL])),
    ],
);

const KIND: Member = Member("kind", Required, Text);

const FETCH: Form = Object(&[
    KIND,
    Member("steps", Required, Counting("op", "listen", &FETCH_STEP)),
]);

const RENDERER: Form = Object(&[
    KIND,
    Member("document", Required, Text),
    Member("site", Required, OrNull(&Text)),
    Member("steps", Required, Counting("op", "listen", &RENDERER_STEP)),
]);

const ACTOR: Form = Tagged("kind", &[Word("fetch", FETCH), Word("renderer", RENDERER)]);

const SCRIPT: Form = Object(&[
    Member("actors", Required, Measured(&ACTOR)),
    Member("limit", Optional, Whole(1, MOST_LIMIT)),
    Member("start", Optional, Moment),
    Member("suffixes", Optional, Text),
]);

/// The form of a script.
///
/// This jar's own rule: docs/DEFINITIONS.md.
pub fn script_form() -> Form
    ensures { form_of result ≡ spec.script }
{
    SCRIPT
}
