//! What a renderer of `https://h.test/` does with cookies, by the suffix rule `test`. The values are
//! this jar's own rules.
//!
//! A value that owns texts is made, looked at and dropped in a small function: elsewhere the proof has
//! a case for each of its forms.

ghost use Rattle.std.specs.Prelude.{◌≡◌};

use crate::{Manager, ReadTurn, ReadTurnRefusal, WriteRefusal};
use canonical_cookie::CookieRefusal;
use jar_types::{AskCause, Context, Cookie, Entry, Moment, Op, Own, Reply, Request, Scope, Text};
use public_suffix::Suffixes;
use set_cookie_line::LineRefusal;
use site_match::Place;
use std::alloc::Global;
use std::process::Abort;
use version_cells::{Cells, Made, Pass};

/// The suffix rule.
fn rules(rt: &impl Abort, alloc: Global) -> Suffixes {
    Suffixes::read(alloc, "test").expect(rt, "a list")
}

/// The place of a URL of less than 1,000 bytes.
fn place(rt: &impl Abort, alloc: Global, url: &str) -> Place {
    assert!(rt; url.len() < 1000);
    let suffixes = rules(rt, alloc);
    Place::read(alloc, &suffixes, url).expect(rt, "a place")
}

/// The manager of a document that is its own site.
fn manager(rt: &impl Abort, alloc: Global) -> Manager {
    let document = place(rt, alloc, "https://h.test/");
    let site = place(rt, alloc, "https://h.test/");
    Manager::make(alloc, document, Some(site)).expect(rt, "a manager")
}

/// Whether a request is the renderer's for its document.
fn is_of_document(request: &Request) -> bool {
    request.key.as_str() == "h.test"
        && request.host.as_str() == "h.test"
        && request.path.as_str() == "/"
        && request.secure
        && request.script
        && request.context == Context::Strict
}

/// The cause of a turn that asks for a Get; none where it uses the text `a=1` again.
fn cause_of(rt: &impl Abort, turn: ReadTurn) -> Option<AskCause> {
    match turn {
        ReadTurn::Reused(text) => {
            assert!(rt; text.as_str() == "a=1");
            None
        }
        ReadTurn::Ask { op, cause } => {
            assert!(rt; is_get(&op));
            Some(cause)
        }
    }
}

/// Whether an op is a Get by a script.
fn is_get(op: &Op) -> bool {
    match op {
        Op::Get(request) => request.script && request.secure && request.context == Context::Strict,
        _ => false,
    }
}

/// The cause of a read of the document at a moment; none where it uses the text `a=1` again.
fn read_at(
    rt: &impl Abort,
    alloc: Global,
    manager: &Manager,
    cells: &Cells,
    pass: &mut Pass,
    ms: u64,
) -> Option<AskCause>
    requires same { pass.old.table ≡ cells.now }
    ensures same { pass.new.table ≡ cells.now }
{
    let now = Moment::of(ms).expect(rt, "a moment");
    let turn = manager
        .begin_read(alloc, cells, pass, None, now)
        .expect(rt, "a turn");
    cause_of(rt, turn)
}

/// The cause of a read of a URL, or its refusal.
fn read_of(
    rt: &impl Abort,
    alloc: Global,
    manager: &Manager,
    cells: &Cells,
    pass: &mut Pass,
    url: &str,
) -> Result<Option<AskCause>, ReadTurnRefusal>
    requires same { pass.old.table ≡ cells.now }
    ensures same { pass.new.table ≡ cells.now }
{
    let now = Moment::of(0).expect(rt, "a moment");
    let place = place(rt, alloc, url);
    let turn = manager.begin_read(alloc, cells, pass, Some(&place), now)?;
    Ok(cause_of(rt, turn))
}

/// The reply to a read gives the text `a=1` of version 0, to keep until 10.
fn keep(rt: &impl Abort, alloc: Global, manager: &mut Manager, url: Option<&Place>) {
    let reply = Reply::Script {
        text: Text::of(alloc, "a=1").expect(rt, "a text"),
        version: Some(0),
        until: 10,
    };
    manager
        .end_read(alloc, url, &reply)
        .expect(rt, "memory to keep it");
}

#[test]
fn a_reader_asks_with_its_first_cause(rt: HostRuntime) {
    let alloc = rt.alloc();
    let Made {
        cells,
        baton: _,
        mut cutter,
        passes: _,
    } = Cells::make(alloc, 0).expect(&rt, "the words");
    let mut manager = manager(&rt, alloc);
    let unbound = read_at(&rt, alloc, &manager, &cells, &mut cutter, 0);
    manager.bound(Some(7));
    let cold = read_at(&rt, alloc, &manager, &cells, &mut cutter, 0);
    let other = read_of(
        &rt,
        alloc,
        &manager,
        &cells,
        &mut cutter,
        "https://h.test/x",
    );
    let far = read_of(&rt, alloc, &manager, &cells, &mut cutter, "http://h.test/");
    assert_eq!(rt; unbound, Some(AskCause::NoCell));
    assert_eq!(rt; cold, Some(AskCause::Cold));
    assert_eq!(rt; other, Ok(Some(AskCause::Other)));
    assert_eq!(rt; far, Err(ReadTurnRefusal::OriginMismatch));
    assert_eq!(rt; cutter.looks(), 0);
}

#[test]
fn a_kept_text_is_reused_until_its_moment_or_a_move(rt: HostRuntime) {
    let alloc = rt.alloc();
    let Made {
        cells,
        mut baton,
        mut cutter,
        passes: _,
    } = Cells::make(alloc, 0).expect(&rt, "the words");
    let mut manager = manager(&rt, alloc);
    manager.bound(Some(7));
    keep(&rt, alloc, &mut manager, None);
    let reused = read_at(&rt, alloc, &manager, &cells, &mut cutter, 9);
    let late = read_at(&rt, alloc, &manager, &cells, &mut cutter, 10);
    assert_eq!(rt; reused, None);
    assert_eq!(rt; late, Some(AskCause::Late { until: 10 }));
    let whole = Entry::Jar(Own::Whole(Moment::of(8).expect(&rt, "a moment")));
    cells.bump(&mut baton, 7);
    cells.commit(&mut baton, None, &[7], &whole);
    let moved = read_at(&rt, alloc, &manager, &cells, &mut cutter, 9);
    assert_eq!(rt; moved, Some(AskCause::Moved { kept: 0, found: 1 }));
    assert_eq!(rt; cutter.looks(), 2);
}

#[test]
fn only_an_answer_for_the_document_is_kept(rt: HostRuntime) {
    let alloc = rt.alloc();
    let Made {
        cells,
        baton: _,
        mut cutter,
        passes: _,
    } = Cells::make(alloc, 0).expect(&rt, "the words");
    let mut manager = manager(&rt, alloc);
    keep(&rt, alloc, &mut manager, None);
    manager.bound(Some(7));
    let other = place(&rt, alloc, "https://h.test/x");
    keep(&rt, alloc, &mut manager, Some(&other));
    let cold = read_at(&rt, alloc, &manager, &cells, &mut cutter, 0);
    assert_eq!(rt; cold, Some(AskCause::Cold));
}

/// The key that an op binds; empty for another op.
fn bound_key(rt: &impl Abort, alloc: Global, op: Op) -> Text {
    let text = match &op {
        Op::Bind(key) => key.as_str(),
        _ => "",
    };
    Text::of(alloc, text).expect(rt, "a text")
}

/// Whether an op listens to the changes of the document's cookies of a name, or of all.
fn listens(op: &Op, wanted: Option<&str>) -> bool {
    match op {
        Op::Listen(Scope::Named(request, name)) => {
            is_of_document(request) && wanted == Some(name.as_str())
        }
        Op::Listen(Scope::Seen(request)) => is_of_document(request) && wanted.is_none(),
        _ => false,
    }
}

#[test]
fn a_renderer_binds_and_listens_for_its_document(rt: HostRuntime) {
    let alloc = rt.alloc();
    let manager = manager(&rt, alloc);
    let bind = manager.bind_op(alloc).expect(&rt, "an op");
    let key = bound_key(&rt, alloc, bind);
    assert_eq!(rt; key.as_str(), "h.test");
    let all = manager.listen_op(alloc, None).expect(&rt, "an op");
    assert!(rt; listens(&all, None));
    let named = manager.listen_op(alloc, Some("a")).expect(&rt, "an op");
    assert!(rt; listens(&named, Some("a")));
}

/// Whether a cookie is `a=1` of the document, made at 5.
fn is_made(cookie: &Cookie) -> bool {
    cookie.key.as_str() == "h.test"
        && cookie.host.as_str() == "h.test"
        && cookie.name.as_str() == "a"
        && cookie.value.as_str() == "1"
        && cookie.path.as_str() == "/"
        && cookie.creation.ms() == 5
}

/// Whether an op sets the cookie `a=1` of the document by a script, on a secure connection.
fn sets(op: &Op) -> bool {
    match op {
        Op::Set {
            cookie,
            script,
            secure,
        } => *script && *secure && is_made(cookie),
        _ => false,
    }
}

/// Whether a write of a line at 5 sets the cookie `a=1` of the document, or its refusal.
fn write(
    rt: &impl Abort,
    alloc: Global,
    url: Option<&Place>,
    line: &str,
) -> Result<bool, WriteRefusal> {
    let now = Moment::of(5).expect(rt, "a moment");
    let manager = manager(rt, alloc);
    let suffixes = rules(rt, alloc);
    let op = manager.write_op(alloc, &suffixes, url, line, now)?;
    Ok(sets(&op))
}

/// Why a write of `a=1` is refused by a renderer whose document has no site for cookies.
fn refusal_without_a_site(rt: &impl Abort, alloc: Global) -> Option<WriteRefusal> {
    let now = Moment::of(5).expect(rt, "a moment");
    let document = place(rt, alloc, "https://h.test/");
    let manager = Manager::make(alloc, document, None).expect(rt, "a manager");
    let suffixes = rules(rt, alloc);
    manager.write_op(alloc, &suffixes, None, "a=1", now).err()
}

#[test]
fn a_write_is_a_set_or_its_first_refusal(rt: HostRuntime) {
    let alloc = rt.alloc();
    let by_script = CookieRefusal::HttpOnlyFromScript;
    for (line, wanted) in [
        ("a=1", Ok(true)),
        ("a=1; HttpOnly", Err(WriteRefusal::Cookie(by_script))),
        ("=", Err(WriteRefusal::Line(LineRefusal::Empty))),
    ] {
        assert_eq!(rt; write(&rt, alloc, None, line), wanted, "{line}");
    }
    let far = place(&rt, alloc, "https://h.test:8443/");
    let refused = write(&rt, alloc, Some(&far), "=");
    assert_eq!(rt; refused, Err(WriteRefusal::OriginMismatch));
    let cross = WriteRefusal::Cookie(CookieRefusal::CrossSite);
    assert_eq!(rt; refusal_without_a_site(&rt, alloc), Some(cross));
}
