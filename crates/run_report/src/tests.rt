//! Reports as texts, after docs/DEFINITIONS.md. No two members of the cookie and of the request here
//! are alike.

use crate::item::ItemLists;
use crate::report::{Report, print};
use jar_types::{Context, Cookie, Entry, Journal, Op, Reply, Request};
use jar_values::{MAX_MOMENT, Moment, NoMemory, Priority, SameSite, Text, Texts};
use std::alloc::{AllocError, Global};
use std::test::Fail;

mod items;
mod ops;
mod owns;
mod replies;

/// The text of [`cookie`].
const COOKIE: &str =
    "{\"access\":2,\"creation\":1,\"expiry\":253402300799999,\"host\":\".h.test\",\"http_only\":true,\"key\":\"h.test\",\"name\":\"n\",\"path\":\"/p\",\"priority\":\"high\",\"same_site\":\"lax\",\"secure\":false,\"value\":\"v\"}";

/// The text of [`request`] from the context LaxUnsafe.
const REQUEST: &str =
    "{\"context\":\"lax_unsafe\",\"host\":\"a.h.test\",\"key\":\"h.test\",\"path\":\"/p\",\"script\":false,\"secure\":true}";

/// A moment.
fn at(ms: u64) -> Result<Moment, Fail> {
    Ok(Moment::of(ms).ok_or("no moment")?)
}

/// A cookie.
fn cookie(alloc: Global) -> Result<Cookie, Fail> {
    Ok(Cookie {
        key: Text::of(alloc, "h.test")?,
        host: Text::of(alloc, ".h.test")?,
        name: Text::of(alloc, "n")?,
        path: Text::of(alloc, "/p")?,
        value: Text::of(alloc, "v")?,
        creation: at(1)?,
        access: at(2)?,
        expiry: Some(at(MAX_MOMENT)?),
        secure: false,
        http_only: true,
        same_site: SameSite::Lax,
        priority: Priority::High,
    })
}

/// A request from this context.
fn request(alloc: Global, context: Context) -> Result<Request, NoMemory> {
    Ok(Request {
        key: Text::of(alloc, "h.test")?,
        host: Text::of(alloc, "a.h.test")?,
        path: Text::of(alloc, "/p")?,
        secure: true,
        script: false,
        context,
    })
}

/// The text of a report.
fn text_of(
    alloc: Global,
    hosts: Texts,
    items: ItemLists,
    journal: Journal,
) -> Result<Vec<u8>, NoMemory> {
    let report = Report {
        hosts,
        items,
        journal,
    };
    print(alloc, &report)
}

/// The text of a report of no actor, no host and this one entry.
fn text_of_entry(alloc: Global, entry: Entry) -> Result<Vec<u8>, NoMemory> {
    let mut journal = Journal::new(alloc);
    journal.push(entry)?;
    text_of(alloc, Texts::new(alloc), ItemLists::new(alloc), journal)
}

/// The parts behind a front and before an end.
fn joined(alloc: Global, front: &str, parts: &[&str], end: &str) -> Result<Vec<u8>, AllocError> {
    let mut text = Vec::from_slice(alloc, front.as_bytes())?;
    for part in parts {
        text.extend_from_slice(part.as_bytes())?;
    }
    text.extend_from_slice(end.as_bytes())?;
    Ok(text)
}

/// The text of the entry of caller 4,294,967,295 at moment 5 with this op, answered by this reply.
fn text_of_call(alloc: Global, op: Op, reply: Reply) -> Result<Vec<u8>, Fail> {
    let entry = Entry::Call {
        caller: 4_294_967_295,
        now: at(5)?,
        op,
        reply,
    };
    Ok(text_of_entry(alloc, entry)?)
}

/// Whether an op is written as these parts.
fn is_op(alloc: Global, op: Op, parts: &[&str]) -> Result<bool, Fail> {
    let text = text_of_call(alloc, op, Reply::Heard)?;
    let front = "{\"actors\":[],\"hosts\":[],\"journal\":[{\"by\":4294967295,\"now\":5,\"op\":";
    let due = joined(alloc, front, parts, ",\"reply\":\"heard\"}]}\n")?;
    Ok(text.as_slice() == due.as_slice())
}

/// Whether a reply is written as these parts.
fn is_reply(alloc: Global, reply: Reply, parts: &[&str]) -> Result<bool, Fail> {
    let text = text_of_call(alloc, Op::Post, reply)?;
    let front =
        "{\"actors\":[],\"hosts\":[],\"journal\":[{\"by\":4294967295,\"now\":5,\"op\":{\"kind\":\"post\"},\"reply\":";
    let due = joined(alloc, front, parts, "}]}\n")?;
    Ok(text.as_slice() == due.as_slice())
}
