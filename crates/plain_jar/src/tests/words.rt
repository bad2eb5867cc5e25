//! The replies of a jar in words.

use super::rows::Kind;
use jar_types::{
    Cause, Change, Changes, Cookies, Entry, LoadWish, NoMemory, Reply, Row, RowChange, RowChanges,
    Text, Texts,
};
use std::alloc::Global;

/// A word.
pub fn word(alloc: Global, word: &'static str) -> Result<String, NoMemory> {
    Ok(String::from_str(alloc, word)?)
}

/// A word and a number.
pub fn counted(alloc: Global, word: &'static str, number: u64) -> Result<String, NoMemory> {
    Ok(format!(in alloc; "{word} {number};")?)
}

/// The names, creations and accesses of cookies.
fn listed(alloc: Global, cookies: &Cookies) -> Result<String, NoMemory> {
    let mut text = String::new(alloc);
    for cookie in cookies.as_slice() {
        let name = cookie.name.as_str();
        let creation = cookie.creation.ms();
        let access = cookie.access.ms();
        let part = format!(in alloc; "{name} {creation} {access};")?;
        text.push_str(part.as_str())?;
    }
    Ok(text)
}

/// Cookies listed or counted.
fn cookies_text(alloc: Global, kind: Kind, cookies: &Cookies) -> Result<String, NoMemory> {
    if let Kind::Count = kind {
        let count = cookies.len();
        return Ok(format!(in alloc; "{count};")?);
    }
    listed(alloc, cookies)
}

/// The word of a cause.
fn cause_word(cause: Cause) -> &'static str {
    match cause {
        Cause::Inserted => "inserted",
        Cause::Explicit => "explicit",
        Cause::Overwrite => "overwrite",
        Cause::Expired => "expired",
        Cause::Evicted => "evicted",
        Cause::ExpiredOverwrite => "expired overwrite",
    }
}

/// The cause of a change, and the name, creation and access of its cookie.
fn change_text(alloc: Global, change: &Change) -> Result<String, NoMemory> {
    let cause = cause_word(change.cause);
    let name = change.cookie.name.as_str();
    let creation = change.cookie.creation.ms();
    let access = change.cookie.access.ms();
    Ok(format!(in alloc; "[{cause} {name} {creation} {access}]")?)
}

/// Changes that were taken.
fn changes_text(alloc: Global, changes: &Changes) -> Result<String, NoMemory> {
    let mut text = String::from_str(alloc, "took")?;
    for change in changes.as_slice() {
        let part = change_text(alloc, change)?;
        text.push_str(part.as_str())?;
    }
    text.push_str(";")?;
    Ok(text)
}

/// What a script was answered: the text, the version or `-`, and until when it may be kept.
fn script_text(
    alloc: Global,
    text: &Text,
    version: Option<u64>,
    until: u64,
) -> Result<String, NoMemory> {
    let text = text.as_str();
    match version {
        Some(version) => Ok(format!(in alloc; "{text}|{version}|{until};")?),
        None => Ok(format!(in alloc; "{text}|-|{until};")?),
    }
}

/// The word of a reply that is one.
fn reply_word(reply: &Reply) -> &'static str {
    match reply {
        Reply::Stored => "stored;",
        Reply::Replaced => "replaced;",
        Reply::Removed => "removed;",
        Reply::NothingThere => "nothing there;",
        Reply::OverwriteSecure => "secure;",
        Reply::OverwriteHttpOnly => "http only;",
        Reply::Flag(true) => "there;",
        Reply::Flag(false) => "not there;",
        Reply::NoListener => "no listener;",
        Reply::Heard => "heard;",
        Reply::StoreFault => "store fault;",
        _ => "no cell;",
    }
}

/// The words of a reply.
fn reply_text(alloc: Global, kind: Kind, reply: &Reply) -> Result<String, NoMemory> {
    match reply {
        Reply::Cookies(cookies) => cookies_text(alloc, kind, cookies),
        Reply::Changes(changes) => changes_text(alloc, changes),
        Reply::Script {
            text,
            version,
            until,
        } => script_text(alloc, text, *version, *until),
        Reply::Cell(Some(cell)) => counted(alloc, "cell", u64::from(*cell)),
        Reply::Listener(number) => counted(alloc, "listener", *number),
        Reply::Posted(count) => counted(alloc, "posted", *count),
        Reply::Count(count) => counted(alloc, "cleared", *count),
        _ => word(alloc, reply_word(reply)),
    }
}

/// The words of an entry.
pub fn entry_text(alloc: Global, kind: Kind, entry: &Entry) -> Result<String, NoMemory> {
    match entry {
        Entry::Call { reply, .. } => reply_text(alloc, kind, reply),
        Entry::Jar(_) => word(alloc, "jar;"),
    }
}

/// The keys that were moved.
pub fn moved_text(alloc: Global, keys: &Texts) -> Result<String, NoMemory> {
    let mut text = String::from_str(alloc, "moved")?;
    for key in keys.as_slice() {
        text.push_str(" ")?;
        text.push_str(key.as_str())?;
    }
    text.push_str(";")?;
    Ok(text)
}

/// The name, creation, expiry and access of a row.
fn row_text(alloc: Global, row: &Row) -> Result<String, NoMemory> {
    let name = row.name.as_str();
    let creation = row.creation;
    let expiry = row.expiry;
    let access = row.access;
    Ok(format!(in alloc; " [put {name} {creation} {expiry} {access}]")?)
}

/// A row that came, or the name in the id of one that went.
fn row_change_text(alloc: Global, change: &RowChange) -> Result<String, NoMemory> {
    match change {
        RowChange::Put(row) => row_text(alloc, row),
        RowChange::Drop(id) => {
            let name = id.name.as_str();
            Ok(format!(in alloc; " [drop {name}]")?)
        }
    }
}

/// The rows that changed.
pub fn rows_text(alloc: Global, changes: &RowChanges) -> Result<String, NoMemory> {
    let mut text = String::from_str(alloc, "rows")?;
    for change in changes.as_slice() {
        let part = row_change_text(alloc, change)?;
        text.push_str(part.as_str())?;
    }
    text.push_str(";")?;
    Ok(text)
}

/// What would be loaded next.
pub fn wish_text(alloc: Global, wish: LoadWish) -> Result<String, NoMemory> {
    match wish {
        LoadWish::Key(key) => named(alloc, "next", key),
        LoadWish::Whole => word(alloc, "next all;"),
        LoadWish::Idle => word(alloc, "idle;"),
    }
}

/// A word and a text.
pub fn named(alloc: Global, word: &'static str, text: &Text) -> Result<String, NoMemory> {
    let text = text.as_str();
    Ok(format!(in alloc; "{word} {text};")?)
}
