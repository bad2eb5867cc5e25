//! The op of a row, and what the jar does itself by it.

use super::rows::{Kind, Row};
use jar_types::{
    Context, Cookie, CookieId, Cookies, Moment, NoMemory, Op, Own, Priority, Request, SameSite,
    Scope, Text,
};
use std::alloc::Global;

/// A moment.
pub fn moment(ms: u64) -> Result<Moment, NoMemory> {
    Moment::of(ms).ok_or(NoMemory)
}

/// The expiry of a row's cookie.
fn expiry_of(row: &Row) -> Option<Moment> {
    match row.expiry {
        None => None,
        Some(ms) => Moment::of(ms),
    }
}

/// A text with a number other than 0 behind it.
fn numbered(alloc: Global, text: &'static str, number: u64) -> Result<Text, NoMemory> {
    if number == 0 {
        return Text::of(alloc, text);
    }
    Text::from_string(format!(in alloc; "{text}{number}")?)
}

/// The cookie of a row.
fn cookie(alloc: Global, row: &Row, now: Moment) -> Result<Cookie, NoMemory> {
    Ok(Cookie {
        key: Text::of(alloc, row.key)?,
        host: Text::of(alloc, row.host)?,
        name: numbered(alloc, row.name, row.number)?,
        path: Text::of(alloc, row.path)?,
        value: Text::of(alloc, "1")?,
        creation: now,
        access: now,
        expiry: expiry_of(row),
        secure: row.is_secure,
        http_only: row.http_only,
        same_site: SameSite::Unspecified,
        priority: Priority::Medium,
    })
}

/// The request of a row.
fn request(alloc: Global, row: &Row) -> Result<Request, NoMemory> {
    Ok(Request {
        key: Text::of(alloc, row.key)?,
        host: Text::of(alloc, row.host)?,
        path: Text::of(alloc, row.path)?,
        secure: row.secure,
        script: row.script,
        context: Context::Strict,
    })
}

/// The id of a row.
fn id(alloc: Global, row: &Row) -> Result<CookieId, NoMemory> {
    Ok(CookieId {
        host: Text::of(alloc, row.host)?,
        name: Text::of(alloc, row.name)?,
        path: Text::of(alloc, row.path)?,
    })
}

/// The scope of a row.
fn scope(alloc: Global, row: &Row) -> Result<Scope, NoMemory> {
    match row.kind {
        Kind::ListenSeen => Ok(Scope::Seen(request(alloc, row)?)),
        Kind::ListenNamed => Ok(Scope::Named(request(alloc, row)?, Text::of(alloc, row.name)?)),
        _ => Ok(Scope::All),
    }
}

/// The Set of a row.
fn set(alloc: Global, row: &Row, now: Moment) -> Result<Op, NoMemory> {
    Ok(Op::Set {
        cookie: cookie(alloc, row, now)?,
        script: row.script,
        secure: row.secure,
    })
}

/// The Delete of a row.
fn delete(alloc: Global, row: &Row) -> Result<Op, NoMemory> {
    Ok(Op::Delete {
        key: Text::of(alloc, row.key)?,
        id: id(alloc, row)?,
    })
}

/// The op of a row.
pub fn op(alloc: Global, row: &Row, now: Moment) -> Result<Op, NoMemory> {
    match row.kind {
        Kind::Bind => Ok(Op::Bind(numbered(alloc, row.key, row.number)?)),
        Kind::Set => set(alloc, row, now),
        Kind::Delete => delete(alloc, row),
        Kind::ListenAll | Kind::ListenSeen | Kind::ListenNamed => {
            Ok(Op::Listen(scope(alloc, row)?))
        }
        Kind::Changes => Ok(Op::Changes(row.number)),
        Kind::Unlisten => Ok(Op::Unlisten(row.number)),
        Kind::Post => Ok(Op::Post),
        Kind::Hear => Ok(Op::Hear {
            actor: row.actor,
            n: row.number,
        }),
        Kind::All => Ok(Op::All),
        Kind::Clear => Ok(Op::Clear),
        _ => Ok(Op::Get(request(alloc, row)?)),
    }
}

/// The cookies that the load of a row lists.
fn loaded(alloc: Global, row: &Row, now: Moment) -> Result<Cookies, NoMemory> {
    let mut all = Cookies::new(alloc);
    for number in 0..row.number {
        let one = Row {
            number: number + 1,
            ..*row
        };
        all.push(cookie(alloc, &one, now)?)?;
    }
    Ok(all)
}

/// What the jar does itself by a row; none where a caller asks.
pub fn own(alloc: Global, row: &Row, now: Moment) -> Result<Option<Own>, NoMemory> {
    let own = match row.kind {
        Kind::Want => Own::Want(Text::of(alloc, row.key)?),
        Kind::WantAll => Own::WantAll,
        Kind::Begun => Own::Begun(Text::of(alloc, row.key)?),
        Kind::Loaded => Own::Loaded {
            key: Text::of(alloc, row.key)?,
            cookies: loaded(alloc, row, now)?,
        },
        Kind::Lost => Own::Lost(Text::of(alloc, row.key)?),
        Kind::Whole => Own::Whole(now),
        Kind::Taken => Own::Taken,
        Kind::Acked => Own::Acked(row.number),
        Kind::CommitLost => Own::CommitLost(row.number),
        _ => return Ok(None),
    };
    Ok(Some(own))
}
