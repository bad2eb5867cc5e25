//! What tests ask of a jar, row by row.

/// What a row asks: an op, a Get whose cookies are only counted, the cell of a key, what is loaded next, whether a caller
/// waits for a key or for the whole jar, or what the jar does itself.
#[derive(Clone, Copy)]
pub enum Kind {
    Bind,
    Set,
    Get,
    Count,
    Delete,
    All,
    Clear,
    ListenAll,
    ListenSeen,
    ListenNamed,
    Changes,
    Unlisten,
    Post,
    Hear,
    Cell,
    Next,
    Wanted,
    AllWanted,
    Want,
    WantAll,
    Begun,
    Loaded,
    Lost,
    Whole,
    Taken,
    Acked,
    CommitLost,
}

/// What is asked, at a moment in milliseconds. `host` is that of the cookie, the id or the request. A number other than 0
/// stands behind the name of a cookie and behind a key that is bound, and is how many cookies a load lists; else it is that
/// of the listener or of the post, or the place of a batch. `script` says whether a script asks, `secure` whether the
/// connection is, and `moved` and `rows` whether the keys that are moved or the changes of rows are told in the place of
/// the reply.
#[derive(Clone, Copy)]
pub struct Row {
    pub kind: Kind,
    pub caller: u32,
    pub actor: u32,
    pub now: u64,
    pub key: &'static str,
    pub host: &'static str,
    pub name: &'static str,
    pub number: u64,
    pub path: &'static str,
    pub expiry: Option<u64>,
    pub is_secure: bool,
    pub http_only: bool,
    pub script: bool,
    pub secure: bool,
    pub moved: bool,
    pub rows: bool,
}

/// A Set of a session cookie `a` of the host `h.test`, by HTTP over a secure connection.
pub const SET: Row = Row {
    kind: Kind::Set,
    caller: 0,
    actor: 0,
    now: 0,
    key: "h.test",
    host: "h.test",
    name: "a",
    number: 0,
    path: "/",
    expiry: None,
    is_secure: false,
    http_only: false,
    script: false,
    secure: true,
    moved: false,
    rows: false,
};

/// A Set of a cookie of this name and path at a moment.
pub fn set(name: &'static str, path: &'static str, now: u64) -> Row {
    Row {
        name,
        path,
        now,
        ..SET
    }
}

/// One that expires at a moment.
pub fn until(name: &'static str, now: u64, expiry: u64) -> Row {
    Row {
        expiry: Some(expiry),
        ..set(name, "/", now)
    }
}

/// A Get of `/docs/web` at a moment.
pub fn get(now: u64) -> Row {
    Row {
        kind: Kind::Get,
        path: "/docs/web",
        now,
        ..SET
    }
}

/// One that a script makes.
pub fn ask(now: u64) -> Row {
    Row {
        script: true,
        ..get(now)
    }
}

/// A Delete of a cookie of this name at a moment.
pub fn delete(name: &'static str, now: u64) -> Row {
    Row {
        kind: Kind::Delete,
        ..set(name, "/", now)
    }
}

/// That a jar becomes whole, at a moment.
pub fn whole(now: u64) -> Row {
    Row {
        kind: Kind::Whole,
        now,
        ..SET
    }
}

/// A row of another kind, for a key, at moment 0.
pub fn about(kind: Kind, key: &'static str) -> Row {
    Row { kind, key, ..SET }
}

/// A row of another kind, with a number, at moment 0.
pub fn numbered(kind: Kind, number: u64) -> Row {
    Row {
        kind,
        number,
        path: "/docs/web",
        ..SET
    }
}

/// The row, of another caller.
pub fn by(caller: u32, row: Row) -> Row {
    Row { caller, ..row }
}

/// The row, of which the keys that it moves are told.
pub fn moving(row: Row) -> Row {
    Row { moved: true, ..row }
}

/// The row, of which the changes of stored rows are told.
pub fn storing(row: Row) -> Row {
    Row { rows: true, ..row }
}

/// The row, of the key and host `i.test`.
pub fn elsewhere(row: Row) -> Row {
    Row {
        key: "i.test",
        host: "i.test",
        ..row
    }
}

/// That a load of `h.test` lists some cookies `a1`, `a2` and so on, at a moment, each with an expiry.
pub fn loaded(number: u64, now: u64) -> Row {
    Row {
        kind: Kind::Loaded,
        number,
        ..until("a", now, 90_000)
    }
}
