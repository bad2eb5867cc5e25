//! What callers ask of the jar, and what it replies.

ghost use Rattle.std.specs.Prelude.{◌≡◌, IfOk};

use crate::change::Changes;
use crate::cookie::{Cookie, CookieId, Cookies};
use crate::listener::Scope;
use crate::request::Request;
use jar_values::{NoMemory, Text};
use std::alloc::Global;

/// After how many milliseconds a Get writes an access anew.
///
/// This jar's own rule: docs/DEFINITIONS.md.
pub const REFRESH_AFTER: u64 = 60_000;

/// What a caller asks.
///
/// - `Bind` binds a key to a cell.
/// - `Set` stores a cookie: `script` says whether a script does and not HTTP, `secure` whether the connection is.
/// - `Get` asks for the cookies of a request.
/// - `Delete` takes the cookie of an id away, of this key.
/// - `All` lists the cookies of the whole jar, and `Clear` takes them away.
/// - `Listen` registers a listener. `Changes` takes its changes and `Unlisten` ends it, each by its number.
/// - `Post` tells the other callers that this one came so far. `Hear` waits for the n-th Post of an actor.
///
/// This jar's own rule: docs/DEFINITIONS.md.
#[derive(Drop)]
pub enum Op {
    Bind(Text),
    Set {
        cookie: Cookie,
        script: bool,
        secure: bool,
    },
    Get(Request),
    Delete {
        key: Text,
        id: CookieId,
    },
    All,
    Clear,
    Listen(Scope),
    Changes(u64),
    Unlisten(u64),
    Post,
    Hear {
        actor: u32,
        n: u64,
    },
}

/// What the jar replies.
///
/// - `Cell` answers a Bind, by the cell of the key; none where all cells are other keys'.
/// - A Set is answered `Stored` where its id is new and `Replaced` where it was there; for a cookie that has expired
///   `Removed` where its id was there, and else `NothingThere`; and `OverwriteSecure` or `OverwriteHttpOnly` where a
///   cookie that it may not touch bars it.
/// - `Cookies` answers a Get of HTTP, and an All. `Script` answers one of a script: the text of the cookies, the version of the
///   key's cell where it is bound, and until when the text may be kept, in milliseconds since 1970.
/// - `Flag` answers a Delete and an Unlisten: whether what was named was there.
/// - `Count` answers a Clear, by how many cookies it took away that hadn't expired.
/// - `Listener` answers a Listen, by the number of the listener, `Changes` or `NoListener` a Changes.
/// - `Posted` answers a Post, by how many its caller has made, and `Heard` a Hear.
/// - `StoreFault` answers what needs stored cookies whose load was lost.
///
/// This jar's own rule: docs/DEFINITIONS.md.
#[derive(Drop)]
pub enum Reply {
    Cell(Option<u32>),
    Stored,
    Replaced,
    Removed,
    NothingThere,
    OverwriteSecure,
    OverwriteHttpOnly,
    Cookies(Cookies),
    Script {
        text: Text,
        version: Option<u64>,
        until: u64,
    },
    Flag(bool),
    Count(u64),
    Listener(u64),
    Changes(Changes),
    NoListener,
    Posted(u64),
    Heard,
    StoreFault,
}

impl Op {
    /// The same op again.
    pub fn copy(&self, alloc: Global) -> Result<Op, NoMemory>
        ensures { IfOk result (λ op. op ≡ self.now) }
    {
        match self {
            Op::Bind(key) => Ok(Op::Bind(key.copy(alloc)?)),
            Op::Set {
                cookie,
                script,
                secure,
            } => Ok(Op::Set {
                cookie: cookie.copy(alloc)?,
                script: *script,
                secure: *secure,
            }),
            Op::Get(request) => Ok(Op::Get(request.copy(alloc)?)),
            Op::Delete { key, id } => Ok(Op::Delete {
                key: key.copy(alloc)?,
                id: id.copy(alloc)?,
            }),
            Op::All => Ok(Op::All),
            Op::Clear => Ok(Op::Clear),
            Op::Listen(scope) => Ok(Op::Listen(scope.copy(alloc)?)),
            Op::Changes(number) => Ok(Op::Changes(*number)),
            Op::Unlisten(number) => Ok(Op::Unlisten(*number)),
            Op::Post => Ok(Op::Post),
            Op::Hear { actor, n } => Ok(Op::Hear {
                actor: *actor,
                n: *n,
            }),
        }
    }
}

impl Reply {
    /// The same reply again.
    pub fn copy(&self, alloc: Global) -> Result<Reply, NoMemory>
        ensures { IfOk result (λ reply. reply ≡ self.now) }
    {
        match self {
            Reply::Cell(cell) => Ok(Reply::Cell(*cell)),
            Reply::Stored => Ok(Reply::Stored),
            Reply::Replaced => Ok(Reply::Replaced),
            Reply::Removed => Ok(Reply::Removed),
            Reply::NothingThere => Ok(Reply::NothingThere),
            Reply::OverwriteSecure => Ok(Reply::OverwriteSecure),
            Reply::OverwriteHttpOnly => Ok(Reply::OverwriteHttpOnly),
            Reply::Cookies(cookies) => Ok(Reply::Cookies(cookies.copy(alloc)?)),
            Reply::Script {
                text,
                version,
                until,
            } => Ok(Reply::Script {
                text: text.copy(alloc)?,
                version: *version,
                until: *until,
            }),
            Reply::Flag(flag) => Ok(Reply::Flag(*flag)),
            Reply::Count(count) => Ok(Reply::Count(*count)),
            Reply::Listener(number) => Ok(Reply::Listener(*number)),
            Reply::Changes(changes) => Ok(Reply::Changes(changes.copy(alloc)?)),
            Reply::NoListener => Ok(Reply::NoListener),
            Reply::Posted(count) => Ok(Reply::Posted(*count)),
            Reply::Heard => Ok(Reply::Heard),
            Reply::StoreFault => Ok(Reply::StoreFault),
        }
    }
}
