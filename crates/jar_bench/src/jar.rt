//! The jar that is opened, the document, and the cookie that is set.

ghost use Rattle.std.specs.Prelude.{◌≡◌, ◌≤◌, IfOk, true};
ghost use Rattle.jar_bench.specs.declared.words.TheConstants.{MOST_THREADS};
ghost use Rattle.jar_types.specs.Journals.{is_well_keyed};
ghost use Rattle.jar_values.specs.Hosts.{undotted};
ghost use Rattle.public_suffix.specs.Suffix.{key_of};
ghost use Rattle.shared_jar.specs.Opening.{HasPasses};

use jar_keeper::MemKeeper;
use jar_types::{Cookie, Moment, NoMemory, Op, Priority, Rows, SameSite, Text};
use plain_jar::PlainJar;
use public_suffix::Suffixes;
use shared_jar::{JarName, Opened, OwnJar};
use site_match::Place;
use std::alloc::Global;

/// The document.
const DOCUMENT: &str = "https://h.test/";

/// The value of the cookie `SID`: with the name and `=`, 44 bytes.
const VALUE: &str = "31d4d96e407aad4231d4d96e407aad4231d4d96e";

/// The document's cookies as a script reads them.
pub const ANSWER: &str = "SID=31d4d96e407aad4231d4d96e407aad4231d4d96e";

/// How many entries the callers may have: more than they make.
const LIMIT: u64 = 1_000;

/// A suffix list without a rule.
pub fn no_suffixes(alloc: Global) -> Result<Suffixes, NoMemory> {
    match Suffixes::read(alloc, "") {
        Ok(suffixes) => Ok(suffixes),
        Err(_) => Err(NoMemory),
    }
}

/// A keeper without rows.
#[tactic(auto, using(jar_keeper::proofs::RowLemmas::none_rise))]
fn no_rows(alloc: Global) -> MemKeeper {
    MemKeeper::of(alloc, Rows::new(alloc), Vec::new(alloc))
}

/// A jar over a keeper without rows, by no suffix rule, for so many callers.
pub fn opened(alloc: Global, callers: u32) -> Result<Opened<PlainJar, MemKeeper>, NoMemory>
    requires few { callers ≤ MOST_THREADS }
    ensures passes { IfOk result (λ o. HasPasses o.jar.cells o.jar.callers o.passes.items
        o.loader o.committer) }
{
    let Some(start) = Moment::of(0) else {
        return Err(NoMemory);
    };
    let suffixes = no_suffixes(alloc)?;
    match OwnJar::<PlainJar, MemKeeper>::begin(
        alloc,
        no_rows(alloc),
        suffixes,
        callers,
        LIMIT,
        start,
    ) {
        Ok(opened) => Ok(opened),
        Err(_) => Err(NoMemory),
    }
}

/// The place of the document.
pub fn document(alloc: Global, suffixes: &Suffixes) -> Result<Place, NoMemory> {
    match Place::read(alloc, suffixes, DOCUMENT) {
        Ok(place) => Ok(place),
        Err(_) => Err(NoMemory),
    }
}

/// The Set of the document's cookie at a host and a moment.
pub fn set_op<N: JarName>(
    alloc: Global,
    suffixes: &Suffixes,
    host: &str,
    now: Moment,
) -> Result<Op, NoMemory>
    requires keys { N.rules.key_of ≡ key_of suffixes.now }
    requires plain { undotted host.now ≡ host.now }
    ensures keyed { IfOk result (λ op. is_well_keyed N.rules op ≡ true) }
{
    let cookie = cookie(alloc, suffixes, host, now)?;
    Ok(Op::Set {
        cookie,
        script: true,
        secure: true,
    })
}

/// The document's cookie at a host and a moment.
fn cookie(alloc: Global, suffixes: &Suffixes, host: &str, now: Moment) -> Result<Cookie, NoMemory>
    ensures host { IfOk result (λ c. c.host ≡ host.now) }
    ensures key { IfOk result (λ c. c.key ≡ key_of suffixes.now host.now) }
{
    Ok(Cookie {
        key: Text::of(alloc, suffixes.key(host))?,
        host: Text::of(alloc, host)?,
        name: Text::of(alloc, "SID")?,
        path: Text::of(alloc, "/")?,
        value: Text::of(alloc, VALUE)?,
        creation: now,
        access: now,
        expiry: None,
        secure: true,
        http_only: false,
        same_site: SameSite::Unspecified,
        priority: Priority::Medium,
    })
}
