//! What is asked of the jar.

ghost use Rattle.std.specs.Prelude.{◌≡◌, true, IfOk};
ghost use Rattle.jar_types.specs.Journals.{is_well_keyed};
ghost use Rattle.jar_values.specs.Hosts.{undotted};
ghost use Rattle.public_suffix.specs.Suffix.{key_of};

use crate::JarName;
use jar_types::{Context, Cookie, Moment, NoMemory, Op, Priority, Request, SameSite, Text};
use public_suffix::Suffixes;
use std::alloc::Global;
use std::marker::PhantomData;

/// How many each caller asks: a Set of each key, and a Get of each.
pub const ASKS: usize = 4;

/// What is asked at a moment.
#[derive(Drop)]
pub struct Asked<N: JarName> {
    pub op: Op,
    pub now: Moment,
    of: PhantomData<N>,
    pub ghost keyed: { is_well_keyed N.rules op ≡ true },
}

/// A cookie of a host, a day long.
pub fn cookie_of(
    alloc: Global,
    suffixes: &Suffixes,
    host: &str,
    name: &str,
    now: Moment,
) -> Result<Cookie, NoMemory>
    ensures host { IfOk result (λ c. c.host ≡ host.now) }
    ensures key { IfOk result (λ c. c.key ≡ key_of suffixes.now host.now) }
{
    Ok(Cookie {
        key: Text::of(alloc, suffixes.key(host))?,
        host: Text::of(alloc, host)?,
        name: Text::of(alloc, name)?,
        path: Text::of(alloc, "/")?,
        value: Text::of(alloc, "1")?,
        creation: now,
        access: now,
        expiry: Moment::of(86_400_000),
        secure: false,
        http_only: false,
        same_site: SameSite::Unspecified,
        priority: Priority::Medium,
    })
}

/// A script's request to a host.
fn request_of(alloc: Global, suffixes: &Suffixes, host: &str) -> Result<Request, NoMemory> {
    Ok(Request {
        key: Text::of(alloc, suffixes.key(host))?,
        host: Text::of(alloc, host)?,
        path: Text::of(alloc, "/")?,
        secure: false,
        script: true,
        context: Context::Strict,
    })
}

/// A Set at a host.
fn set<N: JarName>(
    alloc: Global,
    suffixes: &Suffixes,
    host: &str,
    now: Moment,
) -> Result<Asked<N>, NoMemory>
    requires keys { N.rules.key_of ≡ key_of suffixes.now }
    requires plain { undotted host.now ≡ host.now }
{
    let cookie = cookie_of(alloc, suffixes, host, "a", now)?;
    Ok(Asked {
        op: Op::Set {
            cookie,
            script: false,
            secure: false,
        },
        now,
        of: PhantomData,
    })
}

/// A Get at a host.
fn get<N: JarName>(
    alloc: Global,
    suffixes: &Suffixes,
    host: &str,
    now: Moment,
) -> Result<Asked<N>, NoMemory> {
    Ok(Asked {
        op: Op::Get(request_of(alloc, suffixes, host)?),
        now,
        of: PhantomData,
    })
}

/// What each asks, in this order.
pub fn asks<N: JarName>(alloc: Global, suffixes: &Suffixes) -> Result<Vec<Asked<N>>, NoMemory>
    requires keys { N.rules.key_of ≡ key_of suffixes.now }
{
    let Some(now) = Moment::of(5) else {
        return Err(NoMemory);
    };
    let mut all = Vec::with_capacity(alloc, ASKS)?;
    all.push(set(alloc, suffixes, "a.test", now)?)?;
    all.push(get(alloc, suffixes, "a.test", now)?)?;
    all.push(set(alloc, suffixes, "b.test", now)?)?;
    all.push(get(alloc, suffixes, "b.test", now)?)?;
    Ok(all)
}
