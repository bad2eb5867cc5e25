//! What a jar is opened for, and what it comes to.

ghost use Rattle.std.specs.Prelude.{◌≡◌};

use crate::own_jar::OwnJar;
use jar_keeper::Keeper;
use jar_types::JarCore;
use std::error::Error;
use std::fmt;
use version_cells::Pass;

/// How many entries callers may have at most.
///
/// This jar's own rule: docs/DEFINITIONS.md.
pub const MOST_LIMIT: u64 = 1_152_921_504_606_846_976;

/// How many callers there may be.
///
/// This jar's own rule: docs/DEFINITIONS.md.
pub const MOST_CALLERS: u32 = 2_147_483_648;

/// From how many hosts on a keeper is refused for want of memory: each of a key's loads may make entries, which are
/// counted.
///
/// This jar's own rule: docs/DEFINITIONS.md.
pub const MOST_HOSTS: usize = 1_099_511_627_776;

/// A jar that was opened, the passes of its callers, by their numbers from 0, and those of who loads and who commits.
#[derive(Drop)]
pub struct Opened<C: JarCore + Drop, K: Keeper + Drop> {
    pub jar: OwnJar<C, K>,
    pub passes: Vec<Pass>,
    pub loader: Pass,
    pub committer: Pass,
}

/// Why a jar wasn't opened.
///
/// This jar's own rule: docs/DEFINITIONS.md.
#[derive(Clone, Copy, Debug, PartialEq, Eq)]
pub enum BeginRefusal {
    /// The keeper failed at its hosts.
    StoreFault,
    /// Memory was wanting, also where there are [`MOST_HOSTS`] hosts or more.
    NoMemory,
}

impl fmt::Display for BeginRefusal {
    fn fmt<W: fmt::Write>(&self, f: &mut fmt::Formatter<W>) -> fmt::Result {
        match self {
            BeginRefusal::StoreFault => write!(f, "the keeper failed"),
            BeginRefusal::NoMemory => write!(f, "out of memory"),
        }
    }
}

impl Error for BeginRefusal {}

/// A refusal, with the keeper.
#[derive(Drop)]
pub struct BeginFail<K: Keeper + Drop> {
    pub keeper: K,
    pub refusal: BeginRefusal,
}
