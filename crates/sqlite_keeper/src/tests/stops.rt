//! A disk that stops at some call of two commits, and is opened again.

ghost use Rattle.std.specs.Prelude.{◌≡◌, IsTrue, IfOk};
ghost use Rattle.sqlite.specs.Held.{IsNew};

use super::{changes, over, text_of};
use crate::SqliteKeeper;
use jar_keeper::Keeper;
use jar_types::NoMemory;
use sqlite::{Connection, FileStore, Files, Options};
use sqlite_disk::{Crash, Disk, Fuse, Memory};
use std::alloc::Global;
use std::io;
use std::test::Fail;

/// A disk in memory that stops after some calls.
type Stopping = Fuse<Memory>;

/// What stands after the first commit, and after both.
const FIRST: &str = "a.test x=1;b.test y=2;";

const BOTH: &str = "a.test x=3;c.test z=4;";

/// An empty database whose log and file stop after so many calls.
fn files(alloc: Global, log: u64, db: u64) -> Files<Stopping> {
    Files {
        log: Fuse::new(Memory::new(alloc), log),
        db: Fuse::new(Memory::new(alloc), db),
    }
}

/// A connection to the database of these files; else what is left of them.
fn opened(
    alloc: Global,
    files: Files<Stopping>,
) -> Result<Connection<FileStore<Stopping>>, Files<Stopping>>
    ensures { IfOk result IsNew }
{
    if !files.may_be_used() {
        return Err(files);
    }
    match Connection::open_files(alloc, files, Options::new(7)) {
        Ok(conn) => Ok(conn),
        Err((_, left)) => Err(left.into_files()),
    }
}

/// The files after a run that may have stopped, and how many of its commits were Ok.
#[derive(Drop)]
struct Stopped {
    commits: usize,
    files: Files<Stopping>,
}

/// How many of the two commits are Ok, up to the first that isn't.
fn commits<K: Keeper>(alloc: Global, keeper: &mut K) -> Result<usize, NoMemory> {
    let first = changes(alloc, &[["a.test", "x", "1"], ["b.test", "y", "2"]])?;
    if keeper.commit(alloc, &first).is_err() {
        return Ok(0);
    }
    let second = changes(
        alloc,
        &[
            ["a.test", "x", "3"],
            ["b.test", "y", ""],
            ["c.test", "z", "4"],
        ],
    )?;
    if keeper.commit(alloc, &second).is_err() {
        return Ok(1);
    }
    Ok(2)
}

/// Commits twice over these files.
fn run(alloc: Global, files: Files<Stopping>) -> Result<Stopped, NoMemory> {
    let conn = match opened(alloc, files) {
        Ok(conn) => conn,
        Err(files) => return Ok(Stopped { commits: 0, files }),
    };
    let mut keeper = match SqliteKeeper::over(conn) {
        Ok(keeper) => keeper,
        Err(fail) => return Ok(Stopped {
            commits: 0,
            files: fail.conn.into_store().close(),
        }),
    };
    let commits = commits(alloc, &mut keeper)?;
    Ok(Stopped {
        commits,
        files: keeper.into_connection().into_store().close(),
    })
}

/// The rows that these files have, once they are opened again.
fn rows_in(alloc: Global, files: Files<Stopping>) -> Result<String, Fail> {
    match opened(alloc, files) {
        Ok(conn) => text_of(alloc, &mut over(conn)?),
        Err(_) => Ok(String::from_str(alloc, "refused")?),
    }
}

/// Whether rows are those before or after the commit in which a run stopped.
fn may_stand(commits: usize, rows: &str) -> bool {
    match commits {
        0 => rows.is_empty() || rows == FIRST,
        1 => rows == FIRST || rows == BOTH,
        _ => rows == BOTH,
    }
}

/// The files after a crash: what wasn't synced is lost.
fn crashed(mut files: Files<Stopping>) -> Files<Stopping> {
    files.log.crash();
    files.db.crash();
    files
}

/// A disk that has what another holds, and doesn't stop.
fn copy(alloc: Global, disk: &Stopping) -> io::Result<Stopping> {
    let mut memory = Memory::new(alloc);
    memory.write_at(0, disk.inner().bytes())?;
    memory.sync()?;
    Ok(Fuse::new(memory, u64::MAX))
}

/// The files after the end of a process: what was written stays.
fn ended(alloc: Global, files: &Files<Stopping>) -> io::Result<Files<Stopping>> {
    Ok(Files {
        log: copy(alloc, &files.log)?,
        db: copy(alloc, &files.db)?,
    })
}

/// How many commits were Ok before disks stopped after so many calls, where the rows that stand
/// then are those before or after the commit at which they did.
fn commits_kept(alloc: Global, log: u64, db: u64) -> Result<Option<usize>, Fail> {
    let stopped = run(alloc, files(alloc, log, db))?;
    let stays = rows_in(alloc, ended(alloc, &stopped.files)?)?;
    let left = rows_in(alloc, crashed(stopped.files))?;
    if may_stand(stopped.commits, stays.as_str()) && may_stand(stopped.commits, left.as_str()) {
        Ok(Some(stopped.commits))
    } else {
        Ok(None)
    }
}

/// The first call of the log, and of the file, at which a stop may meet the first of the commits, and
/// a number of calls with which both are made.
const LOG_CALLS: [u64; 2] = [24, 37];

const FILE_CALLS: [u64; 2] = [9, 15];

#[test]
fn a_log_that_stops_leaves_the_rows_before_or_after_a_commit(rt: HostRuntime) -> Result<(), Fail> {
    let alloc = rt.alloc();
    for calls in LOG_CALLS[0]..LOG_CALLS[1] {
        assert!(rt;
            commits_kept(alloc, calls, u64::MAX)?.is_some(),
            "at {calls}"
        );
    }
    assert_eq!(rt; commits_kept(alloc, LOG_CALLS[0], u64::MAX)?, Some(0));
    assert_eq!(rt; commits_kept(alloc, LOG_CALLS[1], u64::MAX)?, Some(2));
    Ok(())
}

#[test]
fn a_file_that_stops_leaves_the_rows_before_or_after_a_commit(rt: HostRuntime) -> Result<(), Fail> {
    let alloc = rt.alloc();
    for calls in FILE_CALLS[0]..FILE_CALLS[1] {
        assert!(rt;
            commits_kept(alloc, u64::MAX, calls)?.is_some(),
            "at {calls}"
        );
    }
    assert_eq!(rt; commits_kept(alloc, u64::MAX, FILE_CALLS[0])?, Some(0));
    assert_eq!(rt; commits_kept(alloc, u64::MAX, FILE_CALLS[1])?, Some(2));
    Ok(())
}
