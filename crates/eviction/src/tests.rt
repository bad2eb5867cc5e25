//! Plans as tables, with ample memory. The values are worked out by hand from this jar's own rules.

ghost use Rattle.std.specs.Prelude.{◌≡◌, IfOk};
ghost use Rattle.eviction.specs.Faces.{TiesDiffer};

use crate::{Face, global_plan, key_plan};
use jar_types::{Moment, NoMemory, Priority};
use std::alloc::Global;
use std::process::Abort;

/// The moment of the sweeps, in milliseconds.
const NOW: u64 = 10_000_000_000;

/// The last access, in milliseconds, at which a face is fresh at [`NOW`].
const MONTH_AGO: u64 = 7_408_000_000;

/// Faces of which each has its number as its tie.
#[derive(Clone, Copy)]
enum Table {
    /// 20 of Low, 80 of Medium, of which every other one is Secure, and then ones of High, which
    /// are Secure from 105 on. Each is accessed at its number, but 43 at 41, and 41 was created
    /// after the others.
    Mixed,
    /// So many first ones of a priority, and then Secure ones of another, each accessed at its
    /// number.
    Halves(u64, Priority, Priority),
    /// Ones of Low that are told apart by their ties alone.
    Alike,
    /// So many that were accessed at their number, every other one Secure, and then ones that were
    /// accessed at a moment.
    Stale(u64, u64),
}

/// Places from the first number up to the second, each or every other one.
type Span = (usize, usize, bool);

/// The moment of a number of milliseconds.
fn moment(rt: &impl Abort, ms: u64) -> Moment {
    Moment::of(ms).expect(rt, "a moment")
}

/// A face of Low that is accessed at its number and isn't Secure.
fn low(rt: &impl Abort, i: u64) -> Face
    ensures { result.tie ≡ i }
{
    Face {
        access: moment(rt, i),
        creation: moment(rt, 0),
        tie: i,
        priority: Priority::Low,
        secure: false,
    }
}

/// The face of the mixed ones of this number.
fn mixed(rt: &impl Abort, i: u64) -> Face
    ensures { result.tie ≡ i }
{
    let (priority, secure) = match i {
        0..=19 => (Priority::Low, false),
        20..=99 => (Priority::Medium, i % 2 == 1),
        _ => (Priority::High, i > 104),
    };
    let access = moment(rt, if i == 43 { 41 } else { i });
    let creation = moment(rt, if i == 41 { 1 } else { 0 });
    Face {
        access,
        creation,
        tie: i,
        priority,
        secure,
    }
}

/// The face of a table of this number.
fn face(rt: &impl Abort, table: Table, i: u64) -> Face
    ensures { result.tie ≡ i }
{
    match table {
        Table::Mixed => mixed(rt, i),
        Table::Halves(first, priority, _) if i < first => Face {
            priority,
            ..low(rt, i)
        },
        Table::Halves(_, _, priority) => Face {
            priority,
            secure: true,
            ..low(rt, i)
        },
        Table::Alike => Face {
            access: moment(rt, 7),
            ..low(rt, i)
        },
        Table::Stale(stale, _) if i < stale => Face {
            secure: i % 2 == 0,
            ..low(rt, i)
        },
        Table::Stale(_, access) => Face {
            access: moment(rt, access),
            ..low(rt, i)
        },
    }
}

/// The first faces of a table.
fn faces(rt: &impl Abort, alloc: Global, table: Table, count: u64) -> Result<Vec<Face>, NoMemory>
    ensures { IfOk result (λ faces. TiesDiffer faces.items) }
{
    let mut faces = Vec::new(alloc);
    for i in 0..count {
        faces.push(face(rt, table, i))?;
    }
    Ok(faces)
}

/// The first faces of a table, where there is memory.
fn table_of(rt: &impl Abort, alloc: Global, table: Table, count: u64) -> Vec<Face>
    ensures { TiesDiffer result.items }
{
    faces(rt, alloc, table, count).expect(rt, "memory for faces")
}

/// The faces the other way round.
fn turned(mut faces: Vec<Face>) -> Vec<Face>
    requires { TiesDiffer faces.items }
    ensures { TiesDiffer result.items }
{
    faces.reverse();
    faces
}

/// The places of spans.
fn places(rt: &impl Abort, alloc: Global, spans: &[Span]) -> Vec<usize> {
    let mut places = Vec::new(alloc);
    for &(from, to, each) in spans {
        for place in from..to {
            if each || (place - from) % 2 == 0 {
                places.push(place).expect(rt, "memory for places");
            }
        }
    }
    places
}

/// From a key of the first faces of a table these go.
fn go_from_key(rt: &impl Abort, alloc: Global, table: Table, count: u64, spans: &[Span]) {
    let faces = table_of(rt, alloc, table, count);
    let plan = key_plan(alloc, &faces).expect(rt, "memory for a plan");
    drop(faces);
    assert_eq!(rt; plan, places(rt, alloc, spans), "a key of {count}");
}

/// From a jar of the first faces of a table these go.
fn go_from_jar(rt: &impl Abort, alloc: Global, table: Table, count: u64, spans: &[Span]) {
    let faces = table_of(rt, alloc, table, count);
    let plan = global_plan(alloc, &faces, moment(rt, NOW)).expect(rt, "memory for a plan");
    drop(faces);
    assert_eq!(rt; plan, places(rt, alloc, spans), "a jar of {count}");
}

#[test]
fn a_key_is_thinned_in_rounds(rt: HostRuntime) {
    let alloc = rt.alloc();
    let gone = [
        (20, 50, false),
        (100, 105, true),
        (21, 41, false),
        (43, 44, true),
    ];
    go_from_key(&rt, alloc, Table::Mixed, 181, &gone);
    go_from_key(&rt, alloc, Table::Mixed, 180, &[]);
}

#[test]
fn the_most_accessed_are_spared_up_to_the_quotas(rt: HostRuntime) {
    let alloc = rt.alloc();
    let (low, medium, high) = (Priority::Low, Priority::Medium, Priority::High);
    let rows: [(u64, Priority, Priority, usize, Span); 6] = [
        (30, low, high, 0, (30, 61, true)),
        (31, low, high, 1, (31, 61, true)),
        (50, medium, high, 0, (50, 81, true)),
        (51, medium, high, 1, (51, 81, true)),
        (70, high, medium, 0, (70, 101, true)),
        (71, high, medium, 1, (71, 101, true)),
    ];
    for (first, priority, other, front, rest) in rows {
        let table = Table::Halves(first, priority, other);
        go_from_key(&rt, alloc, table, 181, &[(0, front, true), rest]);
    }
}

#[test]
fn a_key_of_more_than_180_is_thinned_to_150(rt: HostRuntime) {
    let alloc = rt.alloc();
    for (count, gone) in [(0, 0), (180, 0), (181, 31), (182, 32), (400, 250)] {
        let table = Table::Halves(count, Priority::Low, Priority::Low);
        go_from_key(&rt, alloc, table, count, &[(0, gone, true)]);
    }
}

/// From a key of faces of one access that stand the other way round the same go, the last first.
fn go_turned(rt: &impl Abort, alloc: Global) {
    let faces = turned(table_of(rt, alloc, Table::Alike, 181));
    let plan = key_plan(alloc, &faces).expect(rt, "memory for a plan");
    drop(faces);
    let mut gone = places(rt, alloc, &[(150, 181, true)]);
    gone.reverse();
    assert_eq!(rt; plan, gone);
}

#[test]
fn the_tie_decides_and_not_the_place(rt: HostRuntime) {
    go_from_key(&rt, rt.alloc(), Table::Alike, 181, &[(0, 31, true)]);
    go_turned(&rt, rt.alloc());
}

#[test]
fn a_jar_is_swept_of_stale_ones(rt: HostRuntime) {
    let alloc = rt.alloc();
    let gone = [(1, 250, false), (0, 249, false)];
    go_from_jar(&rt, alloc, Table::Stale(250, NOW), 3301, &gone);
    go_from_jar(&rt, alloc, Table::Stale(250, NOW), 3300, &[]);
    go_from_jar(&rt, alloc, Table::Stale(0, NOW), 3301, &[]);
    go_from_jar(&rt, alloc, Table::Stale(0, MONTH_AGO), 3301, &[]);
    go_from_jar(
        &rt,
        alloc,
        Table::Stale(0, MONTH_AGO - 1),
        3301,
        &[(0, 301, true)],
    );
}

#[test]
fn a_sweep_leaves_3000(rt: HostRuntime) {
    let alloc = rt.alloc();
    let some = [(1, 400, false), (0, 399, false)];
    go_from_jar(&rt, alloc, Table::Stale(400, NOW), 3400, &some);
    let front = [(1, 402, false), (0, 397, false)];
    go_from_jar(&rt, alloc, Table::Stale(402, NOW), 3400, &front);
}
