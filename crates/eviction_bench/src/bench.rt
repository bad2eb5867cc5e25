//! The faces that the plans are made of.

ghost use Rattle.std.specs.Prelude.{◌≡◌, ◌<◌, map, nat_eq, length, IfOk};
ghost use Rattle.std.specs.List.{range_with_len, IsDistinct-prop};
ghost use Rattle.eviction.specs.Faces.{TiesDiffer};
ghost use Rattle.eviction_bench.specs.Planned.{plan_of};

use crate::task::Task;
use eviction::{Face, global_plan, key_plan};
use jar_types::{Moment, NoMemory, Priority};
use std::alloc::Global;

/// After how many faces their accesses come round again.
const SPREAD: u64 = 9_973;

/// Faces whose accesses stand in no order.
#[derive(Drop)]
pub struct Bench {
    faces: Vec<Face>,
    ghost differ: { TiesDiffer faces.items } by { IsDistinct-prop nat_eq (map (λ f. f.tie) faces.items) },
}

impl Bench {
    /// So many faces, of each priority and both secure and not.
    pub fn make(alloc: Global, count: u64) -> Result<Bench, NoMemory> {
        Ok(Bench {
            faces: faces_of(alloc, count)?,
        })
    }

    /// How many go by a plan at a moment, which is made so many times; none where it is never made.
    pub fn plan(
        &self,
        alloc: Global,
        task: Task,
        now: Moment,
        rounds: u64,
    ) -> Result<usize, NoMemory>
        ensures { IfOk result (λ going. 0 < rounds
            → going ≡ length (plan_of task now self.now.faces.items)) }
    {
        let mut going = 0;
        for _ in 0..rounds {
            going = self.plan_once(alloc, task, now)?;
        }
        Ok(going)
    }

    /// How many go by a plan at a moment.
    fn plan_once(&self, alloc: Global, task: Task, now: Moment) -> Result<usize, NoMemory>
        ensures { IfOk result (λ going. going ≡ length (plan_of task now self.now.faces.items)) }
    {
        let faces = self.faces.as_slice();
        let places = match task {
            Task::Key => key_plan(alloc, faces)?,
            Task::Jar => global_plan(alloc, faces, now)?,
        };
        Ok(places.len())
    }
}

/// So many faces, whose ties count from 0.
fn faces_of(alloc: Global, count: u64) -> Result<Vec<Face>, NoMemory>
    ensures { IfOk result (λ faces. map (λ f. f.tie) faces.items ≡ range_with_len 0 count) }
{
    let mut faces = Vec::new(alloc);
    for tie in 0..count {
        faces.push(face_of(tie)?)?;
    }
    Ok(faces)
}

/// The face of a tie.
fn face_of(tie: u64) -> Result<Face, NoMemory>
    ensures { IfOk result (λ face. face.tie ≡ tie) }
{
    let access = Moment::of((tie % SPREAD) * 7 % SPREAD).ok_or(NoMemory)?;
    Ok(Face {
        access,
        creation: access,
        tie,
        priority: match tie % 3 {
            0 => Priority::Low,
            1 => Priority::Medium,
            _ => Priority::High,
        },
        secure: tie % 2 == 0,
    })
}
