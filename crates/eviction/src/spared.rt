//! Who is spared: of each priority the most accessed ones, up to its quota.

ghost use Rattle.std.specs.Prelude.{◌≡◌, ◌-◌, IfOk, filter, if◌then◌else◌, nat_lt, not};
ghost use Rattle.eviction.specs.Candidates.{candidate_looks};
ghost use Rattle.eviction.specs.Spared.{left_of, Descends};
ghost use Rattle.jar_types.specs.Plans.{is_spared, same_priority};
ghost use Rattle.jar_values.specs.declared.attributes.Priority.{Priority};

use crate::candidate::Candidate;
use jar_types::{HIGH_QUOTA, LOW_QUOTA, MEDIUM_QUOTA, NoMemory, Priority};
use std::alloc::Global;

/// How many of each priority may still be spared.
///
/// This jar's own rule: docs/DEFINITIONS.md.
#[derive(Clone, Copy)]
pub struct Quotas {
    pub low: usize,
    pub medium: usize,
    pub high: usize,
}

/// The candidates that aren't spared, where the most accessed stand first.
///
/// This jar's own rule: docs/DEFINITIONS.md.
pub fn unspared(alloc: Global, all: &[Candidate]) -> Result<Vec<Candidate>, NoMemory>
    requires { Descends all.now }
    ensures { IfOk result (λ left. left.items
        ≡ filter (λ c. not (is_spared candidate_looks all.now c)) all.now) }
{
    let mut left = Vec::new(alloc);
    let mut quotas = Quotas {
        low: LOW_QUOTA,
        medium: MEDIUM_QUOTA,
        high: HIGH_QUOTA,
    };
    for candidate in all {
        if !spares(&mut quotas, candidate.face.priority) {
            left.push(*candidate)?;
        }
    }
    Ok(left)
}

/// Whether one more of a priority is spared, which then counts.
fn spares(quotas: &mut Quotas, priority: Priority) -> bool
    ensures value { result ≡ nat_lt 0 (left_of quotas.old priority) }
    ensures counted { (p : Priority) → left_of quotas.new p
        ≡ left_of quotas.old p - (if same_priority p priority then 1 else 0) }
{
    match priority {
        Priority::Low => takes(&mut quotas.low),
        Priority::Medium => takes(&mut quotas.medium),
        Priority::High => takes(&mut quotas.high),
    }
}

/// Whether a number isn't 0, which is then one less.
fn takes(left: &mut usize) -> bool
    ensures value { result ≡ nat_lt 0 left.old }
    ensures counted { left.new ≡ left.old - 1 }
{
    let some = *left > 0;
    if some {
        *left -= 1;
    }
    some
}
