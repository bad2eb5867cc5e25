//! The moments of a script.

ghost use Rattle.script_run.specs.StoredRuns.{AreTimed, IsTimed};

use script_text::{Script, Step};

/// Reads each moment of a script, and so tells its caller that they are moments.
pub fn see_moments(script: &Script)
    ensures { IsTimed script.now }
{
    let _start = script.start.ms();
    for actor in script.actors.as_slice() {
        see_steps(actor.steps.as_slice());
    }
}

/// Reads the moment of each step.
fn see_steps(steps: &[Step])
    ensures { AreTimed steps.now }
{
    for step in steps {
        let _now = step.now.ms();
    }
}
