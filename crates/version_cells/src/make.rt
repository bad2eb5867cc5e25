//! Making the words, the baton and the passes.

ghost use Rattle.std.specs.Prelude.{◌≡◌, ◌+◌, IfOk};
ghost use Rattle.version_cells.specs.Moves.{after_new_pass};
ghost use Rattle.version_cells.specs.Standing.{baton_with_view, new_baton, new_pass_standing, new_passes};

use crate::baton::Baton;
use crate::cells::{Cells, WORDS};
use crate::pass::Pass;
use crate::view::View;
use atomic_table::{Split, Table};
use jar_types::NoMemory;
use std::alloc::{AllocError, Global};

/// What `Cells::make` makes.
#[derive(Drop)]
pub struct Made {
    /// The words.
    pub cells: Cells,
    /// The baton, which has committed nothing.
    pub baton: Baton,
    /// The pass of the cutter, who loads and commits, with the last number.
    pub cutter: Pass,
    /// The passes of the callers, by their numbers from 0.
    pub passes: Vec<Pass>,
}

impl Cells {
    /// Makes the words, all 0, the baton, a pass for each caller and the cutter's pass.
    ///
    /// `NoMemory` leaves nothing behind. This jar's own rule: docs/DEFINITIONS.md.
    pub fn make(alloc: Global, callers: u32) -> Result<Made, NoMemory>
        ensures baton { IfOk result (λ m. m.baton ≡ new_baton m.cells (callers + 1)) }
        ensures cutter { IfOk result (λ m. m.cutter ≡ new_pass_standing m.cells callers) }
        ensures passes { IfOk result (λ m. m.passes.items ≡ new_passes m.cells callers) }
    {
        let (cells, mut baton) = open(alloc)?;
        let passes = cells.add_passes(alloc, &mut baton, callers)?;
        let cutter = cells.add_pass(&mut baton, callers);
        Ok(Made {
            cells,
            baton,
            cutter,
            passes,
        })
    }

    /// The passes of the callers, numbered in order.
    fn add_passes(
        &self,
        alloc: Global,
        baton: &mut Baton,
        callers: u32,
    ) -> Result<Vec<Pass>, AllocError>
        requires { baton.old ≡ new_baton self.now 0 }
        ensures passes { IfOk result (λ v. v.items ≡ new_passes self.now callers) }
        ensures baton { IfOk result (λ _. baton.new ≡ new_baton self.now callers) }
    {
        let mut passes = Vec::with_capacity(alloc, callers as usize)?;
        for number in 0..callers {
            let pass = self.add_pass(baton, number);
            passes.push(pass)?;
        }
        Ok(passes)
    }

    /// The pass of the next number.
    fn add_pass(&self, baton: &mut Baton, number: u32) -> Pass
        requires same { baton.old.table ≡ self.now }
        requires next { baton.old.view.next ≡ number }
        ensures baton { baton.new ≡ baton_with_view baton.old (after_new_pass baton.old.view) }
        ensures pass { result ≡ new_pass_standing self.now number }
    {
        let seat = self.table.shared.split_seat::<MakesPass>(&mut baton.seat);
        Pass {
            seat,
            caller: number,
            looks: 0,
            seen: 0,
            front: 0,
        }
    }
}

/// The words, all 0, and the baton, which has made no pass.
fn open(alloc: Global) -> Result<(Cells, Baton), AllocError>
    ensures { IfOk result (λ m. m.1 ≡ new_baton m.0 0) }
{
    let words = vec![in alloc; 0u64; WORDS]?;
    let (table, seat) = Table::of_words(alloc, words.as_slice(), &())?;
    Ok((Cells { table }, Baton { seat }))
}

/// The baton makes the pass of the next number.
pub struct MakesPass;

impl Split<View> for MakesPass {
    ghost use Rattle.version_cells.specs.Views.{new_pass};
    ghost use Rattle.version_cells.specs.Moves.{after_new_pass};

    ghost left = { after_new_pass };

    ghost right = { λ v. new_pass v.next };
}
