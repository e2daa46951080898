//! Judges code block by block.
ghost use Rattle.std.specs.Prelude.{◌≡◌, [], map, OnOk};
ghost use Rattle.std.specs.List.{AllByRecursion};
ghost use Rattle.rw_base.specs.Answers.{Answers};
ghost use Rattle.rpl_code.specs.Bounds.{IsCode};
ghost use Rattle.rpl_verify.specs.declared.verify_fault.VerifyFault.TheVariants as F;
ghost use Rattle.rpl_verify.specs.Budget.{ruling};
ghost use Rattle.rpl_verify.specs.Notes.{numbers_seen};
ghost use Rattle.rpl_verify.specs.Joined.{AreJoined, first_joined};
ghost use Rattle.rpl_verify.specs.Resolved.{resolved_code};
ghost use Rattle.rpl_verify.specs.Verified.{misfit_refusal_of};
ghost use Rattle.rpl_verify.specs.Answered.{fault_in};

use crate::block::judged_block;
use crate::block_fault::BlockFault;
use crate::resolver::invokes_of;
use crate::{Budget, Resolved, VerifyFault};
use rpl_code::Block;
use rw_model::Basin;
use std::alloc::Global;

// What a fault of the block of this number is.
fn fault_in(block: u32, fault: BlockFault) -> VerifyFault
    ensures { result ≡ fault_in block fault }
{
    match fault {
        BlockFault::Misplaced(kind, place) => VerifyFault::Refused { kind, block, place },
        BlockFault::NoMemory => VerifyFault::NoMemory,
    }
}

/// Returns the budget of each block, and the blocks resolved and joined one after the other; or the first refusal.
pub(crate) fn budgets(
    alloc: Global,
    basin: &Basin,
    blocks: &[Block],
    joined: &mut Vec<Vec<Resolved>>,
) -> Result<Vec<Budget>, VerifyFault>
    requires code { IsCode blocks.now }
    requires none { joined.old.items ≡ [] }
    ensures budgets { Answers F.NoMemory misfit_refusal_of
        (λ budgets. map numbers_seen budgets.items) result
        (ruling basin.now blocks.now) }
    ensures resolved { OnOk result (map (λ block. map first_joined block.items) joined.new.items
        ≡ resolved_code basin.now blocks.now) }
    ensures joined { OnOk result
        (AllByRecursion (λ block. AreJoined block.items) joined.new.items) }
{
    let invokes = invokes_of(alloc, blocks)?;
    let mut budgets = Vec::new(alloc);
    for place in 0..blocks.len() {
        let block = &blocks[place];
        match judged_block(
            alloc,
            basin,
            blocks,
            &invokes,
            place as u32,
            &budgets,
            block,
        ) {
            Ok(judged) => {
                budgets.push(judged.budget)?;
                joined.push(judged.joined)?;
            }
            Err(fault) => return Err(fault_in(place as u32 + 1, fault)),
        }
    }
    Ok(budgets)
}
