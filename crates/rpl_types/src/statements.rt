//! Finds the types of the nodes of statements, on one way over them.
ghost use Rattle.std.specs.Prelude.{◌≡◌};
ghost use Rattle.rpl_tree.specs.Seen.{act_of, acts_in, tree_of};
ghost use Rattle.rpl_tree.specs.Tree.{assign, branch, with_name};
ghost use Rattle.rpl_tree.specs.World.{can_put_ahead};
ghost use Rattle.rpl_types.specs.Forms.{target_misfit};
ghost use Rattle.rpl_types.specs.Gives.{Stands, VisitsAct, VisitsActs};

use crate::TypeKind;
use crate::fits::misfit;
use crate::forms::condition_misfit;
use crate::known::Known;
use crate::names::slot_named;
use crate::progress::{Progress, add_variable, drop_variable, reserve};
use crate::stop::Stop;
use crate::visit::visit;
use rpl_tree::{Expr, RplType, SlotText, Statement};
use rw_model::Basin;

/// Returns nothing, or what is wrong at the node.
fn stand(node: usize, found: Option<TypeKind>) -> Result<(), Stop>
    ensures { Stands node result found }
{
    match found {
        None => Ok(()),
        Some(kind) => Err(Stop::Refused { kind, node }),
    }
}

/// Returns whether rules can put this many timesteps ahead.
fn can_put_ahead(basin: &Basin, ahead: i64) -> bool
    ensures { result ≡ can_put_ahead basin.now ahead }
{
    0 <= ahead && ahead <= i64::from(basin.control().ahead)
}

/// Returns why a value of the type cannot be set there; `None` where it can.
fn target_misfit(basin: &Basin, target: &SlotText, ahead: i64, t: &RplType) -> Option<TypeKind>
    ensures { result
        ≡ target_misfit basin.now target.now.object.items target.now.slot.items ahead t.now }
{
    let Some(slot) = slot_named(basin, &target.object, &target.slot) else {
        return Some(TypeKind::UnknownSlot);
    };
    if !basin.settable(slot) {
        return Some(TypeKind::NotSettable);
    }
    if !can_put_ahead(basin, ahead) {
        return Some(TypeKind::TargetStep);
    }
    misfit(t, &RplType::Numeric(basin.dim(slot)))
}

/// Judges the statements in a row.
#[cycle(statements)]
pub(crate) fn statements<'a>(
    known: &Known<'_, 'a>,
    progress: &mut Progress<'a>,
    body: &'a [Statement],
) -> Result<(), Stop>
    ensures { VisitsActs known.now progress.old progress.new result (acts_in body.now) }
{
    for statement in body {
        visit_statement(known, progress, statement)?;
    }
    Ok(())
}

/// Judges a statement.
#[cycle(statements)]
#[tactic(auto, using(rpl_tree::proofs::Viewed::act_of_branch, rpl_tree::proofs::Viewed::act_of_with))]
fn visit_statement<'a>(
    known: &Known<'_, 'a>,
    progress: &mut Progress<'a>,
    statement: &'a Statement,
) -> Result<(), Stop>
    ensures { VisitsAct known.now progress.old progress.new result (act_of statement.now) }
{
    match statement {
        Statement::Assign {
            target,
            ahead,
            value,
        } => set(known, progress, target, *ahead, value),
        Statement::If { condition, yes, no } => {
            let node = reserve(progress)?;
            let test = visit(known, progress, condition)?;
            statements(known, progress, yes)?;
            statements(known, progress, no)?;
            stand(node, condition_misfit(&test))
        }
        Statement::With { name, value, body } => {
            let _node = reserve(progress)?;
            let held = visit(known, progress, value)?;
            add_variable(progress, name, &held)?;
            statements(known, progress, body)?;
            drop_variable(progress);
            Ok(())
        }
    }
}

/// Judges `target[t + ahead] := value;`.
fn set<'a>(
    known: &Known<'_, 'a>,
    progress: &mut Progress<'a>,
    target: &SlotText,
    ahead: i64,
    value: &'a Expr,
) -> Result<(), Stop>
    ensures { VisitsAct known.now progress.old progress.new result
        (assign target.now.object.items target.now.slot.items ahead (tree_of value.now)) }
{
    let node = reserve(progress)?;
    let held = visit(known, progress, value)?;
    let found = target_misfit(known.basin, target, ahead, &held);
    stand(node, found)
}
