//! Computes the load of statements in one pass over them.
ghost use Rattle.std.specs.Prelude.{◌≡◌, ◌∷◌, IfOk, OnOk};
ghost use Rattle.rpl_tree.specs.Seen.{act_of, acts_in};
ghost use Rattle.rpl_budget.specs.Pass as Pass;
ghost use Rattle.rpl_budget.specs.Seen.{named_seen, names_of};

use crate::functions::Functions;
use crate::kind::TreeKind;
use crate::load::{Load, both, either, nothing, one_put, steps};
use crate::named::Named;
use crate::pass::pass;
use crate::work::bound;
use rpl_scope::Scope;
use rpl_tree::Statement;
use rw_base::NoMemory;

/// Computes the load of statements, one after the other, where these functions and names can be used. The names stay as they are.
#[cycle(acts)]
pub(crate) fn acts<'a>(
    known: &Functions<'a>,
    names: &mut Scope<'a, TreeKind>,
    statements: &'a [Statement],
) -> Result<Load, NoMemory>
    ensures found { IfOk result (λ load. load ≡ Pass.pass_acts known.now
        (names_of names.old) (acts_in statements.now)) }
    ensures names { OnOk result (names.new ≡ names.old) }
{
    let mut others = nothing();
    let mut k = statements.len();
    while k > 0 {
        k -= 1;
        let first = act(known, names, &statements[k])?;
        others = both(first, others);
    }
    Ok(others)
}

// A test, and one of two.
fn branched(test: Load, first: Load, second: Load) -> Load
    ensures { result ≡ Pass.load_of_branches test first second }
{
    both(test, both(either(first, second), steps(3)))
}

#[cycle(acts)]
fn act<'a>(
    known: &Functions<'a>,
    names: &mut Scope<'a, TreeKind>,
    statement: &'a Statement,
) -> Result<Load, NoMemory>
    ensures found { IfOk result (λ load. load ≡ Pass.pass_act known.now
        (names_of names.old) (act_of statement.now)) }
    ensures names { OnOk result (names.new ≡ names.old) }
{
    match statement {
        Statement::Assign { value, .. } => {
            let value = pass(known, names, value)?;
            Ok(both(value.load, one_put()))
        }
        Statement::If { condition, yes, no } => {
            let test = pass(known, names, condition)?;
            let first = acts(known, names, yes)?;
            let second = acts(known, names, no)?;
            Ok(branched(test.load, first, second))
        }
        Statement::With { name, value, body } => {
            let value = pass(known, names, value)?;
            let variable = Named {
                name,
                kind: value.kind,
            };
            let inside = inside(known, names, variable, body)?;
            Ok(bound(value, inside))
        }
    }
}

// What is done with a variable.
#[cycle(acts)]
fn inside<'a>(
    known: &Functions<'a>,
    names: &mut Scope<'a, TreeKind>,
    variable: Named<'a>,
    body: &'a [Statement],
) -> Result<Load, NoMemory>
    ensures found { IfOk result (λ load. load ≡ Pass.pass_acts known.now
        (named_seen variable.entry ∷ names_of names.old) (acts_in body.now)) }
    ensures names { OnOk result (names.new ≡ names.old) }
{
    names.push(variable.name, variable.kind)?;
    let load = acts(known, names, body)?;
    names.pop();
    Ok(load)
}
