//! Builds two worked rulesets from these types: what they hold are the plain trees of which the definitions speak.
ghost use Rattle.std.specs.Prelude.{◌≡◌, [], ◌∷◌, pos, IfOk, codes};
ghost use Rattle.rpl_tree.specs.declared.words.TwoWord.TheVariants as TwoWord;
ghost use Rattle.rpl_tree.specs.Tree.{call, name, two};
ghost use Rattle.rpl_tree.specs.Seen.{act_of, declared_of, rules_of, tree_of};
ghost use Rattle.rpl_tree.specs.Worked.{ahead, ahead_now, call_of_ahead, ahead_of_n, at_now, hundredth, n_name, of_unit, s_name, step_pair, sum, sum_ahead, sum_loop, whole, x_put, y_now};

use crate::{
    Declaration, Expr, LoopText, Pair, Param, ParsedRules, SlotText, Statement, TwoWord, TypeText,
};
use rw_base::NoMemory;
use std::alloc::Global;

// The bytes of a text.
fn bytes_of(alloc: Global, text: &str) -> Result<Vec<u8>, NoMemory>
    ensures { IfOk result (λ bytes. bytes.items ≡ text.now) }
{
    let mut bytes = Vec::new(alloc);
    bytes.extend_from_slice(text.as_bytes())?;
    Ok(bytes)
}

// `object.slot[t]`.
fn at_now(alloc: Global, object: &str, slot: &str) -> Result<Expr, NoMemory>
    ensures { IfOk result (λ e. tree_of e ≡ at_now object.now slot.now) }
{
    let object = bytes_of(alloc, object)?;
    let slot = bytes_of(alloc, slot)?;
    let first = Expr::Slot(SlotText { object, slot });
    let parts = Box::new(
        alloc,
        Pair {
            first,
            second: Expr::Now,
        },
    )?;
    Ok(Expr::At(parts))
}

// `100 / D.Y[t]`.
fn hundred_over_y(alloc: Global) -> Result<Expr, NoMemory>
    ensures { IfOk result (λ e. tree_of e ≡ two TwoWord.Divide (whole (pos 100)) y_now) }
{
    let hundred = Expr::Number {
        value: 100,
        unit: None,
    };
    let second = at_now(alloc, "D", "Y")?;
    let parts = Box::new(
        alloc,
        Pair {
            first: hundred,
            second,
        },
    )?;
    Ok(Expr::Two {
        word: TwoWord::Divide,
        parts,
    })
}

// `D.X[t] := value;`.
fn x_set(alloc: Global, value: Expr) -> Result<Statement, NoMemory>
    ensures { IfOk result (λ s. act_of s ≡ x_put (tree_of value)) }
{
    let object = bytes_of(alloc, "D")?;
    let slot = bytes_of(alloc, "X")?;
    Ok(Statement::Assign {
        target: SlotText { object, slot },
        ahead: 0,
        value,
    })
}

/// Returns the ruleset `RULE "rule": D.X[t] := 100 / D.Y[t]; ENDRULE`.
pub fn hundredth_rules(alloc: Global) -> Result<ParsedRules, NoMemory>
    ensures { IfOk result (λ rules. rules_of rules ≡ hundredth) }
{
    let name = bytes_of(alloc, "rule")?;
    let mut body = Vec::new(alloc);
    body.push(x_set(alloc, hundred_over_y(alloc)?)?)?;
    let mut declarations = Vec::new(alloc);
    declarations.push(Declaration::Rule { name, body })?;
    Ok(ParsedRules { declarations })
}

// `value "unit"`.
fn number(alloc: Global, value: i64, unit: &str) -> Result<Expr, NoMemory>
    ensures { IfOk result (λ e. tree_of e ≡ of_unit value unit.now) }
{
    let unit = bytes_of(alloc, unit)?;
    Ok(Expr::Number {
        value,
        unit: Some(unit),
    })
}

// A name.
fn variable(alloc: Global, called: &str) -> Result<Expr, NoMemory>
    ensures { IfOk result (λ e. tree_of e ≡ name called.now) }
{
    Ok(Expr::Name(bytes_of(alloc, called)?))
}

// `left + right`.
fn plus(alloc: Global, left: Expr, right: Expr) -> Result<Expr, NoMemory>
    ensures { IfOk result (λ e. tree_of e ≡ two TwoWord.Plus (tree_of left) (tree_of right)) }
{
    let parts = Box::new(
        alloc,
        Pair {
            first: left,
            second: right,
        },
    )?;
    Ok(Expr::Two {
        word: TwoWord::Plus,
        parts,
    })
}

// `Dam.Inflow[t + n]`.
fn inflow_ahead(alloc: Global) -> Result<Expr, NoMemory>
    ensures { IfOk result (λ e. tree_of e ≡ ahead_of_n) }
{
    let object = bytes_of(alloc, "Dam")?;
    let slot = bytes_of(alloc, "Inflow")?;
    let step = plus(alloc, Expr::Now, variable(alloc, "n")?)?;
    let first = Expr::Slot(SlotText { object, slot });
    let parts = Box::new(
        alloc,
        Pair {
            first,
            second: step,
        },
    )?;
    Ok(Expr::At(parts))
}

// `FUNCTION Ahead(NUMERIC "step" n) : NUMERIC "m3/step" IS Dam.Inflow[t + n] ENDFUNCTION`.
fn ahead_function(alloc: Global) -> Result<Declaration, NoMemory>
    ensures { IfOk result (λ d. declared_of d ≡ ahead) }
{
    let name = bytes_of(alloc, "Ahead")?;
    let mut params = Vec::new(alloc);
    params.push(Param {
        name: bytes_of(alloc, "n")?,
        kind: TypeText::Numeric(bytes_of(alloc, "step")?),
    })?;
    let result = TypeText::Numeric(bytes_of(alloc, "m3/step")?);
    Ok(Declaration::Function {
        name,
        params,
        result,
        body: inflow_ahead(alloc)?,
    })
}

// `{0 "step", 1 "step"}`.
#[tactic(auto, using(crate::proofs::Viewed::tree_of_list))]
fn steps(alloc: Global) -> Result<Expr, NoMemory>
    ensures { IfOk result (λ e. tree_of e ≡ step_pair) }
{
    let mut elements = Vec::new(alloc);
    elements.push(number(alloc, 0, "step")?)?;
    elements.push(number(alloc, 1, "step")?)?;
    Ok(Expr::List(elements))
}

// `Ahead(n)`.
fn ahead_call(alloc: Global) -> Result<Expr, NoMemory>
    ensures { IfOk result (λ e. tree_of e ≡ call_of_ahead) }
{
    let name = bytes_of(alloc, "Ahead")?;
    let mut args = Vec::new(alloc);
    args.push(variable(alloc, "n")?)?;
    Ok(Expr::Call { name, args })
}

// `s + Ahead(n)`.
fn sum_of_both(alloc: Global) -> Result<Expr, NoMemory>
    ensures { IfOk result (λ e. tree_of e ≡ ahead_now) }
{
    let total = variable(alloc, "s")?;
    let next = ahead_call(alloc)?;
    plus(alloc, total, next)
}

// `FOR n IN {0 "step", 1 "step"} WITH s := 0 "m3/step" DO s + Ahead(n) ENDFOR`.
fn sum_over_steps(alloc: Global) -> Result<Expr, NoMemory>
    ensures { IfOk result (λ e. tree_of e ≡ sum_loop) }
{
    let name = bytes_of(alloc, "n")?;
    let total = bytes_of(alloc, "s")?;
    let names = Box::new(alloc, LoopText { name, total })?;
    let list = Box::new(alloc, steps(alloc)?)?;
    let first = Box::new(alloc, number(alloc, 0, "m3/step")?)?;
    let body = Box::new(alloc, sum_of_both(alloc)?)?;
    Ok(Expr::For {
        names,
        list,
        first,
        body,
    })
}

// The rule that sets D.X to that.
fn sum_rule(alloc: Global) -> Result<Declaration, NoMemory>
    ensures { IfOk result (λ d. declared_of d ≡ sum) }
{
    let name = bytes_of(alloc, "rule")?;
    let mut body = Vec::new(alloc);
    body.push(x_set(alloc, sum_over_steps(alloc)?)?)?;
    Ok(Declaration::Rule { name, body })
}

/// Returns the function `Ahead` and the rule that sums what it returns for two steps.
pub fn sum_ahead_rules(alloc: Global) -> Result<ParsedRules, NoMemory>
    ensures { IfOk result (λ rules. rules_of rules ≡ sum_ahead) }
{
    let mut declarations = Vec::new(alloc);
    declarations.push(ahead_function(alloc)?)?;
    declarations.push(sum_rule(alloc)?)?;
    Ok(ParsedRules { declarations })
}
