//! Makes the parts of a run's state that take memory before the first timestep.
ghost use Rattle.std.specs.Prelude.{◌≡◌, [], None, Ok, IfOk, length};
ghost use Rattle.rpl_code.specs.declared.block.BlockHead.TheVariants.{Rule as RuleHead};
ghost use Rattle.rpl_verify.specs.Fits.{count_alike};
ghost use Rattle.rpl_verify.specs.Verified.{verified};
ghost use Rattle.rw_base.specs.declared.number.Cell.{Cell};
ghost use Rattle.rw_dispatch.specs.Queue.{IsQueueOf};
ghost use Rattle.rw_model.specs.Basin.{IsBasin};
ghost use Rattle.rw_rules.specs.Rules.{IsRulesOf};
ghost use Rattle.rw_series.specs.Series.{IsSeriesOf, held};

use crate::counts::Counts;
use rpl_verify::Verified;
use rw_base::NoMemory;
use rw_dispatch::Queue;
use rw_model::Basin;
use rw_rules::Rules;
use rw_series::Series;
use std::alloc::Global;

/// What of a state takes memory before the first timestep.
pub(crate) struct Parts {
    pub(crate) counts: Counts,
    pub(crate) firings: Counts,
    pub(crate) queue: Queue,
    pub(crate) series: Series,
    pub(crate) rules: Rules,
}

/// The parts of a state of which nothing is known, no object waits and nothing is counted. Those that are dearest to free are made
/// last, since the others are freed on each way out.
pub(crate) fn parts_of(alloc: Global, policy: &Verified, basin: &Basin) -> Result<Parts, NoMemory>
    requires { verified basin.now policy.now.blocks ≡ Ok policy.now }
    ensures basin { IsBasin basin.now }
    ensures counts { IfOk result (λ parts. length parts.counts ≡ length basin.now.objects) }
    ensures firings { IfOk result
        (λ parts. length parts.firings ≡ count_alike RuleHead policy.now.blocks) }
    ensures queue { IfOk result (λ parts. IsQueueOf basin.now parts.queue) }
    ensures empty { IfOk result (λ parts. parts.queue.waiting ≡ []) }
    ensures series { IfOk result (λ parts. IsSeriesOf basin.now parts.series) }
    ensures unknown { IfOk result (λ parts. (cell : Cell) → held parts.series cell ≡ None) }
    ensures rules { IfOk result (λ parts. IsRulesOf basin.now policy.now parts.rules) }
{
    let counts = Counts::zero(alloc, basin.object_count())?;
    let firings = Counts::zero(alloc, policy.rule_count())?;
    let queue = Queue::for_basin(alloc, basin)?;
    let series = Series::sized(alloc, basin)?;
    let rules = Rules::for_policy(alloc, policy, basin)?;
    Ok(Parts {
        counts,
        firings,
        queue,
        series,
        rules,
    })
}
