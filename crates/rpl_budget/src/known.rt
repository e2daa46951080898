//! Holds a function that can be called, and computes the load of a call.
ghost use Rattle.std.specs.Prelude.{◌≡◌};
ghost use Rattle.rpl_tree.specs.Budget.{capped, limits};
ghost use Rattle.rpl_tree.specs.Value as Value;
ghost use Rattle.rpl_budget.specs.Pass as Pass;
ghost use Rattle.rpl_budget.specs.Seen.{tree_kind_seen, tree_kinds_seen, priced_seen};

use crate::TreeCost;
use crate::kind::{TreeKind, weight};
use crate::load::{Load, nothing, plus, standing, stopped};
use rw_base::limits::WORDS_MAX;

/// A function that can be called, and the load of a call, its arguments apart.
#[derive(Drop)]
pub(crate) struct Known<'a> {
    pub(crate) name: &'a [u8],
    pub(crate) takes: Vec<TreeKind>,
    pub(crate) result: TreeKind,
    /// How many words its parameters take.
    pub(crate) room: u64,
    pub(crate) most: TreeCost,
}

/// Adds up the words of values of these kinds.
pub(crate) fn weights(kinds: &[TreeKind]) -> u64
    ensures { result ≡ capped limits.words (Value.weights (tree_kinds_seen kinds.now)) }
{
    let mut sum = 0;
    for kind in kinds {
        sum = plus(sum, stopped(weight(*kind), WORDS_MAX), WORDS_MAX);
    }
    sum
}

/// Returns the load of a call of a function whose arguments are there.
pub(crate) fn called(f: &Known) -> Load
    ensures { result ≡ Pass.load_of_call (priced_seen f.now) }
{
    let words = plus(f.room, f.most.words, WORDS_MAX);
    let result = stopped(weight(f.result), WORDS_MAX);
    Load {
        count: f.most.instructions,
        looks: f.most.reads,
        puts: f.most.puts,
        height: words.max(result),
        locals: 0,
    }
}
