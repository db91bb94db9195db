//! The ranges of the shards.

ghost use Rattle.std.specs.Prelude.{◌≡◌, ◌≤◌, ◌<◌, IfSome};
ghost use Rattle.problem.specs.Problems.{view as problem_view};
ghost use Rattle.problem.specs.Sums.{count_of};
ghost use Rattle.shard_merge.specs.Ranges.{AreTiles, range_of, split_of};

use problem::Problem;

/// The range of a shard, with its end past it, where the trees of a problem are split into so many shards: the first
/// number is `index * count / shards` and the end `(index + 1) * count / shards`, each rounded down. The indices are
/// counted from 0. There is none exactly if the index is not below the number of shards, from 1 to 64, or if there are
/// more shards than trees. It takes no memory.
#[tactic(auto, unfolding(crate::specs::Ranges::split_of))]
pub fn split(problem: &Problem, shards: u32, index: u32) -> Option<(u64, u64)>
    requires least { 1 ≤ shards }
    requires most { shards ≤ 64 }
    ensures value { result ≡ split_of (count_of (problem_view problem.now)) shards index }
    // The ranges of all shards are all trees, each once.
    ensures tiles { IfSome result (λ _. AreTiles (count_of (problem_view problem.now)) shards
        (range_of (count_of (problem_view problem.now)) shards)) }
    ensures some { IfSome result (λ range. range.0 < range.1) }
    ensures within { IfSome result (λ range. range.1 ≤ count_of (problem_view problem.now)) }
{
    let count = problem.shape.count();
    if index >= shards || shards as u64 > count {
        return None;
    }
    let shards = shards as u64;
    let index = index as u64;
    Some((index * count / shards, (index + 1) * count / shards))
}
