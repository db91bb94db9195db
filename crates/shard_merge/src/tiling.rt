//! Whether shards are of one source, and their ranges one range.

ghost use Rattle.std.specs.Prelude.{◌≡◌, ◌+◌, ◌<◌, ◌≤◌, length, All, Some, None, IfSome, IfNone, IfOk, IfErr};
ghost use Rattle.shard_merge.specs.Merges.{AreMergeable, IsCovered, IsMergeRefusal, ranges_of, sources_of, source_at, range_at};
ghost use Rattle.shard_merge.specs.Shards.{IsShard};
ghost use Rattle.shard_merge.specs.Walks.{IsReached, end_past, greatest_from, least_from, other_from, overlap_from, pair_from};

use crate::merge_error::MergeError;
use crate::shard::Shard;

/// The first place of a shard of another source.
#[tactic(auto, using(std::proofs::lemmas::List::drop_more))]
fn first_other(source: &[u8], shards: &[Shard]) -> Option<u32>
    requires { length shards.now ≤ 64 }
    ensures value { result ≡ other_from source.now 0 (sources_of shards.now) }
    ensures shards { IfNone result (All IsShard shards.now) }
{
    for (place, shard) in shards.iter().enumerate() {
        if shard.source() != source {
            return Some(place as u32);
        }
    }
    None
}

/// The first place, counted from a place on, of a shard that has a number in common with this one.
#[tactic(auto, using(std::proofs::lemmas::List::drop_more))]
fn first_overlap(shard: &Shard, place: usize, others: &[Shard]) -> Option<u32>
    requires { place + length others.now ≤ 64 }
    ensures { result ≡ overlap_from (shard.now.first, shard.now.end) place (ranges_of others.now) }
{
    for (index, other) in others.iter().enumerate() {
        if shard.first().max(other.first()) < shard.end().min(other.end()) {
            return Some((place + index) as u32);
        }
    }
    None
}

/// The least pair of places of shards that have a number in common.
#[tactic(auto, using(std::proofs::lemmas::List::drop_more))]
fn first_pair(shards: &[Shard]) -> Option<(u32, u32)>
    requires { length shards.now ≤ 64 }
    ensures { result ≡ pair_from 0 (ranges_of shards.now) }
{
    for (place, shard) in shards.iter().enumerate() {
        let (_, later) = shards.split_at(place + 1);
        if let Some(other) = first_overlap(shard, place + 1, later) {
            return Some((place as u32, other));
        }
    }
    None
}

/// The least first number, and the greatest end.
#[tactic(auto, using(std::proofs::lemmas::List::drop_more))]
fn bounds(shards: &[Shard]) -> (u64, u64)
    requires { 1 ≤ length shards.now }
    ensures first { result.0 ≡ least_from (range_at (ranges_of shards.now) 0).0 (ranges_of shards.now) }
    ensures end { result.1 ≡ greatest_from (range_at (ranges_of shards.now) 0).1 (ranges_of shards.now) }
{
    let mut first = shards[0].first();
    let mut end = shards[0].end();
    for shard in shards {
        first = first.min(shard.first());
        end = end.max(shard.end());
    }
    (first, end)
}

/// The end of the first shard that has a number.
#[tactic(auto, using(std::proofs::lemmas::List::drop_more))]
fn end_past(shards: &[Shard], number: u64) -> Option<u64>
    ensures { result ≡ end_past number (ranges_of shards.now) }
{
    for shard in shards {
        if shard.first() <= number && number < shard.end() {
            return Some(shard.end());
        }
    }
    None
}

/// The least number, from a number on, that no shard has.
fn first_missing(shards: &[Shard], first: u64) -> u64
    ensures reached { IsReached (ranges_of shards.now) first result }
    ensures missing { ¬ (IsCovered (ranges_of shards.now) result) }
{
    let mut number = first;
    while let Some(end) = end_past(shards, number) {
        number = end;
    }
    number
}

/// The least first number and the greatest end of shards that can be merged.
///
/// # Errors
/// The first refusal whose condition holds. It takes no memory.
pub(crate) fn tiled(shards: &[Shard]) -> Result<(u64, u64), MergeError>
    requires least { 1 ≤ length shards.now }
    requires most { length shards.now ≤ 64 }
    ensures tiles { IfOk result (λ range. AreMergeable shards.now range.0 range.1) }
    ensures shards { IfOk result (λ _. All IsShard shards.now) }
    ensures refusal { IfErr result (IsMergeRefusal shards.now) }
{
    if let Some(place) = first_other(shards[0].source(), shards) {
        return Err(MergeError::DifferentProblems { place });
    }
    if let Some((first, second)) = first_pair(shards) {
        return Err(MergeError::Overlap { first, second });
    }
    let (first, end) = bounds(shards);
    let number = first_missing(shards, first);
    if number < end {
        return Err(MergeError::Gap { number });
    }
    Ok((first, end))
}
