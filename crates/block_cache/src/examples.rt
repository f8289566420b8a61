//! The history of a cache, computed on small histories.
ghost use Rattle.block_cache.specs.CacheExamples.{TwoInTurn, LastUsedFirst};

/// Two blocks that are looked up in turn.
pub fn two_in_turn_law()
    ensures { TwoInTurn }
{}

/// What comes first, and what goes.
pub fn last_used_first_law()
    ensures { LastUsedFirst }
{}
