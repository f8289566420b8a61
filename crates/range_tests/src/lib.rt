//! Tests of range requests, of the block cache, and of the shelf over both.
#![tactic(auto)]

#[cfg(test)]
mod block_cache_tests;
#[cfg(test)]
mod cached_tests;
#[cfg(test)]
mod expecting;
#[cfg(test)]
mod http_range_tests;
#[cfg(test)]
mod noted_link;
#[cfg(test)]
mod range_tests;
#[cfg(test)]
mod reply_tests;
#[cfg(test)]
mod speed_tests;
