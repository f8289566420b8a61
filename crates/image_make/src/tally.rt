//! How many acts there were of each kind, and what they left.
ghost use Rattle.std.specs.Prelude.{◌≡◌, ◌<◌, ◌^◌};
ghost use Rattle.image_make.specs.Acts.{is_made, no_acts, with_act, IsSmall};
ghost use Rattle.image_make.specs.Examples.{TwoActs};

use crate::draws::Drawn;

/// How many acts were drawn of each kind, and how many commits were refused.
#[derive(Clone, Copy, Debug, PartialEq, Eq)]
pub struct Tally {
    pub writes: u32,
    pub zeros: u32,
    pub flushes: u32,
    pub commits: u32,
    pub refused: u32,
}

/// No act.
pub fn no_tally() -> Tally
    ensures { result ≡ no_acts }
{
    Tally {
        writes: 0,
        zeros: 0,
        flushes: 0,
        commits: 0,
        refused: 0,
    }
}

/// One act more, which was done or not.
pub fn with_one(tally: Tally, drawn: Drawn, done: bool) -> Tally
    requires small { IsSmall tally (2 ^ 31) }
    requires done { done ≡ is_made tally.commits drawn }
    ensures { result ≡ with_act tally drawn }
{
    let mut tally = tally;
    match drawn {
        Drawn::Flush => tally.flushes += 1,
        Drawn::Zero { .. } => tally.zeros += 1,
        Drawn::Write { .. } => tally.writes += 1,
        Drawn::Commit { .. } if done => tally.commits += 1,
        Drawn::Commit { .. } => tally.refused += 1,
    }
    tally
}

/// What the definitions give of small runs.
pub fn example_laws()
    ensures two { TwoActs }
{}
