//! The words of the command line.
use std::rt::Env;
use std::{env, io};

/// How long scripts are tried, and which.
#[derive(Clone, Copy)]
pub struct Campaign {
    /// The seed of the first script; each further one has the next.
    pub seed: u64,
    /// At most so many.
    pub scripts: u64,
    /// None is begun after so many seconds.
    pub seconds: u64,
}

/// The campaign that the words say: pairs of `--seed`, `--scripts` or `--seconds` and a number.
pub fn campaign_of<R: Env + AllocGlobal>(rt: &R) -> io::Result<Option<Campaign>> {
    let mut campaign = Campaign {
        seed: 1,
        scripts: u64::MAX,
        seconds: u64::MAX,
    };
    let words: Vec<String> = env::args(rt)?.skip(1).collect(rt.alloc())?;
    for pair in words.chunks(2) {
        let Some(further) = read(campaign, pair) else {
            return Ok(None);
        };
        campaign = further;
    }
    let ends = campaign.scripts < u64::MAX || campaign.seconds < u64::MAX;
    Ok(ends.then_some(campaign))
}

/// The campaign with what a pair of words says.
fn read(campaign: Campaign, pair: &[String]) -> Option<Campaign> {
    let (name, number) = (pair.first()?, pair.get(1)?);
    let number = number.as_str().parse::<u64>().ok()?;
    match name.as_str() {
        "--seed" => Some(Campaign {
            seed: number,
            ..campaign
        }),
        "--scripts" => Some(Campaign {
            scripts: number,
            ..campaign
        }),
        "--seconds" => Some(Campaign {
            seconds: number,
            ..campaign
        }),
        _ => None,
    }
}
