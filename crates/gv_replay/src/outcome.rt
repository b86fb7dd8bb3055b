//! What a report shows of a replay: counts, live mappings, the past of addresses.

use crate::alive::Alive;
use crate::past::{Past, pasts_of};
use crate::replayed::Replayed;
use crate::tally::Tally;
use crate::terms::Terms;
use std::alloc::{AllocError, Global};

/// What was counted, what is alive, and the past of each address that was asked.
#[derive(Drop)]
pub struct ReplayOutcome {
    pub tally: Tally,
    pub alive: Alive,
    pub pasts: Vec<Past>,
    /// How many binds are no longer held, so that no past has them.
    pub first: u64,
}

impl ReplayOutcome {
    /// What a replay came to, which is closed.
    pub fn of(
        alloc: Global,
        replayed: Replayed,
        terms: &Terms<'_>,
    ) -> Result<ReplayOutcome, AllocError> {
        let Replayed {
            machine,
            acts,
            tally,
        } = replayed;
        let first = machine.first();
        let alive = Alive::of(alloc, machine.space());
        let pasts = match addresses_of(alloc, terms) {
            Ok(addresses) => pasts_of(alloc, &machine, &acts, &addresses),
            Err(error) => Err(error),
        };
        machine.close();
        let alive = alive?;
        let pasts = pasts?;
        Ok(ReplayOutcome {
            tally,
            alive,
            pasts,
            first,
        })
    }
}

impl ReplayOutcome {
    /// Whether there is something to tell: a finding, or an address that is asked and reaches something, or did.
    pub fn has_news(&self) -> bool {
        self.tally.has_finding()
            || self
                .pasts
                .iter()
                .any(|past| past.now.is_some() || !past.before.is_empty())
    }
}

/// The addresses that are asked, as the format writes them.
fn addresses_of(alloc: Global, terms: &Terms<'_>) -> Result<Vec<u64>, AllocError> {
    let mut addresses = Vec::new(alloc);
    for addr in terms.addresses {
        addresses.push(terms.format.address(*addr))?;
    }
    Ok(addresses)
}
