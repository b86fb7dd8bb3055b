//! Many requests, rewinds, withdrawals and settles by chance, on a space with its journal and by the definitions alone, which keep the whole
//! list before each entry. What each answers is compared, and after each all that is held.
ghost use Rattle.gv_journal.specs.Fits.{FitsSpace};

use crate::chance::{Area, Spread, operation};
use crate::journal::playing::{Said, call, expect, whole};
use crate::judge::{agrees, request_of};
use crate::operations::id_of;
use crate::text::tell;
use crate::watch::{Row, Watch};
use crate::words::{Clause, Verb};
use gv_journal::{Item, ItemKind, Journal, Refusal};
use gv_model::{History, HistoryEntry, Kind, Made, Random, SpaceModel, TakenRequest, push};
use gv_space::Space;
use gv_types::{Bounds, BufferId, Fault, Op, OutOfMemory, PageOp};
use gv_vm::Outcome;
use std::alloc::Global;

/// The pages that are looked at.
const PAGES: [u64; 12] = [0, 1, 2, 3, 4, 5, 6, 7, 8, 9, 10, 11];

/// What an operation may name, where buffers have six pages.
const AREA: Area = Area {
    first: Spread(0, 10, 1),
    count: Spread(1, 3, 1),
    page: Spread(0, 5, 1),
};

/// What a space and its journal have to be by the definitions, and the operations of the next request.
#[derive(Drop)]
struct Round {
    space_model: SpaceModel,
    ops: Vec<Op>,
}

impl Round {
    /// No mapping and no entry, and buffers of six pages.
    fn new(alloc: Global, space: &Space, ids: &[BufferId]) -> Result<Round, OutOfMemory> {
        let buffers: Vec<Made> = ids
            .iter()
            .map(|id| Made {
                id: *id,
                pages: 6,
                is_alive: true,
            })
            .collect(alloc)?;
        let space_model = SpaceModel {
            bounds: Bounds::whole(),
            limits: space.limits(),
            buffers,
            list: Vec::new(alloc),
            history: History {
                first: 0,
                entries: Vec::new(alloc),
            },
        };
        let ops = Vec::new(alloc);
        Ok(Round { space_model, ops })
    }

    /// What a call answers by the definitions.
    fn answer(&mut self, alloc: Global, clause: &Clause) -> Result<Said, OutOfMemory> {
        let number = clause.numbers[0];
        Ok(whole(match clause.verb {
            Verb::Rewind => self.space_model.rewind(),
            Verb::Withdraw => self.space_model.withdraw(alloc, number),
            Verb::Settle => self.space_model.settle(alloc, number),
            _ => return self.bind(alloc),
        }))
    }

    fn bind(&mut self, alloc: Global) -> Result<Said, OutOfMemory> {
        let ops = Vec::from_slice(alloc, &self.ops)?;
        let turn = TakenRequest {
            queue: 0,
            number: self.space_model.history.next(),
            request: request_of(alloc, ops),
            seen: Vec::new(alloc),
        };
        Ok(match self.space_model.bind(alloc, turn)? {
            Outcome::Accepted { entry } => Ok(entry),
            Outcome::Refused { op, fault } => Err(Refusal { op, fault }),
            Outcome::NotReady { have, .. } => Ok(have),
        })
    }

    /// Whether a space and its journal are as they have to be.
    fn agrees(
        &self,
        alloc: Global,
        space: &Space,
        journal: &Journal,
        ids: &[BufferId],
    ) -> Result<bool, OutOfMemory> {
        let SpaceModel { list, history, .. } = &self.space_model;
        Ok(
            agrees(alloc, space, ids, list, history, &PAGES)?
                && has_items(journal, history)
                && PAGES
                    .iter()
                    .all(|page| space.find(*page) == self.space_model.view(*page)),
        )
    }
}

/// Whether a journal has these entries.
fn has_items(journal: &Journal, history: &History) -> bool {
    let (items, entries) = (journal.items(), history.entries.as_slice());
    journal.first() == history.first
        && items.len() == entries.len()
        && items
            .iter()
            .zip(entries)
            .all(|(item, entry)| is_entry(item, entry))
}

/// Whether an item is this entry.
fn is_entry(item: &Item, entry: &HistoryEntry) -> bool {
    match &entry.kind {
        Kind::Bind { done, .. } => is_bind(item, done),
        Kind::Withdrawal { of } => is_withdrawal(item, *of),
    }
}

fn is_bind(item: &Item, wanted: &[PageOp]) -> bool {
    match &item.kind {
        ItemKind::Bind { done, .. } => done.as_slice() == wanted,
        ItemKind::Withdrawal { .. } => false,
    }
}

fn is_withdrawal(item: &Item, wanted: u64) -> bool {
    match &item.kind {
        ItemKind::Bind { .. } => false,
        ItemKind::Withdrawal { of } => *of == wanted,
    }
}

/// What a turn may be: an operation of the next request, or a call.
const TURN: [Verb; 24] = [
    Verb::Map,
    Verb::Map,
    Verb::Map,
    Verb::Map,
    Verb::Map,
    Verb::Map,
    Verb::Map,
    Verb::Map,
    Verb::Map,
    Verb::Map,
    Verb::Map,
    Verb::UnmapAll,
    Verb::Bind,
    Verb::Bind,
    Verb::Bind,
    Verb::Bind,
    Verb::Bind,
    Verb::Bind,
    Verb::Rewind,
    Verb::Rewind,
    Verb::Withdraw,
    Verb::Withdraw,
    Verb::Withdraw,
    Verb::Settle,
];

/// Takes a turn by chance. Whether it came out right: an operation only waits for the next request.
fn turn(
    alloc: Global,
    space: &mut Space,
    journal: &mut Journal,
    watch: &mut Watch,
    round: &mut Round,
    random: &mut Random,
) -> Result<bool, Fault>
    requires { FitsSpace space.old journal.old }
    ensures { FitsSpace space.new journal.new }
{
    let verb = TURN[random.below(24) as usize];
    match verb {
        Verb::Map => push(&mut round.ops, operation(random, &watch.ids, &AREA))?,
        Verb::UnmapAll => {
            let buffer = id_of(&watch.ids, random.below(3));
            push(&mut round.ops, Op::UnmapBuffer { buffer })?;
        }
        _ => {
            let held = journal.items().len() as u64;
            let entry = random.below(held.saturating_add(1));
            let number = journal.first().saturating_add(entry);
            let clause = Clause {
                verb,
                numbers: [number, 0, 0, 0],
            };
            return answer(alloc, space, journal, watch, round, &clause);
        }
    }
    Ok(true)
}

/// Makes a call. Whether it answers what it has to, and all that is held is right after it.
fn answer(
    alloc: Global,
    space: &mut Space,
    journal: &mut Journal,
    watch: &mut Watch,
    round: &mut Round,
    clause: &Clause,
) -> Result<bool, Fault>
    requires { FitsSpace space.old journal.old }
    ensures { FitsSpace space.new journal.new }
{
    let wanted = round.answer(alloc, clause)?;
    let said = call(
        alloc,
        space,
        journal,
        &mut watch.ids,
        clause,
        &mut round.ops,
    );
    Ok(said == wanted && round.agrees(alloc, space, journal, &watch.ids)?)
}

/// How many turns are taken on a space.
const TURNS: u32 = 400;

/// Takes turns, by the numbers of a seed.
pub fn play(
    alloc: Global,
    space: &mut Space,
    journal: &mut Journal,
    watch: &mut Watch,
    seed: u64,
) -> Result<(), Fault>
    requires { FitsSpace space.old journal.old }
    ensures { FitsSpace space.new journal.new }
{
    let mut round = Round::new(alloc, space, &watch.ids)?;
    let mut random = Random::new(seed);
    for turn_number in 0..TURNS {
        let is_right = turn(alloc, space, journal, watch, &mut round, &mut random)?;
        watch.count(is_right);
    }
    tell(&mut watch.text, &[("right ", Some(watch.right_count))]);
    Ok(())
}

/// Buffers of six pages.
const ONE: Row = ("create 6", "number 0");

const TWO: Row = ("create 6", "number 1");

const THREE: Row = ("create 6", "number 2");

const SEEDS: [Row; 7] = [
    ("turns 0", "right 400"),
    ("turns 1", "right 400"),
    ("turns 2", "right 400"),
    ("turns 3", "right 400"),
    ("turns 4", "right 400"),
    ("turns 5", "right 400"),
    ("turns 6", "right 400"),
];

#[test]
fn chance_agrees_with_the_definitions(rt: HostRuntime) {
    for row in SEEDS {
        expect(&rt, (3, 64, 40), &[ONE, TWO, THREE, row]);
    }
}

const SMALL_SEEDS: [Row; 7] = [
    ("turns 100", "right 400"),
    ("turns 101", "right 400"),
    ("turns 102", "right 400"),
    ("turns 103", "right 400"),
    ("turns 104", "right 400"),
    ("turns 105", "right 400"),
    ("turns 106", "right 400"),
];

#[test]
fn chance_agrees_under_small_limits(rt: HostRuntime) {
    for row in SMALL_SEEDS {
        expect(&rt, (3, 4, 6), &[ONE, TWO, THREE, row]);
    }
}
