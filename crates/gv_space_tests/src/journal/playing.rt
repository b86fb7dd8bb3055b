//! Rows played on a space and its journal.
ghost use Rattle.gv_journal.specs.Fits.{FitsSpace};

use crate::asking::ask;
use crate::journal::rounds;
use crate::judge::request_of;
use crate::operations::{id_of, ops_of};
use crate::playing::expect_right;
use crate::text::tell;
use crate::watch::{Row, Watch};
use crate::words::{Clause, Clauses, NOTHING, Verb};
use gv_journal::{Journal, ReadyRequest, Refusal};
use gv_model::push;
use gv_space::Space;
use gv_types::{Bounds, BufferId, Fault, Limits, Op};
use std::alloc::Global;
use std::process::Abort;

/// What a call answers: a number, or the operation that is refused, which is the first one where all is.
pub type Said = Result<u64, Refusal>;

pub fn whole(said: Result<u64, Fault>) -> Said {
    match said {
        Ok(number) => Ok(number),
        Err(fault) => Err(Refusal { op: 0, fault }),
    }
}

/// Binds the operations that wait for it: the number of the entry.
fn bind(alloc: Global, space: &mut Space, journal: &mut Journal, ops: &mut Vec<Op>) -> Said
    requires { FitsSpace space.old journal.old }
    ensures { FitsSpace space.new journal.new }
{
    let taken = std::mem::replace(ops, Vec::new(alloc));
    let ready = ReadyRequest {
        queue: 0,
        number: journal.next(),
        request: request_of(alloc, taken),
        seen: Vec::new(alloc),
    };
    journal.bind(alloc, space, ready)
}

/// Makes a buffer: its position in the table.
fn create(
    alloc: Global,
    space: &mut Space,
    journal: &Journal,
    ids: &mut Vec<BufferId>,
    pages: u64,
) -> Result<u64, Fault>
    requires { FitsSpace space.old journal.now }
    ensures { FitsSpace space.new journal.now }
{
    let id = space.create(alloc, pages)?;
    let BufferId { index, .. } = id;
    push(ids, id)?;
    Ok(u64::from(index))
}

/// Destroys a buffer: its position in the table.
fn destroy(space: &mut Space, journal: &Journal, id: BufferId) -> Result<u64, Fault>
    requires { FitsSpace space.old journal.now }
    ensures { FitsSpace space.new journal.now }
{
    let BufferId { index, .. } = id;
    space.destroy(id)?;
    Ok(u64::from(index))
}

/// Makes a call on the journal, or one on a buffer.
pub fn call(
    alloc: Global,
    space: &mut Space,
    journal: &mut Journal,
    ids: &mut Vec<BufferId>,
    clause: &Clause,
    ops: &mut Vec<Op>,
) -> Said
    requires { FitsSpace space.old journal.old }
    ensures { FitsSpace space.new journal.new }
{
    let number = clause.numbers[0];
    whole(match clause.verb {
        Verb::Create => create(alloc, space, journal, ids, number),
        Verb::Destroy => destroy(space, journal, id_of(ids, number)),
        Verb::Rewind => journal.rewind(space),
        Verb::Withdraw => journal.withdraw(alloc, space, number),
        Verb::Settle => journal.settle(space, number),
        _ => return bind(alloc, space, journal, ops),
    })
}

/// Plays a row.
fn play(
    alloc: Global,
    space: &mut Space,
    journal: &mut Journal,
    watch: &mut Watch,
    clauses: &Clauses,
) -> Result<(), Fault>
    requires { FitsSpace space.old journal.old }
    ensures { FitsSpace space.new journal.new }
{
    let head = &clauses[0];
    match head.verb {
        Verb::List | Verb::Count => {
            return ask(alloc, space, &watch.ids, head, &NOTHING, &mut watch.text);
        }
        Verb::Turns => return rounds::play(alloc, space, journal, watch, head.numbers[0]),
        _ => {}
    }
    let mut ops = ops_of(alloc, &watch.ids, clauses)?;
    match call(alloc, space, journal, &mut watch.ids, head, &mut ops) {
        Ok(number) => tell(&mut watch.text, &[("number ", Some(number))]),
        Err(Refusal { op, fault }) => write!(watch.text, "refused {op} {fault}")?,
    }
    Ok(())
}

/// Plays rows in turn.
fn play_all(
    alloc: Global,
    space: &mut Space,
    journal: &mut Journal,
    rows: &[Row],
) -> Result<Watch, Fault>
    requires { FitsSpace space.old journal.old }
    ensures { FitsSpace space.new journal.new }
{
    let mut watch = Watch::new(alloc);
    for row in rows {
        let clauses = watch.begin(alloc, row);
        play(alloc, space, journal, &mut watch, &clauses)?;
        watch.check(row)?;
    }
    Ok(watch)
}

/// Plays rows on a space of all pages, where the limits are so many buffers, mappings and items, and closes the journal.
fn play_closed(alloc: Global, limits: (u64, u64, u64), rows: &[Row]) -> Result<Watch, Fault> {
    let limits = Limits::new(limits.0, limits.1, limits.2, 1).ok_or(Fault::BadSize)?;
    let mut space = Space::new(alloc, Bounds::whole(), limits)?;
    let mut journal = Journal::new(alloc, limits.items());
    let played = play_all(alloc, &mut space, &mut journal, rows);
    journal.close(&mut space);
    played
}

/// Asserts what rows answer.
pub fn expect(rt: &(impl Abort + AllocGlobal), limits: (u64, u64, u64), rows: &[Row]) {
    expect_right(rt, play_closed(rt.alloc(), limits, rows));
}

/// Limits that the rows do not reach.
pub const MANY: (u64, u64, u64) = (8, 64, 64);
