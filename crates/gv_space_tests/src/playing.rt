//! Rows played on a space: what each answers, after what was seen while it was played.
use crate::asking::ask;
use crate::changes::{bring_back, keep_first};
use crate::operations::{edits_of, id_of, ops_of};
use crate::text::{add, tell, tell_refusal};
use crate::watch::{Row, Watch};
use crate::words::{Clauses, Verb};
use crate::{edits, rounds};
use gv_buffers::Usage;
use gv_model::{Edit, push};
use gv_space::Space;
use gv_types::{Bounds, Fault, Limits};
use std::alloc::Global;
use std::process::Abort;

/// Plays a call on a buffer.
fn play(
    alloc: Global,
    space: &mut Space,
    watch: &mut Watch,
    clauses: &Clauses,
) -> Result<(), Fault> {
    let [number, job, ..] = clauses[0].numbers;
    let id = id_of(&watch.ids, number);
    watch.asked = clauses[1];
    match clauses[0].verb {
        Verb::Create => {
            let id = space.create(alloc, number)?;
            tell(&mut watch.text, &[("created ", Some(u64::from(id.index)))]);
            return Ok(push(&mut watch.ids, id)?);
        }
        Verb::Destroy => space.destroy(id)?,
        Verb::Read => space.join(alloc, id, job, Usage::Read)?,
        Verb::Write => space.join(alloc, id, job, Usage::Write)?,
        Verb::Leave => space.leave(number),
        Verb::Rounds => return rounds::play(alloc, space, watch, number, job),
        Verb::Edits => return edits::play(alloc, space, watch, number, job),
        _ => return play_edits(alloc, space, watch, clauses),
    }
    add(&mut watch.text, "done");
    Ok(())
}

/// Plays operations, or what is asked.
fn play_edits(
    alloc: Global,
    space: &mut Space,
    watch: &mut Watch,
    clauses: &Clauses,
) -> Result<(), Fault> {
    let ops = ops_of(alloc, &watch.ids, clauses)?;
    let edits = edits_of(alloc, &ops)?;
    play_all_of(alloc, space, watch, &edits, clauses)
}

/// Plays the edits that clauses stand for, or what is asked.
fn play_all_of(
    alloc: Global,
    space: &mut Space,
    watch: &mut Watch,
    edits: &[Edit],
    clauses: &Clauses,
) -> Result<(), Fault> {
    let [head, about, ..] = clauses;
    match head.verb {
        Verb::Stay => keep_first(alloc, space, watch, edits, head.numbers[0])?,
        Verb::Map | Verb::MapBytes | Verb::Zero | Verb::ZeroRo | Verb::Unmap => {
            keep_first(alloc, space, watch, edits, 1)?;
        }
        Verb::Restore => bring_back(alloc, space, watch, edits, clauses)?,
        _ => return ask(alloc, space, &watch.ids, head, about, &mut watch.text),
    }
    let (first, end) = watch.changed;
    tell(
        &mut watch.text,
        &[("changed ", Some(first)), (" ", Some(end))],
    );
    Ok(())
}

/// Plays rows on a space of these bounds, where the limits are so many buffers and mappings.
fn play_all(
    alloc: Global,
    bounds: Bounds,
    limits: (u64, u64),
    rows: &[Row],
) -> Result<Watch, Fault> {
    let limits = Limits::new(limits.0, limits.1, 1, 1).ok_or(Fault::BadSize)?;
    let mut space = Space::new(alloc, bounds, limits)?;
    let mut watch = Watch::new(alloc);
    for row in rows {
        let clauses = watch.begin(alloc, row);
        let said = play(alloc, &mut space, &mut watch, &clauses);
        tell_refusal(&mut watch.text, said);
        watch.check(row)?;
    }
    Ok(watch)
}

/// Asserts that no row was answered wrong.
pub fn expect_right(rt: &impl Abort, played: Result<Watch, Fault>) {
    let watch = played.expect(rt, "a space");
    let wrong = watch.wrong.as_str();
    assert!(rt; wrong.is_empty(), "{wrong}");
}

/// Asserts what rows answer on a space of these bounds, where the limits are so many buffers and mappings.
pub fn expect_in(
    rt: &(impl Abort + AllocGlobal),
    bounds: Bounds,
    limits: (u64, u64),
    rows: &[Row],
) {
    expect_right(rt, play_all(rt.alloc(), bounds, limits, rows));
}

/// The same on a space of all pages.
pub fn expect(rt: &(impl Abort + AllocGlobal), limits: (u64, u64), rows: &[Row]) {
    expect_in(rt, Bounds::whole(), limits, rows);
}

/// Three buffers of the greatest size, which come first where operations by chance follow.
pub const ONE: Row = ("create 68719476736", "created 0");

pub const TWO: Row = ("create 68719476736", "created 1");

pub const THREE: Row = ("create 68719476736", "created 2");
