//! The questions of rows (`look`, `plan`, `count` ..): writes what a space answers.
use crate::operations::{ZERO, id_of, op_of};
use crate::text::{add, tell, tell_held, tell_list, tell_ranges, tell_steps, tell_tables};
use crate::words::{Clause, Verb};
use gv_space::Space;
use gv_types::{Backing, BufferId, Fault};
use std::alloc::Global;

/// Writes what a space answers, whose buffers are these.
pub fn ask(
    alloc: Global,
    space: &Space,
    ids: &[BufferId],
    asked: &Clause,
    about: &Clause,
    text: &mut String,
) -> Result<(), Fault> {
    let number = asked.numbers[0];
    let id = id_of(ids, number);
    match asked.verb {
        Verb::List => tell_list(text, space.list(), ids),
        Verb::Look => {
            tell_list(text, space.list(), ids);
            tell(
                text,
                &[("uses ", space.uses(id)), (" kept ", space.kept(id))],
            );
            tell_tables(text, " tables", space.tables());
        }
        Verb::Tables => tell_tables(text, "tables", space.tables()),
        Verb::Count => {
            tell(
                text,
                &[
                    ("pages ", space.pages(id)),
                    (" uses ", space.uses(id)),
                    (" kept ", space.kept(id)),
                ],
            );
        }
        Verb::Page => {
            tell_held(text, "found", space.find(number), ids);
            tell_held(text, ", walked", space.walk(number), ids);
        }
        Verb::Ranges => tell_ranges(text, &space.buffer_ranges(alloc, id)?),
        _ => return ask_about(alloc, space, ids, asked, about, text),
    }
    Ok(())
}

/// The limits of a space, or what it says of an operation.
fn ask_about(
    alloc: Global,
    space: &Space,
    ids: &[BufferId],
    asked: &Clause,
    about: &Clause,
    text: &mut String,
) -> Result<(), Fault> {
    // The borrow checker proves this only where the function names the types inside the steps.
    let _backing = Backing::Zero;
    let op = op_of(ids, about).unwrap_or(ZERO);
    match asked.verb {
        Verb::Limits => {
            let limits = space.limits();
            tell(
                text,
                &[
                    ("buffers ", Some(limits.buffers())),
                    (" mappings ", Some(limits.mappings())),
                ],
            );
        }
        Verb::Plan => tell_steps(text, &space.plan(alloc, &op)?, ids),
        Verb::Check => {
            space.bounds().check(&op)?;
            add(text, "done");
        }
        _ => add(text, "unknown"),
    }
    Ok(())
}
