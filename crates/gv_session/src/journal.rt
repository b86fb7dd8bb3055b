//! The text of the journal.
ghost use Rattle.std.specs.Prelude.{◌≡◌, ◌+◌, ◌^◌, ◌<◌, ◌++◌, ◌||◌, ◌∷◌, [], ℕ, false, length, reverse, IfOk, OnOk, string_bytes, slice_index_or};
ghost use Rattle.std.specs.List.{list_any};
ghost use Rattle.gv_journal.specs.Items.{JournalState, names};
ghost use Rattle.gv_session.specs.Texts.{reply, kind_text, liveness_text, journal_reply};

use gv_journal::{Item, ItemKind};
use gv_types::OutOfMemory;
use std::alloc::{AllocError, Global};
use std::fmt::Write;

fn liveness_word(withdrawn: bool) -> &'static str
    ensures { result.now ≡ liveness_text withdrawn }
{
    if withdrawn { "withdrawn" } else { "live" }
}

/// Writes an item: its number, what it is, and of a request whether it is withdrawn.
fn write_item(
    out: &mut String,
    entry: u64,
    kind: &ItemKind,
    withdrawn: bool,
) -> Result<(), AllocError>
    ensures { OnOk result (string_bytes out.new
        ≡ string_bytes out.old ++ reply (kind_text entry kind.now withdrawn ∷ [])) }
{
    match kind {
        ItemKind::Bind { queue, number, .. } => {
            write!(out, "{entry} bind {queue} {number} ")?;
            out.push_str(liveness_word(withdrawn))?;
        }
        ItemKind::Withdrawal { of } => write!(out, "{entry} withdrawal of {of}")?,
    }
    out.push_str("\n")
}

/// Marks the item that another one withdraws, if it is among so many from this number on.
fn mark(marks: &mut Vec<bool>, first: u64, kind: &ItemKind)
    ensures len { length marks.new.items ≡ length marks.old.items }
    ensures marks { (k : ℕ) → k < length marks.old.items → slice_index_or marks.new.items k false
        ≡ (slice_index_or marks.old.items k false || names kind.now (first + k)) }
{
    match kind {
        ItemKind::Bind { .. } => {}
        ItemKind::Withdrawal { of } => {
            if *of >= first && *of - first < marks.len() as u64 {
                marks[(*of - first) as usize] = true;
            }
        }
    }
}

/// Which of some items, the first of which has this number, are withdrawn by others of them.
fn withdrawn_among(alloc: Global, first: u64, items: &[Item]) -> Result<Vec<bool>, OutOfMemory>
    ensures len { IfOk result (λ marks. length marks.items ≡ length items.now) }
    ensures marks { IfOk result (λ marks. (k : ℕ) → k < length items.now
        → slice_index_or marks.items k false ≡ list_any (λ item. names item.kind (first + k)) items.now) }
{
    let mut marks = vec![in alloc; false; items.len()]?;
    for item in items {
        mark(&mut marks, first, &item.kind);
    }
    Ok(marks)
}

/// Writes the items of a journal, the oldest of which has this number. Memory is asked for to mark those that are withdrawn.
pub fn write_journal(
    alloc: Global,
    out: &mut String,
    first: u64,
    items: &[Item],
) -> Result<(), OutOfMemory>
    requires { first + length items.now < 2 ^ 64 }
    ensures { OnOk result ((j : JournalState) → items.now ≡ reverse j.items → first ≡ j.first
        → string_bytes out.new ≡ string_bytes out.old ++ journal_reply j) }
{
    if items.is_empty() {
        return Ok(out.push_str("empty\n")?);
    }
    let marks = withdrawn_among(alloc, first, items)?;
    for (position, item) in items.iter().enumerate() {
        write_item(out, first + position as u64, &item.kind, marks[position])?;
    }
    Ok(())
}
