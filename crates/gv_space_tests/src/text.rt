//! What is seen of a space, in text. Where memory is out, text is missing, and no row expects that.
use gv_ranges::RangeList;
use gv_split::Step;
use gv_types::{Backing, BufferId, Entry, Fault, Mapping, PageRange};

/// A word, and the number after it; a dash where there is none.
pub type Told = (&'static str, Option<u64>);

pub fn add(text: &mut String, word: &str) {
    let _ = text.push_str(word);
}

pub fn tell(text: &mut String, parts: &[Told]) {
    for (word, number) in parts {
        let _ = match number {
            Some(number) => write!(text, "{word}{number}"),
            None => write!(text, "{word}-"),
        };
    }
}

/// Why something is refused, where it is.
pub fn tell_refusal(text: &mut String, said: Result<(), Fault>) {
    if let Err(fault) = said {
        let _ = write!(text, "refused {fault}");
    }
}

/// What stands behind pages: a buffer, by the order in which buffers were made, and its page; or zeros.
fn tell_entry(text: &mut String, entry: &Entry, ids: &[BufferId]) {
    match entry.backing {
        Backing::Buffer { id, page } => {
            let position = ids.iter().position(|other| *other == id);
            let position = position.map(|position| position as u64);
            tell(text, &[(" b", position), (" ", Some(page))]);
        }
        Backing::Zero => add(text, " zero"),
    }
    add(text, if entry.flags.read_only { " ro" } else { "" });
}

/// A word, and what a page holds.
pub fn tell_held(text: &mut String, word: &str, entry: Option<Entry>, ids: &[BufferId]) {
    add(text, word);
    match &entry {
        Some(entry) => tell_entry(text, entry, ids),
        None => add(text, " none"),
    }
}

/// A word and a mapping: its first page, the page past its end, and what stands behind it.
fn tell_mapping(text: &mut String, word: &'static str, mapping: &Mapping, ids: &[BufferId]) {
    let (first, end) = (mapping.range.first(), mapping.range.end());
    tell(text, &[(word, Some(first)), (" ", Some(end))]);
    let entry = Entry {
        backing: mapping.backing,
        flags: mapping.flags,
    };
    tell_entry(text, &entry, ids);
}

pub fn tell_list(text: &mut String, list: &RangeList, ids: &[BufferId]) {
    for mapping in list.iter() {
        tell_mapping(text, "", &mapping.mapping(), ids);
        add(text, "; ");
    }
}

/// A word, and how many tables stand at the levels 4, 3, 2, 1 and 0.
pub fn tell_tables(text: &mut String, word: &str, tables: [u64; 5]) {
    add(text, word);
    for count in &tables {
        tell(text, &[(" ", Some(*count))]);
    }
}

pub fn tell_ranges(text: &mut String, ranges: &[PageRange]) {
    for range in ranges {
        tell(text, &[("", Some(range.first())), (" ", Some(range.end()))]);
        add(text, "; ");
    }
}

/// A step: its mapping, its rests, and whether the pages are kept.
fn tell_step(text: &mut String, step: &Step, ids: &[BufferId]) {
    let (word, mapping, rests, keep) = match *step {
        Step::Unmap { mapping, keep } => ("unmap ", mapping, [None, None], keep),
        Step::Remap {
            mapping,
            prev,
            next,
            keep,
        } => ("remap ", mapping, [prev, next], keep),
        Step::Map { mapping } => ("map ", mapping, [None, None], false),
    };
    tell_mapping(text, word, &mapping, ids);
    for (word, rest) in [", prev ", ", next "].iter().zip(&rests) {
        if let Some(rest) = rest {
            tell_mapping(text, word, rest, ids);
        }
    }
    add(text, if keep { " keep; " } else { "; " });
}

pub fn tell_steps(text: &mut String, steps: &[Step], ids: &[BufferId]) {
    for step in steps {
        tell_step(text, step, ids);
    }
}
