//! A list of mappings read from its text.

use crate::fault::{CompareFault, Which};
use crate::objects::Objects;
use crate::row::Row;
use gv_lines::split_once;
use gv_logs::GPUVAS_HEAD;
use gv_types::{BUFFER_PAGES, Backing, BufferId, Flags, Mapping};
use std::alloc::Global;
use std::str;

/// What kind of list a text is.
#[derive(Clone, Copy, Debug, PartialEq, Eq)]
pub enum Kind {
    /// What a script's line `map` is answered.
    Map,
    /// A kernel's `gpuvas`.
    Dump,
}

/// A mapping, and the number of its line.
#[derive(Clone, Copy, Debug, Drop)]
struct NumberedMapping {
    mapping: Mapping,
    line: u64,
}

/// A list: its kind, and its mappings in ascending order, none of which overlap.
#[derive(Debug, Drop)]
pub struct Listing {
    pub kind: Kind,
    pub mappings: Vec<Mapping>,
}

impl Kind {
    /// A text is a `gpuvas` where a line is its head, or a row of it; what a script is answered has no such line.
    fn of(text: &[u8]) -> Kind {
        let mut rest = text;
        while let Some((line, after)) = split_once(rest, b'\n') {
            if is_of_dump(line) {
                return Kind::Dump;
            }
            rest = after;
        }
        if is_of_dump(rest) {
            Kind::Dump
        } else {
            Kind::Map
        }
    }
}

impl Listing {
    /// The list of a text.
    pub fn read(
        alloc: Global,
        objects: &mut Objects,
        list: Which,
        text: &[u8],
    ) -> Result<Listing, CompareFault> {
        let kind = Kind::of(text);
        let mut reading = Reading {
            kind,
            list,
            line: 0,
            end: 0,
            overlapping: None,
            mappings: Vec::new(alloc),
            numbered: Vec::new(alloc),
        };
        let mut rest = text;
        while let Some((line, after)) = split_once(rest, b'\n') {
            reading.take(objects, line)?;
            rest = after;
        }
        if !rest.is_empty() {
            reading.take(objects, rest)?;
        }
        reading.finish(alloc)
    }
}

/// A list whose text is being read.
#[derive(Drop)]
struct Reading {
    kind: Kind,
    list: Which,
    line: u64,
    // Of a `map`, whose lines have to ascend: where its last mapping ends, the first line that begins before that, and its mappings.
    end: u64,
    overlapping: Option<u64>,
    mappings: Vec<Mapping>,
    // Of a `gpuvas`, whose rows are sorted.
    numbered: Vec<NumberedMapping>,
}

impl Reading {
    /// Takes the next line.
    fn take(&mut self, objects: &mut Objects, line: &[u8]) -> Result<(), CompareFault> {
        // The borrow checker proves this only where the function names the types inside the mapping.
        let _backing = Backing::Zero;
        self.line = self.line.saturating_add(1);
        let fault = CompareFault::NoMapping {
            list: self.list,
            line: self.line,
        };
        let row = match self.kind {
            Kind::Map => Row::of_map(line),
            Kind::Dump => None,
        };
        let row = match row {
            Some(row) => row,
            None => match self.other(line) {
                Ok(Some(row)) => row,
                Ok(None) => return Ok(()),
                Err(_) => return Err(fault),
            },
        };
        let mapping = mapping_of(objects, row)?.ok_or(fault)?;
        self.place(mapping)
    }

    /// The row of a line that `Row::of_map` doesn't read, and none where it is no mapping but may stand in such a list.
    fn other(&self, line: &[u8]) -> Result<Option<Row>, NoRow> {
        let text = str::from_utf8(line).map_err(|_| NoRow)?;
        let row = match self.kind {
            Kind::Map if text == "empty" => return Ok(None),
            Kind::Map => return Err(NoRow),
            Kind::Dump if is_between_rows(text) => return Ok(None),
            Kind::Dump => Row::of_dump(text),
        };
        match row {
            Some(row) => Ok(Some(row)),
            None => Err(NoRow),
        }
    }

    /// Adds the mapping of the line.
    fn place(&mut self, mapping: Mapping) -> Result<(), CompareFault> {
        let line = self.line;
        if self.kind == Kind::Dump {
            return Ok(self.numbered.push(NumberedMapping { mapping, line })?);
        }
        if mapping.range.first() < self.end && self.overlapping.is_none() {
            self.overlapping = Some(line);
        }
        self.end = mapping.range.end();
        Ok(self.mappings.push(mapping)?)
    }

    /// The list, once all lines are read.
    fn finish(self, alloc: Global) -> Result<Listing, CompareFault> {
        let Reading {
            kind,
            list,
            line: _,
            end: _,
            overlapping,
            mappings,
            numbered,
        } = self;
        if let Some(line) = overlapping {
            return Err(CompareFault::Overlapping { list, line });
        }
        if kind == Kind::Map {
            return Ok(Listing { kind, mappings });
        }
        let mappings = sorted(alloc, list, numbered)?;
        Ok(Listing { kind, mappings })
    }
}

/// A line is no mapping.
#[derive(Clone, Copy, Debug)]
struct NoRow;

/// Mappings in ascending order.
fn sorted(
    alloc: Global,
    list: Which,
    mut numbered: Vec<NumberedMapping>,
) -> Result<Vec<Mapping>, CompareFault> {
    numbered.sort_by_key(|numbered| numbered.mapping.range.first())?;
    let mut mappings = Vec::new(alloc);
    let mut end = 0;
    for item in &numbered {
        let mapping = item.mapping;
        if mapping.range.first() < end {
            return Err(CompareFault::Overlapping {
                list,
                line: item.line,
            });
        }
        end = mapping.range.end();
        mappings.push(mapping)?;
    }
    Ok(mappings)
}

/// The mapping of a row, if a buffer has so many pages.
pub fn mapping_of(objects: &mut Objects, row: Row) -> Result<Option<Mapping>, CompareFault> {
    let Row {
        range,
        object,
        page,
        read_only,
    } = row;
    let backing = match object {
        Some(object) => Backing::Buffer {
            id: BufferId::new(objects.number_of(object)?, 0),
            page,
        },
        None => Backing::Zero,
    };
    if page > BUFFER_PAGES || range.count() > BUFFER_PAGES - page && backing != Backing::Zero {
        return Ok(None);
    }
    Ok(Some(Mapping {
        range,
        backing,
        flags: Flags { read_only },
    }))
}

/// Whether only a `gpuvas` has such a line.
pub fn is_of_dump(line: &[u8]) -> bool {
    // Nearly no line begins so, and then nothing more is asked.
    match line.trim_ascii_start().first() {
        Some(b'D' | b'|') => {}
        _ => return false,
    }
    let Ok(text) = str::from_utf8(line) else {
        return false;
    };
    let text = text.trim_ascii();
    text.starts_with(GPUVAS_HEAD) || text.starts_with("|")
}

/// Whether a line of a `gpuvas` stands above its rows or between them: the name of a space, its reserved region, the names
/// of the columns, a rule, or nothing.
pub fn is_between_rows(line: &str) -> bool {
    let text = line.trim_ascii();
    text.is_empty()
        || text.starts_with(GPUVAS_HEAD)
        || text.starts_with("Kernel reserved")
        || text.starts_with("VAs |")
        || text.starts_with("---")
}
