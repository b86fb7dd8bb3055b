//! How large the objects of a log are.

use crate::chosen::Chosen;
use crate::fault::ReplayFault;
use crate::objects::Objects;
use crate::terms::Terms;
use gv_io::Source;
use gv_logs::{AmdgpuEvent, AmdgpuLine, Found, GpuvasLine, LineReader, LogLine};
use gv_types::{BUFFER_PAGES, PAGE_BYTES};
use std::alloc::{AllocError, Global};
use std::collections::HashMap;

/// How many pages each object of a log has, in the order in which they come up: what the line says that makes it, and else the
/// greatest end of its mappings. Where the address spaces of a log are told apart, those of each.
#[derive(Drop)]
pub struct Sizes {
    one: Vec<u64>,
    indices: HashMap<u64, usize>,
    each: Vec<Vec<u64>>,
}

impl Sizes {
    /// How many pages the object at an index has, in the address space of this number, or in the only one. A log that was changed
    /// meanwhile may have more of them.
    pub fn pages(&self, space: Option<u64>, index: usize) -> u64 {
        let known = match space {
            Some(number) => self.of_space(number),
            None => Some(&self.one),
        };
        match known {
            Some(pages) => pages.get(index).copied().unwrap_or(BUFFER_PAGES),
            None => BUFFER_PAGES,
        }
    }

    fn of_space(&self, number: u64) -> Option<&Vec<u64>> {
        let index = self.indices.get(&number).copied()?;
        self.each.get(index)
    }

    /// Whether the address spaces of the log are told apart.
    pub fn are_of_each(&self) -> bool {
        !self.each.is_empty()
    }
}

/// What is known so far of an object.
#[derive(Clone, Copy)]
struct Size {
    pages: u64,
    is_said: bool,
}

/// Objects so far, of all address spaces and of each, how many heads there were, whose rows are taken, and whether each line so far tells
/// its address space.
#[derive(Drop)]
struct Measured {
    one: Objects<Size>,
    indices: HashMap<u64, usize>,
    each: Vec<Objects<Size>>,
    heads: u64,
    chosen: Chosen,
    are_apart: bool,
}

/// Reads a log for the sizes of its objects. It is to be read again for the replay.
pub fn measure<R: Source>(
    alloc: Global,
    reader: &mut R,
    terms: &Terms<'_>,
) -> Result<Sizes, ReplayFault> {
    let mut lines = LineReader::new(alloc)?;
    let mut measured = Measured::new(alloc, terms)?;
    measured.take_all(alloc, reader, &mut lines, terms)?;
    Ok(measured.end(alloc)?)
}

/// The pages of objects.
fn pages_of(alloc: Global, objects: Objects<Size>) -> Result<Vec<u64>, AllocError> {
    let mut pages = Vec::new(alloc);
    for size in objects.into_known() {
        pages.push(size.pages)?;
    }
    Ok(pages)
}

/// The pages of the objects of each space, and none where the spaces aren't told apart.
fn pages_of_each(
    alloc: Global,
    each: Vec<Objects<Size>>,
    are_apart: bool,
) -> Result<Vec<Vec<u64>>, AllocError> {
    let mut pages = Vec::new(alloc);
    if are_apart {
        for objects in each {
            pages.push(pages_of(alloc, objects)?)?;
        }
    }
    Ok(pages)
}

impl Measured {
    fn new(alloc: Global, terms: &Terms<'_>) -> Result<Measured, ReplayFault> {
        let chosen = Chosen::new(terms)?;
        Ok(Measured {
            one: Objects::new(alloc),
            indices: HashMap::new(alloc),
            each: Vec::new(alloc),
            heads: 0,
            chosen,
            are_apart: terms.takes_each(),
        })
    }

    fn take_all<R: Source>(
        &mut self,
        alloc: Global,
        reader: &mut R,
        lines: &mut LineReader,
        terms: &Terms<'_>,
    ) -> Result<(), ReplayFault> {
        for _lines in 0..u64::MAX {
            match lines.find_next(reader)? {
                Found::Line => self.take(alloc, lines.line(), terms)?,
                Found::TooLong => {}
                Found::End => break,
            }
        }
        Ok(())
    }

    fn take(&mut self, alloc: Global, line: &[u8], terms: &Terms<'_>) -> Result<(), AllocError> {
        if !terms.format.wants_sizes() {
            return Ok(());
        }
        match terms.format.parse(line) {
            Some(LogLine::Amdgpu(line)) if line.head.is_of(terms.pid) => {
                self.take_event(alloc, &line)
            }
            Some(LogLine::Gpuvas(line)) => self.take_row(alloc, line),
            _ => Ok(()),
        }
    }

    /// An event, which is of one space if it doesn't tell its process: then all are.
    fn take_event(&mut self, alloc: Global, line: &AmdgpuLine) -> Result<(), AllocError> {
        self.one.take(line)?;
        let Some(process) = line.head.process else {
            self.are_apart = false;
            return Ok(());
        };
        if !self.are_apart {
            return Ok(());
        }
        let index = self.index_of(alloc, process)?;
        match self.each.get_mut(index) {
            Some(objects) => objects.take(line),
            None => Ok(()),
        }
    }

    /// A row of an address space that is taken.
    fn take_row(&mut self, alloc: Global, line: GpuvasLine) -> Result<(), AllocError> {
        let GpuvasLine::Mapping(row) = line else {
            self.heads = self.heads.saturating_add(1);
            return Ok(());
        };
        let number = self.heads.max(1);
        if self.are_apart {
            let index = self.index_of(alloc, number)?;
            if let Some(objects) = self.each.get_mut(index) {
                return objects.reach(row.object, row.offset, row.len);
            }
        } else if self.chosen.takes_rows(number) {
            return self.one.reach(row.object, row.offset, row.len);
        }
        Ok(())
    }

    /// The index of an address space, which comes up where it isn't known.
    fn index_of(&mut self, alloc: Global, number: u64) -> Result<usize, AllocError> {
        if let Some(index) = self.indices.get(&number).copied() {
            return Ok(index);
        }
        let index = self.each.len();
        self.each.reserve(1)?;
        let _none = self.indices.insert(number, index)?;
        self.each.push_reserved(Objects::new(alloc));
        Ok(index)
    }

    fn end(self, alloc: Global) -> Result<Sizes, AllocError> {
        let Measured {
            one,
            indices,
            each,
            heads: _,
            chosen: _,
            are_apart,
        } = self;
        let each = pages_of_each(alloc, each, are_apart)?;
        Ok(Sizes {
            one: pages_of(alloc, one)?,
            indices,
            each,
        })
    }
}

impl Objects<Size> {
    /// An event of an object.
    fn take(&mut self, line: &AmdgpuLine) -> Result<(), AllocError> {
        match line.event {
            AmdgpuEvent::Made { pages } => {
                let size = Size {
                    pages,
                    is_said: true,
                };
                let _index = self.add(line.object, size)?;
                Ok(())
            }
            AmdgpuEvent::Mapped { len, offset, .. } => self.reach(line.object, offset, len),
            AmdgpuEvent::Unmapped { .. } => Ok(()),
        }
    }

    /// A mapping of an object has these of its bytes.
    fn reach(&mut self, pointer: u64, offset: u64, len: u64) -> Result<(), AllocError> {
        if pointer == 0 {
            return Ok(());
        }
        let end = offset.saturating_add(len).div_ceil(PAGE_BYTES);
        let pages = end.min(BUFFER_PAGES);
        let Some(index) = self.index_of(pointer) else {
            let size = Size {
                pages,
                is_said: false,
            };
            let _index = self.add(pointer, size)?;
            return Ok(());
        };
        match self.get(index).copied() {
            Some(size) if !size.is_said && size.pages < pages => {
                self.set(
                    index,
                    Size {
                        pages,
                        is_said: false,
                    },
                );
                Ok(())
            }
            _ => Ok(()),
        }
    }
}
