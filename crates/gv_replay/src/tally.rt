//! What a replay counts.

use crate::act::{Act, Cause, Moment};
use crate::fault::ReplayFault;
use crate::occurrence::{Head, Occurrence};
use gv_types::Op;
use std::alloc::Global;

/// A finding is told with so many occurrences, unless all are asked for.
const PLACES: usize = 3;

/// How often a finding was made, and where: the first occurrences, or all.
#[derive(Drop)]
pub struct Finding {
    count: u64,
    occurrences: Vec<Occurrence>,
    is_whole: bool,
}

impl Finding {
    fn new(alloc: Global, is_whole: bool) -> Finding {
        Finding {
            count: 0,
            occurrences: Vec::new(alloc),
            is_whole,
        }
    }

    pub fn count(&self) -> u64 {
        self.count
    }

    pub fn occurrences(&self) -> &[Occurrence] {
        self.occurrences.as_slice()
    }

    /// It was made here too.
    pub fn add(&mut self, occurrence: Occurrence) -> Result<(), ReplayFault> {
        // The borrow checker proves this only where the function names the types inside the occurrence.
        let _head = Head::Act {
            act: Act {
                moment: Moment {
                    line: 0,
                    time: None,
                },
                op: Op::Unmap { addr: 0, len: 0 },
                cause: Cause::Plain,
            },
        };
        self.count = self.count.saturating_add(1);
        if self.is_whole || self.occurrences.len() < PLACES {
            self.occurrences.push(occurrence)?;
        }
        Ok(())
    }
}

/// A finding by its key in JSON, and as it is told in text.
#[derive(Clone, Copy)]
pub struct FindingName {
    pub key: &'static str,
    pub name: &'static str,
    of: FindingKind,
}

/// What may be found.
#[derive(Clone, Copy)]
enum FindingKind {
    OverLive,
    OfNothing,
    StillReached,
    ToNoMemory,
    Refused,
}

/// The findings in the order in which they are told.
pub const FINDINGS: &[FindingName] = &[
    FindingName {
        key: "over_live",
        name: "maps over live mappings",
        of: FindingKind::OverLive,
    },
    FindingName {
        key: "of_nothing",
        name: "unmaps of nothing",
        of: FindingKind::OfNothing,
    },
    FindingName {
        key: "still_reached",
        name: "freed buffers that other mappings still reached",
        of: FindingKind::StillReached,
    },
    FindingName {
        key: "to_no_memory",
        name: "binds to no live memory",
        of: FindingKind::ToNoMemory,
    },
    FindingName {
        key: "refused",
        name: "refused",
        of: FindingKind::Refused,
    },
];

/// What a replay counts, and its findings.
#[derive(Drop)]
pub struct Tally {
    /// Lines of the format, of whatever process.
    pub lines: u64,
    /// Lines that did nothing: of no such format, too long, or of another process or address space.
    pub passed_over: u64,
    /// Events that only touch what stands.
    pub touched: u64,
    pub binds: u64,
    pub buffers: u64,
    pub over_live: Finding,
    pub of_nothing: Finding,
    pub still_reached: Finding,
    pub to_no_memory: Finding,
    pub refused: Finding,
}

impl Tally {
    pub fn new(alloc: Global, all: bool) -> Tally {
        Tally {
            lines: 0,
            passed_over: 0,
            touched: 0,
            binds: 0,
            buffers: 0,
            over_live: Finding::new(alloc, all),
            of_nothing: Finding::new(alloc, all),
            still_reached: Finding::new(alloc, all),
            to_no_memory: Finding::new(alloc, all),
            refused: Finding::new(alloc, all),
        }
    }

    /// The finding that is told so.
    pub fn finding(&self, told: &FindingName) -> &Finding {
        match told.of {
            FindingKind::OverLive => &self.over_live,
            FindingKind::OfNothing => &self.of_nothing,
            FindingKind::StillReached => &self.still_reached,
            FindingKind::ToNoMemory => &self.to_no_memory,
            FindingKind::Refused => &self.refused,
        }
    }

    /// Whether anything was found.
    pub fn has_finding(&self) -> bool {
        self.over_live.count() > 0
            || self.of_nothing.count() > 0
            || self.still_reached.count() > 0
            || self.to_no_memory.count() > 0
            || self.refused.count() > 0
    }

    /// One line more of the format.
    pub fn count_line(&mut self) {
        self.lines = self.lines.saturating_add(1);
    }

    /// One event more that only touches what stands.
    pub fn count_touch(&mut self) {
        self.touched = self.touched.saturating_add(1);
    }

    /// One line more that did nothing.
    pub fn pass_over(&mut self) {
        self.passed_over = self.passed_over.saturating_add(1);
    }
}
