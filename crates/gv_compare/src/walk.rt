//! Two lists walked along from their first page: where they differ, and how far.
ghost use Rattle.std.specs.Prelude.{◌<◌, ◌≤◌, IsSome};
ghost use Rattle.gv_types.specs.Page.{PAGES};

use gv_types::{Entry, Mapping, PageRange, SPACE_PAGES};

/// Pages at which two lists differ, as many as go on alike: what the lists hold at its first page, and at each further page
/// what follows it there.
#[derive(Clone, Copy, Debug, PartialEq, Eq)]
pub struct Difference {
    pub range: PageRange,
    pub lhs: Option<Entry>,
    pub rhs: Option<Entry>,
}

/// What a list holds at a page, and the first page past it that it may hold otherwise.
#[derive(Clone, Copy, Debug)]
struct Ahead {
    now: Option<Entry>,
    until: u64,
}

/// Two lists from a page on: of each, the mappings that end past it.
#[derive(Debug, Drop)]
pub struct Walk<'a> {
    lhs: &'a [Mapping],
    rhs: &'a [Mapping],
    page: u64,
}

impl<'a> Walk<'a> {
    /// Two lists from page 0 on.
    pub fn new(lhs: &'a [Mapping], rhs: &'a [Mapping]) -> Walk<'a> {
        Walk { lhs, rhs, page: 0 }
    }

    /// What both hold at the page where the walk is.
    fn now(&self) -> (Option<Entry>, Option<Entry>) {
        (
            look_ahead(self.lhs, self.page).now,
            look_ahead(self.rhs, self.page).now,
        )
    }

    /// Goes on to the next page at which one of them may hold otherwise.
    fn go_on(&mut self)
        requires { self.old.page < PAGES }
        ensures rises { self.old.page < self.new.page }
        ensures within { self.new.page ≤ PAGES }
    {
        let lhs = look_ahead(self.lhs, self.page).until;
        let until = lhs.min(look_ahead(self.rhs, self.page).until);
        // For the prover: it lies past the page, since each remaining mapping ends there.
        let until = until.max(self.page + 1);
        self.lhs = passed(self.lhs, until);
        self.rhs = passed(self.rhs, until);
        self.page = until;
    }

    /// What both hold at the next page at which one of them may hold otherwise, unless the walk has ended.
    pub fn next_both(&mut self) -> Option<(Option<Entry>, Option<Entry>)>
        ensures { IsSome result → (self.old.page < self.new.page) × (self.new.page ≤ PAGES) }
    {
        if self.page >= SPACE_PAGES {
            return None;
        }
        let both = self.now();
        self.go_on();
        Some(both)
    }

    /// The next pages at which the lists differ, if there are any.
    pub fn next_difference(&mut self) -> Option<Difference>
        ensures { IsSome result → (self.old.page < self.new.page) × (self.new.page ≤ PAGES) }
    {
        while self.page < SPACE_PAGES {
            let (lhs, rhs) = self.now();
            if lhs != rhs {
                let first = self.page;
                self.go_while(&lhs, &rhs);
                return Some(Difference {
                    range: PageRange::between(first, self.page),
                    lhs,
                    rhs,
                });
            }
            self.go_on();
        }
        None
    }

    /// Goes on as long as both hold what follows these, which they hold where the walk is.
    fn go_while(&mut self, lhs: &Option<Entry>, rhs: &Option<Entry>)
        requires { self.old.page < PAGES }
        ensures rises { self.old.page < self.new.page }
        ensures within { self.new.page ≤ PAGES }
    {
        let first = self.page;
        self.go_on();
        while self.page < SPACE_PAGES && self.follow(lhs, rhs, self.page - first) {
            self.go_on();
        }
    }

    /// Whether both hold what follows these, so many pages on.
    fn follow(&self, lhs: &Option<Entry>, rhs: &Option<Entry>, pages: u64) -> bool {
        let (here, there) = self.now();
        here == further(lhs, pages) && there == further(rhs, pages)
    }
}

/// What follows an entry, so many pages on.
fn further(entry: &Option<Entry>, pages: u64) -> Option<Entry> {
    match entry {
        Some(entry) => Some(entry.advanced(pages)),
        None => None,
    }
}

/// What a list of mappings that end past a page holds there, and how far.
fn look_ahead(rest: &[Mapping], page: u64) -> Ahead
    ensures { result.until ≤ PAGES }
{
    let Some(mapping) = rest.first() else {
        return Ahead {
            now: None,
            until: SPACE_PAGES,
        };
    };
    let range = mapping.range;
    if range.first() <= page {
        Ahead {
            now: Some(Entry {
                backing: mapping.backing.advanced(page - range.first()),
                flags: mapping.flags,
            }),
            until: range.end(),
        }
    } else {
        Ahead {
            now: None,
            until: range.first(),
        }
    }
}

/// The mappings that end past a page, of a list of which at most the first doesn't.
fn passed(rest: &[Mapping], page: u64) -> &[Mapping] {
    match rest.split_first() {
        Some((mapping, others)) if mapping.range.end() <= page => others,
        _ => rest,
    }
}
