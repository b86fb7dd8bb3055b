//! An iterator over a run of the list.
ghost use Rattle.std.specs.Prelude.{◌≡◌, ◌+◌, ◌<◌, ◌≤◌, length, take, drop};
ghost use Rattle.std.specs.Iterator.{YieldsFirstRef, item_count};
ghost use Rattle.gv_ranges.specs.List.{run};

use crate::RangeList;
use gv_chunks::Spot;
use gv_types::Packed;
use std::iter::FusedIterator;
use std::marker::Model;

/// The mappings of a run of a list that are unread, one after another. It goes through the list block by block.
#[derive(Drop)]
pub struct Run<'a> {
    list: &'a RangeList,
    end: usize,
    unread: usize,
    // Those that come next, as far as they were looked up: they may go beyond the run.
    block: &'a [Packed],
}

impl<'a> Model for Run<'a> {
    ghost use Rattle.std.specs.Prelude.{List, ◌-◌};
    ghost use Rattle.gv_types.specs.declared.mapping.Mapping.{Mapping};
    ghost use Rattle.gv_ranges.specs.List.{run, IsRunAhead};

    ghost Value = { List Mapping };

    ghost view = { λ r. run r.list.now.mappings (r.end - r.unread) r.unread };

    ghost invariant = { λ r. IsRunAhead r.list.now.mappings r.end r.unread r.block.now };
}

impl<'a> Run<'a> {
    /// The `count` mappings of a list from an index on.
    pub(crate) fn new(list: &'a RangeList, index: usize, count: usize) -> Run<'a>
        requires { index + count ≤ length list.now.mappings }
        ensures { result ≡ run list.now.mappings index count }
    {
        // Tells that indices are numbers of a machine.
        let _len = list.len();
        Run {
            list,
            end: index + count,
            unread: count,
            block: &[],
        }
    }

    /// The `count` mappings of a list from a spot on.
    #[inline(always)]
    pub(crate) fn at(list: &'a RangeList, spot: Spot, count: usize) -> Run<'a>
        requires { spot.index + count ≤ length list.now.mappings }
        ensures { result ≡ run list.now.mappings spot.index count }
    {
        // Tells that indices are numbers of a machine.
        let _len = list.len();
        Run {
            list,
            end: spot.index + count,
            unread: count,
            block: list.piece_at(spot),
        }
    }
}

/// The mappings from an index on: those of a block, where it has any.
fn block_at<'a>(list: &'a RangeList, index: usize, block: &'a [Packed]) -> &'a [Packed]
    requires within { index < length list.now.mappings }
    requires ahead { block.now ≡ take (length block.now) (drop index list.now.mappings) }
    ensures ahead { result.now ≡ take (length result.now) (drop index list.now.mappings) }
    ensures some { 0 < length result.now }
{
    if block.is_empty() {
        list.piece(index)
    } else {
        block
    }
}

impl<'a> Iterator for Run<'a> {
    type Item = &'a Packed;

    ghost next_gives = { YieldsFirstRef (λ rest. rest) };

    ghost remaining = { item_count (λ rest. rest) };

    fn next(&mut self) -> Option<&'a Packed> {
        if self.unread == 0 {
            return None;
        }
        let block = block_at(self.list, self.end - self.unread, self.block);
        self.block = &block[1..];
        self.unread -= 1;
        Some(&block[0])
    }

    fn size_hint(&self) -> (usize, Option<usize>) {
        (self.unread, Some(self.unread))
    }
}

impl<'a> ExactSizeIterator for Run<'a> {
    fn len(&self) -> usize {
        self.unread
    }
}

impl<'a> FusedIterator for Run<'a> {}
