//! Timelines: what one thread sees of them, and two.
ghost use Rattle.std.specs.Prelude.{◌≡◌, ◌≤◌, ◌<◌};
ghost use Rattle.gv_sync.specs.Seats.{IsSeatOf, timeline_count, first_seat};

use gv_sync::{Clock, Lacking, Reached, Seat, Timelines, laws};
use gv_types::Point;
use std::test::Fail;
use std::thread;
use std::thread::Threads;

const FULL: u64 = 18_446_744_073_709_551_615;

/// How often each of two threads raises.
const RAISES: u64 = 1_000;

fn at(timeline: u64, value: u64) -> Point
    ensures timeline { result.timeline ≡ timeline }
    ensures value { result.value ≡ value }
{
    Point { timeline, value }
}

/// What a look gave: whether it was reached, at which point, and the number seen.
fn sight(look: Result<Reached, Lacking>) -> (bool, Point, u64) {
    match look {
        Ok(reached) => (true, reached.point(), reached.seen()),
        Err(lacking) => (false, lacking.point(), lacking.have()),
    }
}

#[test]
fn one_thread_on_timelines(rt: HostRuntime) -> Result<(), Fail> {
    laws::raises();
    laws::steps();
    laws::shares();
    laws::seat_raises();
    let (timelines, mut seat) = Timelines::new(rt.alloc(), 2)?;
    let numbers = [
        timelines.count(),
        timelines.value(&mut seat, 0),
        timelines.raise(&mut seat, at(0, 5)),
        timelines.raise(&mut seat, at(0, 3)),
    ];
    assert_eq!(rt; numbers, [2, 0, 5, 5]);
    let looks = [
        sight(timelines.look(&mut seat, &at(0, 5))),
        sight(timelines.look(&mut seat, &at(0, 6))),
    ];
    assert_eq!(rt; looks, [(true, at(0, 5), 5), (false, at(0, 6), 5)]);
    let full = timelines.raise(&mut seat, at(1, FULL));
    let mut other = timelines.split(&mut seat)?;
    let numbers = [
        full,
        timelines.raise(&mut other, at(0, 9)),
        timelines.value(&mut seat, 0),
    ];
    assert_eq!(rt; numbers, [FULL, 9, 9]);
    Ok(())
}

/// Nobody raised a timeline before its first seat.
#[tactic(auto, using(crate::proofs::Fresh::replicated))]
fn value_at_first(timelines: &Timelines, seat: &mut Seat, timeline: u64) -> u64
    requires first { seat.old ≡ first_seat timelines.now }
    requires named { timeline < timeline_count timelines.now }
    ensures zero { result ≡ 0 }
    ensures own { IsSeatOf timelines.now seat.new }
{
    timelines.value(seat, timeline)
}

/// A seat that was split off has seen what the other saw, and each is no longer alone.
#[test]
fn a_seat_split_off(rt: HostRuntime) -> Result<(), Fail> {
    let (timelines, mut seat) = Timelines::new(rt.alloc(), 3)?;
    seat.has_each_mark();
    let first = value_at_first(&timelines, &mut seat, 2);
    let raised = timelines.raise(&mut seat, at(2, 4));
    let mut other = timelines.split(&mut seat)?;
    other.has_each_mark();
    let numbers = [
        first,
        raised,
        timelines.value(&mut other, 2),
        timelines.raise(&mut other, at(1, 8)),
    ];
    assert_eq!(rt; numbers, [0, 4, 4, 8]);
    let mut third = timelines.split(&mut other)?;
    drop(other);
    let numbers = [
        timelines.value(&mut third, 1),
        timelines.value(&mut seat, 1),
        timelines.value(&mut seat, 0),
    ];
    assert_eq!(rt; numbers, [8, 8, 0]);
    Ok(())
}

#[test]
fn one_thread_on_a_clock(rt: HostRuntime) -> Result<(), Fail> {
    let mut clock = Clock::new(rt.alloc(), 2)?;
    let numbers = [
        clock.count(),
        clock.value(0),
        clock.raise(at(0, 5)),
        clock.raise(at(0, 3)),
    ];
    assert_eq!(rt; numbers, [2, 0, 5, 5]);
    let looks = [sight(clock.look(&at(0, 5))), sight(clock.look(&at(0, 6)))];
    assert_eq!(rt; looks, [(true, at(0, 5), 5), (false, at(0, 6), 5)]);
    let numbers = [
        clock.raise(at(1, FULL)),
        clock.raise(at(0, 9)),
        clock.value(0),
    ];
    assert_eq!(rt; numbers, [FULL, 9, 9]);
    Ok(())
}

/// Raises timeline 0 to each second number from the first on. Whether no answer fell.
fn climb(timelines: &Timelines, mut seat: Seat, first: u64) -> bool
    requires own { IsSeatOf timelines.now seat }
    requires some { 0 < timeline_count timelines.now }
    requires first { first ≤ 2 }
{
    let mut last = 0;
    let mut rises = true;
    for k in 0..RAISES {
        let number = timelines.raise(&mut seat, at(0, first + 2 * k));
        rises = rises && last <= number;
        last = number;
    }
    rises
}

/// Two threads raise timeline 0, one to 1, 3, .., 1,999, the other to 2, 4, .., 2,000.
fn climb_both<R: Threads + Sync>(
    rt: &R,
    timelines: &Timelines,
    odd: Seat,
    even: Seat,
) -> (bool, bool)
    requires odd { IsSeatOf timelines.now odd }
    requires even { IsSeatOf timelines.now even }
    requires some { 0 < timeline_count timelines.now }
{
    thread::join(
        rt,
        move || climb(timelines, odd, 1),
        move || climb(timelines, even, 2),
    )
}

#[test]
fn two_threads(rt: HostRuntime) -> Result<(), Fail> {
    for _ in 0..100u32 {
        let (timelines, mut seat) = Timelines::new(rt.alloc(), 1)?;
        let odd = timelines.split(&mut seat)?;
        let even = timelines.split(&mut seat)?;
        assert_eq!(rt; climb_both(&rt, &timelines, odd, even), (true, true));
        assert_eq!(rt; timelines.value(&mut seat, 0), 2_000);
    }
    Ok(())
}
