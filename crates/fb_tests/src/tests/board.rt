//! A board whose jobs are numbers, to be squared. The test ends the process where it is out of memory, so that nothing
//! is dropped on the way.
ghost use Rattle.std.specs.Option.{ForSome};
ghost use Rattle.std.specs.Prelude.{◌≡◌, ◌*◌, Some, slice_get};
ghost use Rattle.fb_board.specs.Models.{IsIdleSeatOf, IsOpenerOf, IsSeatOf};

use super::phase::{DIGITS, EACH_ONCE, Squares};
use fb_board::{Board, MAX_JOBS, MAX_SEATS, Opener, Slip, WorkSeat};
use std::alloc::Global;
use std::mem::forget;
use std::process::Abort;
use std::thread::join;

pub fn square(job: u32) -> u64
    ensures { result ≡ job * job }
{
    let job = u64::from(job);
    job * job
}

#[test]
fn a_number_that_is_kept_is_named(rt: HostRuntime) {
    let alloc: Global = rt.alloc();
    let Ok(jobs) = vec![in alloc; 3, 4, 5] else {
        panic!(rt; "memory");
    };
    let Ok((board, opener, mut seats)) = Board::<Squares>::open(alloc, jobs, 2) else {
        panic!(rt; "memory");
    };
    let mut other = seats.remove(1);
    let mut seat = seats.remove(0);
    let Some((slip, job)) = board.draw(&mut seat) else {
        panic!(rt; "no number is left");
    };
    assert!(rt; slip.number() == 0 && job == 3);
    board.put_back(&mut seat, slip, square(job));
    let Some((kept, job)) = board.draw(&mut other) else {
        panic!(rt; "no number is left");
    };
    assert!(rt; kept.number() == 1 && job == 4);
    let Err(unfinished) = board.close(opener, seat) else {
        panic!(rt; "all are home");
    };
    assert!(rt; unfinished.number == 1);
    forget(seats);
    forget(other);
    forget(kept);
}

/// The board of the jobs 3, 4 and 5, with two seats.
struct Three {
    board: Board<Squares>,
    opener: Opener<Squares>,
    seat: WorkSeat<Squares>,
    other: WorkSeat<Squares>,
    ghost opened: { IsOpenerOf board opener },
    ghost first: { IsIdleSeatOf board seat },
    ghost second: { IsIdleSeatOf board other },
}

fn open_three(rt: &impl Abort, alloc: Global) -> Three {
    let Ok(jobs) = vec![in alloc; 3, 4, 5] else {
        panic!(rt; "memory");
    };
    let Ok((board, opener, mut seats)) = Board::<Squares>::open(alloc, jobs, 2) else {
        panic!(rt; "memory");
    };
    let other = seats.remove(1);
    let seat = seats.remove(0);
    forget(seats);
    Three {
        board,
        opener,
        seat,
        other,
    }
}

/// Draws the next number, which is this one, and squares its job.
fn draw_next(
    rt: &impl Abort,
    board: &Board<Squares>,
    seat: &mut WorkSeat<Squares>,
    number: usize,
) -> (Slip, u64)
    requires idle { IsIdleSeatOf board.now seat.old }
    ensures own { IsSeatOf board.now seat.new }
    ensures slip { seat.new.knows.slip ≡ Some result.0 }
    ensures does { ForSome (slice_get board.now.jobs result.0) (λ job. result.1 ≡ job * job) }
{
    let Some((slip, job)) = board.draw(seat) else {
        panic!(rt; "no number is left");
    };
    assert!(rt; slip.number() == number);
    (slip, square(job))
}

/// Draws the next number, which is this one, and puts it back.
fn do_next(rt: &impl Abort, board: &Board<Squares>, seat: &mut WorkSeat<Squares>, number: usize)
    requires idle { IsIdleSeatOf board.now seat.old }
    ensures idle { IsIdleSeatOf board.now seat.new }
{
    let (slip, done) = draw_next(rt, board, seat, number);
    board.put_back(seat, slip, done);
}

/// The number that is named is none that another seat has brought back.
#[test]
fn a_number_that_another_seat_brought_back_is_not_named(rt: HostRuntime) {
    let Three {
        board,
        opener,
        mut seat,
        mut other,
    } = open_three(&rt, rt.alloc());
    do_next(&rt, &board, &mut seat, 0);
    do_next(&rt, &board, &mut other, 1);
    let (kept, _) = draw_next(&rt, &board, &mut other, 2);
    let Err(unfinished) = board.close(opener, seat) else {
        panic!(rt; "all are home");
    };
    assert!(rt; unfinished.number == 2);
    forget(other);
    forget(kept);
}

/// A seat that drew nothing closes the board, when another one has brought all home.
#[test]
fn a_seat_that_drew_nothing_closes(rt: HostRuntime) {
    let Three {
        board,
        opener,
        seat,
        mut other,
    } = open_three(&rt, rt.alloc());
    do_next(&rt, &board, &mut other, 0);
    do_next(&rt, &board, &mut other, 1);
    do_next(&rt, &board, &mut other, 2);
    let Ok(done) = board.close(opener, seat) else {
        panic!(rt; "a number is out");
    };
    assert!(rt; done.as_slice() == [9, 16, 25].as_slice());
    forget(other);
}

/// Without jobs each seat is dry, and any of them closes the board.
#[test]
fn without_jobs_each_of_64_seats_is_dry(rt: HostRuntime) {
    let Ok((board, opener, mut seats)) = Board::<Squares>::open(
        rt.alloc(),
        Vec::new(rt.alloc()),
        64,
    ) else {
        panic!(rt; "memory");
    };
    assert!(rt; seats.len() == 64);
    let mut last = seats.remove(63);
    for mut seat in seats {
        assert!(rt; board.draw(&mut seat).is_none());
    }
    assert!(rt; board.draw(&mut last).is_none());
    let Ok(done) = board.close(opener, last) else {
        panic!(rt; "a number is out");
    };
    assert!(rt; done.is_empty());
}

/// Draws until no number is left, and gives a digit for each of the numbers below ten.
fn draw_all(board: &Board<Squares>, seat: &mut WorkSeat<Squares>) -> u64
    requires { IsIdleSeatOf board.now seat.old }
    ensures { IsIdleSeatOf board.now seat.new }
{
    let mut drawn: u64 = 0;
    while let Some((slip, job)) = board.draw(seat) {
        let digit = DIGITS.get(slip.number()).copied().unwrap_or(0);
        drawn = drawn.wrapping_add(digit);
        board.put_back(seat, slip, square(job));
    }
    drawn
}

/// The same, and the seat is not used again.
fn draw_until_dry(board: &Board<Squares>, mut seat: WorkSeat<Squares>) -> u64
    requires { IsIdleSeatOf board.now seat }
{
    let drawn = draw_all(board, &mut seat);
    forget(seat);
    drawn
}

/// A board opens with as many jobs and seats as it may have, and each job is done.
#[test]
fn a_board_has_1024_jobs_and_64_seats(rt: HostRuntime) {
    let Ok(jobs) = (0..1_024u32).collect::<Vec<u32>>(rt.alloc()) else {
        panic!(rt; "memory");
    };
    assert!(rt; jobs.len() == MAX_JOBS);
    let Ok((board, opener, mut seats)) = Board::<Squares>::open(rt.alloc(), jobs, MAX_SEATS) else {
        panic!(rt; "memory");
    };
    assert!(rt; seats.len() == 64);
    let mut seat = seats.remove(63);
    forget(seats);
    draw_all(&board, &mut seat);
    let Ok(done) = board.close(opener, seat) else {
        panic!(rt; "a number is out");
    };
    assert!(rt; done.len() == 1_024 && done[0] == 0 && done[2] == 4 && done[1_023] == 1_046_529);
}

/// What three seats draw in three threads are the numbers below ten, each once.
#[test]
fn three_threads_draw_each_number_once(rt: HostRuntime) {
    let alloc = rt.alloc();
    let Ok(jobs) = vec![in alloc; 0, 1, 2, 3, 4, 5, 6, 7, 8, 9] else {
        panic!(rt; "memory");
    };
    let Ok((board, opener, mut seats)) = Board::<Squares>::open(alloc, jobs, 3) else {
        panic!(rt; "memory");
    };
    let third = seats.remove(2);
    let second = seats.remove(1);
    let first = seats.remove(0);
    let board = &board;
    let (one, (two, three)) = join(
        &rt,
        move || -> u64
            requires { IsIdleSeatOf board.now first }
        { draw_until_dry(board, first) },
        move || -> (u64, u64)
            requires { IsIdleSeatOf board.now second × IsIdleSeatOf board.now third }
        {
            join(
                &rt,
                move || -> u64
                    requires { IsIdleSeatOf board.now second }
                { draw_until_dry(board, second) },
                move || -> u64
                    requires { IsIdleSeatOf board.now third }
                { draw_until_dry(board, third) },
            )
        },
    );
    assert!(rt; one.wrapping_add(two).wrapping_add(three) == EACH_ONCE);
    forget(seats);
    forget(opener);
}
