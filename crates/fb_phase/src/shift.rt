//! The share of a phase that a thread takes: a shift while it is to be served, and its return when it was.
ghost use Rattle.std.specs.Prelude.{◌≡◌, ◌≤◌, ◌+◌, [], All, IfOk, min, vec_len, vec_capacity};
ghost use Rattle.std.specs.Arc.{arc_value};
ghost use Rattle.fb_board.specs.Models.{IsIdleSeatOf, IsDrySeatOf};

use crate::gate::Gate;
use crate::work::Work;
use crossbeam_channel::{Receiver, Sender};
use fb_board::{Board, WorkSeat};
use std::alloc::{AllocError, Global};
use std::hint::spin_loop;
use std::sync::{Arc, Wait};

/// How often the thread that calls looks whether a shift came back, before it sleeps: a job mostly takes no longer, and
/// a thread that sleeps has to be woken.
const LOOKS: u32 = 2000;

/// Draws until the seat is dry, and puts back what was made of each job.
pub(crate) fn serve<R: Wait, W: Work, P: Gate>(
    rt: &R,
    alloc: Global,
    board: &Board<W>,
    work: &W,
    gate: &P,
    mut seat: WorkSeat<W>,
) -> WorkSeat<W>
    requires { IsIdleSeatOf board.now seat }
    ensures { IsDrySeatOf board.now result }
{
    while let Some((slip, job)) = board.draw(&mut seat) {
        gate.at(rt, slip.number());
        let done = work.run(alloc, job);
        board.put_back(&mut seat, slip, done);
    }
    seat
}

/// A shift that was served: its thread's share of the board, and its seat, which is dry. There is no other way to make one
/// than to serve a shift, and it can't be copied. So as many came back as there are values of this type.
#[derive(Drop)]
pub(crate) struct Return<W: Work> {
    board: Arc<Board<W>, Global>,
    seat: WorkSeat<W>,
    ghost dry: { IsDrySeatOf (arc_value board) seat },
}

/// A seat at a board, which a thread of a crew serves.
#[derive(Drop)]
pub(crate) struct Shift<W: Work> {
    board: Arc<Board<W>, Global>,
    seat: WorkSeat<W>,
    /// Where it is handed in when it was served.
    returns: Sender<Return<W>>,
    ghost own: { IsIdleSeatOf (arc_value board) seat },
}

impl<W: Work> Shift<W> {
    fn new(board: Arc<Board<W>, Global>, seat: WorkSeat<W>, returns: Sender<Return<W>>) -> Shift<W>
        requires { IsIdleSeatOf (arc_value board) seat }
    {
        Shift {
            board,
            seat,
            returns,
        }
    }

    /// Runs jobs until none is left to be drawn, and hands in its share of the board. The channel of a phase has room for
    /// all of its shifts, so it waits for nobody then.
    pub(crate) fn serve<R: Wait, P: Gate>(self, rt: &R, alloc: Global, work: &W, gate: &P) {
        let Shift {
            board,
            seat,
            returns,
        } = self;
        let seat = serve(rt, alloc, &board, work, gate, seat);
        // An error has what was to be handed in, and drops it: the phase was given up, and nobody waits for it.
        let _ = returns.send(rt, Return { board, seat });
    }
}

/// A shift for each seat.
pub(crate) fn shifts<W: Work>(
    alloc: Global,
    board: &Arc<Board<W>, Global>,
    seats: Vec<WorkSeat<W>>,
    returns: &Sender<Return<W>>,
) -> Result<Vec<Shift<W>>, AllocError>
    requires { All (IsIdleSeatOf (arc_value board.now)) seats.items }
    ensures { IfOk result (λ v. vec_len v ≡ vec_len seats) }
{
    let mut shifts = Vec::with_capacity(alloc, seats.len())?;
    for seat in seats {
        let board = Arc::try_clone(board)?;
        shifts.push(Shift::new(board, seat, returns.clone()?))?;
    }
    Ok(shifts)
}

/// The next shift that comes back.
fn receive<R: Wait, W: Work>(rt: &R, returns: &Receiver<Return<W>>) -> Return<W> {
    for _ in 0..LOOKS {
        if !returns.is_empty() {
            break;
        }
        spin_loop();
    }
    for _ in rt.forever() {
        if let Ok(back) = returns.recv(rt) {
            return back;
        }
    }
    unreachable!()
}

/// Waits for the shifts of a phase that are out, and gives them: of those that were handed out, the ones that are not left.
pub(crate) fn gather<R: Wait, W: Work>(
    rt: &R,
    returns: &Receiver<Return<W>>,
    handed: usize,
    left: &Vec<Shift<W>>,
    mut home: Vec<Return<W>>,
) -> Vec<Return<W>>
    requires none { home.items ≡ [] }
    requires room { handed ≤ vec_capacity home }
    ensures none_out { handed ≤ vec_len result + vec_len left.now }
    ensures out { vec_len result + min handed (vec_len left.now) ≡ handed }
{
    let out = handed.saturating_sub(left.len());
    for _ in 0..out {
        home.push_reserved(receive(rt, returns));
    }
    home
}
