//! Taking one event in its resource.

ghost use Rattle.std.specs.Prelude.{◌≡◌, ◌^◌, ◌≤◌, ◌<◌, ℕ, suc, max, unwrap_or, All, IfOk, OnOk, Some, None};
ghost use Rattle.std.specs.Bool.{OnTrue};
ghost use Rattle.fb_types.specs.States.{State};
ghost use Rattle.fb_types.specs.Takes.{begun};
ghost use Rattle.fb_types.specs.OfSystem.{IsResource};
ghost use Rattle.fb_laws.specs.OfSystem.{IsTypedEvent};
ghost use Rattle.fb_net.specs.Events.{IsEventIn, event_of};
ghost use Rattle.fb_resource.specs.Counts.{IsMetered, meter_of};
ghost use Rattle.fb_resource.specs.Posts.{CountsAre};
ghost use Rattle.fb_resource.specs.Takings.{AreReady, IsHere, IsRaised, IsTakenHere, MaySettle, Settles, ended, with_least_event};

use crate::posting::{Posting, count_lone, lone_of, post_lone};
use crate::taken::Taken;
use crate::tick_counts::TickCounts;
use crate::traffic::Traffic;
use fb_agenda::Least;
use fb_net::{Out, Tree};
use fb_system::System;
use fb_types::{Halt, Reason, TimerAsk};
use std::alloc::AllocError;

/// The reason with which a reaction ended, if one did.
///
/// # Errors
/// When memory ran out.
#[inline(always)]
fn reason_of(end: Result<(), Halt>) -> Result<Option<Reason>, AllocError>
    ensures { IfOk result (λ stop. end ≡ ended stop) }
{
    match end {
        Ok(()) => Ok(None),
        Err(Halt::Stop(reason)) => Ok(Some(reason)),
        Err(Halt::Memory) => Err(AllocError),
    }
}

/// Sets the timer and posts what was put out, as the taking of the event in `Least` asks, whatever that is. A function
/// of its own, because a `Posting` lies in memory, and after most events none is made.
///
/// # Errors
/// When memory runs out, or a link has carried 2^128 messages.
#[inline(never)]
fn settle_all(
    traffic: &mut Traffic,
    locals: &mut u128,
    system: &System,
    least: &Least,
) -> Result<(), AllocError>
    requires may { MaySettle system.now least.now traffic.old }
    requires room { locals.old < 2 ^ 100 }
    ensures { OnOk result (Settles system.now least.now locals.old traffic.old locals.new traffic.new) }
{
    // for the prover: what holds of each system
    system.facts();
    let mut posting = Posting {
        system,
        key: &least.key,
        agenda: &mut traffic.agenda,
        mail: &mut traffic.mail,
        sent: &mut traffic.sent,
        locals,
    };
    posting.settle(&mut traffic.outbox, &least.event)
}

/// The same as `settle_all`. Mostly the resource goes on, nothing was put out or one message, and nothing is asked of the
/// timer: then nothing is called.
///
/// # Errors
/// As `settle_all`.
#[inline(always)]
fn settle(
    traffic: &mut Traffic,
    locals: &mut u128,
    system: &System,
    least: &Least,
    stops: bool,
) -> Result<(), AllocError>
    requires may { MaySettle system.now least.now traffic.old }
    requires room { locals.old < 2 ^ 100 }
    ensures { OnOk result (Settles system.now least.now locals.old traffic.old locals.new traffic.new) }
{
    if stops {
        return settle_all(traffic, locals, system, least);
    }
    match traffic.outbox.timer {
        TimerAsk::Keep => match traffic.outbox.outs.as_slice() {
            [] => Ok(()),
            [only] => match only {
                Out::Send(sending) => {
                    let link = sending.link;
                    post_lone(
                        &mut traffic.outbox.outs,
                        &mut traffic.mail,
                        &mut traffic.sent,
                        system,
                        &least.key,
                        link,
                    )
                }
                Out::Local(_) => settle_all(traffic, locals, system, least),
            },
            _ => settle_all(traffic, locals, system, least),
        },
        _ => settle_all(traffic, locals, system, least),
    }
}

/// Takes the event in `Least`, which has left the agenda, at most `limit` steps in each tick of its resource. What was
/// put out is posted, also before a stop, except one local event alone: where the resource goes on, that one moves into
/// `Least`. Messages are put after the mail, and lines after those in the outbox.
///
/// The counts may also be those of a meter that is older than the tick: then the resource counts afresh.
///
/// # Errors
/// When memory runs out, or a link has carried 2^128 messages. Nothing is said of the resource then.
#[inline(always)]
pub fn take(
    tree: &mut Tree,
    counts: &mut TickCounts,
    traffic: &mut Traffic,
    system: &System,
    limit: u64,
    least: &mut Least,
) -> Result<Taken, AllocError>
    requires tree { tree.old.resource ≡ least.old.key.resource }
    requires counts { IsMetered limit counts.old }
    requires traffic { AreReady system.now least.old.key.tick traffic.old }
    requires represents { (s : State) × IsHere system.now s least.old.key.resource least.old.key.tick tree.old counts.old }
    requires event { IsEventIn system.now least.old.key.resource least.old.event }
    requires typed { IsTypedEvent system.now (event_of system.now least.old.event) }
    requires named { IsResource system.now least.old.key.resource }
    requires early { least.old.key.tick ≤ 10 ^ 12 }
    requires few { limit ≤ 10 ^ 7 }
    ensures taken { IfOk result (λ t. (s : State) (from : ℕ) → from ≤ least.old.key.tick
        → IsHere system.now s least.old.key.resource from tree.old counts.old → CountsAre traffic.old.sent.items s.sent
        → IsTakenHere system.now limit s least.old.key (event_of system.now least.old.event) t.stop from tree.new counts.new
        traffic.old (with_least_event t.raised least.new traffic.new)) }
    ensures traffic { IfOk result (λ t. AreReady system.now least.old.key.tick (with_least_event t.raised least.new traffic.new)) }
    ensures later { OnOk result (All (λ m. least.old.key.tick < m.arrives) traffic.old.mail.items → All (λ m. least.old.key.tick < m.arrives) traffic.new.mail.items) }
    ensures counts { OnOk result (IsMetered limit counts.new) }
    ensures tick { OnOk result (unwrap_or counts.new.tick 0 ≤ max (unwrap_or counts.old.tick 0) least.old.key.tick) }
    ensures spent { IfOk result (λ t. t.stop ≡ None → (counts.new.tick ≡ Some least.old.key.tick) × (suc counts.new.meter.left ≤ (begun limit least.old.key.tick (meter_of counts.old)).left)) }
    ensures tree { tree.new.resource ≡ tree.old.resource }
    ensures raised { IfOk result (λ t. OnTrue t.raised (IsRaised least.new.key least.new.event)) }
    ensures alone { IfOk result (λ t. OnTrue t.raised ((traffic.new.agenda ≡ traffic.old.agenda) × (traffic.new.mail ≡ traffic.old.mail))) }
    ensures moment { OnOk result ((least.new.key.tick ≡ least.old.key.tick) × (least.new.key.resource ≡ least.old.key.resource)) }
{
    if !counts.step(limit, least.key.tick) {
        return Ok(Taken {
            stop: Some(Reason::Steps),
            raised: false,
        });
    }
    let end = tree.deliver(
        system,
        &least.event,
        &least.key,
        &mut counts.meter,
        &mut traffic.outbox,
    );
    let stop = reason_of(end)?;
    // for the prover: what holds of each system
    system.facts();
    // A reaction that stops posts what it had put out before.
    let stops = stop.is_some();
    if let Some(target) = lone_of(&traffic.outbox, stops) {
        least.follow(counts.locals, target);
        count_lone(&mut counts.locals, &mut traffic.outbox);
        return Ok(Taken { stop, raised: true });
    }
    settle(traffic, &mut counts.locals, system, least, stops)?;
    Ok(Taken {
        stop,
        raised: false,
    })
}
