//! Posting what taking an event puts out: the timer, local events onto the agenda, messages after the mail.

ghost use Rattle.std.specs.Prelude.{◌≡◌, ◌+◌, ◌<◌, ◌≤◌, ◌^◌, ◌++◌, ◌∷◌, ℕ, [], length, All, IfErr, IfOk, IfSome, OnOk, slice_index, slice_set};
ghost use Rattle.std.specs.Bool.{OnTrue};
ghost use Rattle.fb_types.specs.States.{path_of};
ghost use Rattle.fb_types.specs.declared.run.Event.TheVariants.{Local};
ghost use Rattle.fb_types.specs.declared.run.TimerAsk.TheVariants.{Keep};
ghost use Rattle.fb_types.specs.OfSystem.{IsInstance, IsResource, link_count, path_at};
ghost use Rattle.fb_system.specs.OfSystem.{arrival_over, number_at};
ghost use Rattle.fb_net.specs.Events.{IsEventIn, IsNumbered, event_of};
ghost use Rattle.fb_net.specs.declared.outbox.Out.TheVariants as put_out;
ghost use Rattle.fb_net.specs.declared.outbox.OutgoingMessage.{OutgoingMessage};
ghost use Rattle.fb_resource.specs.Posts.{IsOneMessage};
ghost use Rattle.fb_resource.specs.Takings.{IsEmptied, IsLater};
ghost use Rattle.fb_resource.specs.OfSystem.{message_of};

use fb_agenda::Agenda;
use fb_link::arrival;
use fb_net::{Out, Outbox, OutgoingMessage};
use fb_system::System;
use fb_types::{Event, Key, Message, Target, TimerAsk};
use std::alloc::AllocError;
use std::mem::forget;

/// The number of the next message of a link, which is counted.
///
/// # Errors
/// When the link has carried 2^128 messages.
#[inline(always)]
fn count_message(sent: &mut Vec<u128>, link: u32) -> Result<u128, AllocError>
    requires { link < length sent.old.items }
    ensures number { IfOk result (λ number. number ≡ slice_index sent.old.items link) }
    ensures counted { OnOk result (sent.new.items ≡ slice_set sent.old.items link (slice_index sent.old.items link + 1)) }
    ensures full { IfErr result (λ e. slice_index sent.old.items link + 1 ≡ 2 ^ 128) }
{
    let number = sent[link as usize];
    if number == u128::MAX {
        return Err(AllocError);
    }
    sent[link as usize] = number + 1;
    Ok(number)
}

/// Puts a message after the mail, with the tick of its arrival and its number on the link.
///
/// # Errors
/// When memory runs out, or a link has carried 2^128 messages.
#[inline(always)]
fn post_message(
    mail: &mut Vec<Message>,
    sent: &mut Vec<u128>,
    system: &System,
    key: &Key,
    sending: OutgoingMessage,
) -> Result<(), AllocError>
    requires link { sending.link < link_count system.now }
    requires counted { length sent.old.items ≡ link_count system.now }
    requires early { key.now.tick ≤ 10 ^ 12 }
    ensures put { OnOk result (mail.new.items ≡ mail.old.items ++ message_of system.now key.now sending (slice_index sent.old.items sending.link) ∷ []) }
    ensures counted { OnOk result (sent.new.items ≡ slice_set sent.old.items sending.link (slice_index sent.old.items sending.link + 1)) }
    ensures later { OnOk result (key.now.tick < arrival_over system.now sending.link key.now.tick) }
{
    let number = count_message(sent, sending.link)?;
    let arrives = arrival(system, sending.link, key.tick);
    mail.reserve(1)?;
    mail.push_reserved(Message {
        number,
        arrives,
        link: sending.link,
        target: sending.target,
        values: sending.values,
    });
    Ok(())
}

/// The instance at which an event comes.
fn instance_of(system: &System, event: &Event) -> u32
    requires { IsNumbered system.now event.now }
    ensures instance { IsInstance system.now result }
    ensures path { path_at system.now result ≡ path_of (event_of system.now event.now) }
{
    match event {
        Event::Stimulus(row) => system.stimulus(*row).target.instance,
        Event::Timer(instance) => *instance,
        Event::Arrival(message) => message.target.instance,
        Event::Local(target) => target.instance,
        Event::Given(given) => given.target.instance,
    }
}

// Fast path: a local event that was put out alone moves into `Least`, and mostly it is the next one. Without it and
// `count_lone`, an event of `towers` and `fed_chains` takes 9 to 13 % more instructions.

/// The target of the local event that was put out, if nothing else was, nothing is asked of the timer and the resource
/// goes on, as mostly.
#[inline(always)]
pub(crate) fn lone_of(outbox: &Outbox, stops: bool) -> Option<&Target>
    ensures alone { IfSome result (λ target. outbox.now.outs.items ≡ put_out.Local target.now ∷ []) }
    ensures keeps { IfSome result (λ target. outbox.now.timer ≡ Keep) }
{
    if stops {
        return None;
    }
    match outbox.timer {
        TimerAsk::Keep => match outbox.outs.as_slice() {
            [only] => match only {
                Out::Local(target) => Some(target),
                Out::Send(_) => None,
            },
            _ => None,
        },
        _ => None,
    }
}

// Fast path: without it, an event of `token` takes 4 % more instructions.

/// Posts the message that was put out, where nothing else was. All else is known before the message leaves the list: so
/// it moves once, straight to its place.
///
/// # Errors
/// When memory runs out, or a link has carried 2^128 messages.
#[inline(always)]
pub(crate) fn post_lone(
    outs: &mut Vec<Out>,
    mail: &mut Vec<Message>,
    sent: &mut Vec<u128>,
    system: &System,
    key: &Key,
    link: u32,
) -> Result<(), AllocError>
    requires alone { IsOneMessage link outs.old.items }
    requires link { link < link_count system.now }
    requires counted { length sent.old.items ≡ link_count system.now }
    requires early { key.now.tick ≤ 10 ^ 12 }
    ensures put { OnOk result ((s : OutgoingMessage) → outs.old.items ≡ put_out.Send s ∷ []
        → mail.new.items ≡ mail.old.items ++ message_of system.now key.now s (slice_index sent.old.items link) ∷ []) }
    ensures counted { OnOk result (sent.new.items ≡ slice_set sent.old.items link (slice_index sent.old.items link + 1)) }
    ensures later { OnOk result (key.now.tick < arrival_over system.now link key.now.tick) }
    ensures none { OnOk result (outs.new.items ≡ []) }
{
    let number = count_message(sent, link)?;
    let arrives = arrival(system, link, key.tick);
    mail.reserve(1)?;
    let Some(only) = outs.pop() else {
        return Ok(());
    };
    match only {
        Out::Send(sending) => {
            mail.push_reserved(Message {
                number,
                arrives,
                link,
                target: sending.target,
                values: sending.values,
            });
            Ok(())
        }
        Out::Local(_) => Ok(()),
    }
}

/// Counts the local event that was put out, where nothing else was and nothing is asked of the timer. It has moved to
/// where it goes.
#[inline(always)]
pub(crate) fn count_lone(locals: &mut u128, outbox: &mut Outbox)
    requires alone { length outbox.old.outs.items ≡ 1 }
    requires keeps { outbox.old.timer ≡ Keep }
    requires room { locals.old < 2 ^ 100 }
    ensures counted { locals.new ≡ locals.old + 1 }
    ensures emptied { IsEmptied outbox.old outbox.new }
{
    // Its target was read where it is: to move an `Out` is to move as much as a message.
    forget(outbox.outs.pop());
    *locals += 1;
}

/// Posting what the taking of one event puts out: the system and the key of the event, which stay, and where local
/// events, messages and counts go.
#[derive(Drop)]
pub(crate) struct Posting<'a> {
    pub system: &'a System,
    pub key: &'a Key,
    pub agenda: &'a mut Agenda,
    /// Messages go after those of earlier events.
    pub mail: &'a mut Vec<Message>,
    /// For each link the count of the messages sent on it.
    pub sent: &'a mut Vec<u128>,
    /// The count of local events in the tick of the key.
    pub locals: &'a mut u128,
    // The key names a resource of the deployment, its tick is at most 10^12, and each instance has its number.
    ghost named: { IsResource system.now key.now.resource },
    ghost early: { key.now.tick ≤ 10 ^ 12 },
    ghost numbered: { (i : ℕ) → IsInstance system.now i → number_at system.now (path_at system.now i) ≡ i },
}

impl Posting<'_> {
    ghost use Rattle.fb_resource.specs.Postings.{HasGrown, HasPosted, HasSet, HasSettled, IsSame, MayPost, MayPut};

    /// Posts one event that was put out, after all that were posted before.
    ///
    /// # Errors
    /// When memory runs out, or a link has carried 2^128 messages.
    #[inline(always)]
    fn post_one(&mut self, out: Out) -> Result<(), AllocError>
        requires may { MayPost self.old }
        requires out { MayPut self.old out }
        requires room { self.old.locals.now + 1 < 2 ^ 128 }
        ensures posted { OnOk result (HasPosted self.old (out ∷ []) self.new) }
        ensures grown { OnOk result (HasGrown self.old 1 self.new) }
        ensures same { IsSame self.old self.new }
    {
        match out {
            Out::Local(target) => {
                // It goes under its number within the tick.
                self.agenda
                    .put_local(self.key.tick, self.key.resource, *self.locals, target)?;
                *self.locals += 1;
                Ok(())
            }
            Out::Send(sending) => {
                post_message(self.mail, self.sent, self.system, self.key, sending)
            }
        }
    }

    /// Posts what the taking of an event put out, in its order. The room that it took is kept.
    ///
    /// # Errors
    /// As `post_one`.
    #[inline(never)]
    fn post_all(&mut self, outs: &mut Vec<Out>) -> Result<(), AllocError>
        requires may { MayPost self.old }
        requires outs { All (MayPut self.old) outs.old.items }
        requires room { self.old.locals.now + length outs.old.items < 2 ^ 128 }
        ensures posted { OnOk result (HasPosted self.old outs.old.items self.new) }
        ensures grown { OnOk result (HasGrown self.old (length outs.old.items) self.new) }
        ensures none { OnOk result (outs.new.items ≡ []) }
        ensures same { IsSame self.old self.new }
    {
        if outs.is_empty() {
            return Ok(());
        }
        for out in outs.drain(..) {
            self.post_one(out)?;
        }
        Ok(())
    }

    /// Sets the timer of the instance at which an event came, as its reaction asks.
    ///
    /// # Errors
    /// When memory runs out.
    #[inline(always)]
    fn set_timer(&mut self, ask: &TimerAsk, event: &Event) -> Result<(), AllocError>
        requires may { MayPost self.old }
        requires event { IsEventIn self.old.system.now self.old.key.now.resource event.now }
        requires later { IsLater self.old.key.now.tick ask.now }
        ensures set { OnOk result (HasSet self.old ask.now event.now self.new) }
        ensures grown { OnOk result (HasGrown self.old 0 self.new) }
        ensures same { IsSame self.old self.new }
    {
        // Most reactions ask nothing, and then nothing is called.
        match ask {
            TimerAsk::Keep => Ok(()),
            _ => {
                let instance = instance_of(self.system, event);
                self.agenda.set_timer(self.key.resource, instance, *ask)
            }
        }
    }

    /// Sets the timer of the instance at which an event came and posts what was put out, as its reaction asks. Of the
    /// outbox the lines stay, and the room for what is put out.
    ///
    /// # Errors
    /// As `post_one`.
    #[inline(always)]
    pub fn settle(&mut self, outbox: &mut Outbox, event: &Event) -> Result<(), AllocError>
        requires may { MayPost self.old }
        requires event { IsEventIn self.old.system.now self.old.key.now.resource event.now }
        requires later { IsLater self.old.key.now.tick outbox.old.timer }
        requires outs { All (MayPut self.old) outbox.old.outs.items }
        requires room { self.old.locals.now < 2 ^ 100 }
        ensures settled { OnOk result (HasSettled self.old outbox.old event.now self.new outbox.new) }
        ensures grown { OnOk result (HasGrown self.old (2 ^ 64) self.new) }
        ensures emptied { OnOk result (IsEmptied outbox.old outbox.new) }
        ensures same { IsSame self.old self.new }
    {
        self.set_timer(&outbox.timer, event)?;
        outbox.timer = TimerAsk::Keep;
        // for the prover: what its type keeps
        let _count = outbox.outs.len();
        self.post_all(&mut outbox.outs)
    }
}
