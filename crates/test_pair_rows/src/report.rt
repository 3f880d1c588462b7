//! The result of schedules.

use crate::naive::Naive;
use crate::schedule::Schedule;
use amqp_endpoint::{Event, Outcome};
use amqp_pair::{Joined, Turn, TurnAnswer};
use amqp_send::{News, OfferFault};
use std::alloc::Global;
use std::fmt::{self, Display, Formatter};
use test_row_files::Miss;

/// Returns a line about a schedule: how many messages were taken of those taken over, whether they are the first
/// of them, how many bytes each end took, and how often the endpoint failed or the sender had ended.
pub fn line(alloc: Global, schedule: &Schedule<'_>, joined: &Joined) -> Result<String, Miss> {
    let mut offered = Vec::new(alloc);
    let mut used: usize = 0;
    let mut heard: usize = 0;
    let mut failed: usize = 0;
    for (turn, answer) in schedule.turns.iter().zip(joined.answers.iter()) {
        match *answer {
            TurnAnswer::TakenOver => {
                if let Turn::Offer(message) = *turn {
                    offered.push(message)?;
                }
            }
            TurnAnswer::EndpointFed(fed) => {
                used = used.saturating_add(fed.used);
                if let Outcome::Event(Event::Failed { .. }) = fed.outcome {
                    failed = failed.saturating_add(1);
                }
            }
            TurnAnswer::SenderFed { used, .. } => heard = heard.saturating_add(used),
            TurnAnswer::NotTakenOver(OfferFault::Ended(_)) => failed = failed.saturating_add(1),
            _ => {}
        }
    }
    let taken = joined.pair.taken.len();
    let mut in_order = taken <= offered.len();
    for (message, taken) in offered.iter().zip(joined.pair.taken.iter()) {
        let bytes = taken.message.to_vec(alloc)?;
        in_order = in_order && bytes.as_slice() == *message;
    }
    let order = if in_order { "in order" } else { "out of order" };
    let count = offered.len();
    Ok(format!(in alloc;
        "taken={taken} of {count} {order}, used={used} heard={heard} failed={failed}\n"
    )?)
}

/// Returns where the naive model has another answer than the pair, or another message, and counts what came.
pub fn difference(
    alloc: Global,
    schedule: &Schedule<'_>,
    joined: &Joined,
    came: &mut Came,
) -> Result<Option<String>, Miss> {
    let mut naive = Naive::new(alloc, schedule.settings)?;
    difference_from(alloc, schedule, joined, &mut naive, came)
}

/// Makes the turns by this naive model, which is new, and returns where it differs from the pair.
// The body borrows what it uses: one that may drop it at each exit takes minutes to prove.
fn difference_from<'a>(
    alloc: Global,
    schedule: &Schedule<'a>,
    joined: &Joined,
    naive: &mut Naive<'a>,
    came: &mut Came,
) -> Result<Option<String>, Miss> {
    if joined.answers.len() != schedule.turns.len() {
        return Ok(Some(String::from_str(alloc, "not one answer a turn")?));
    }
    for (turn, found) in schedule.turns.iter().zip(joined.answers.iter()) {
        let wanted = naive.make(*turn)?;
        if !is_same(*found, wanted) {
            return Ok(Some(answers_differ(alloc, came, *found, wanted)?));
        }
        came.turn(wanted, naive.has_no_place());
    }
    came.schedule(naive);
    taken_differ(alloc, joined, naive)
}

/// Returns which turn got another answer than that of the naive model.
fn answers_differ(
    alloc: Global,
    came: &Came,
    found: TurnAnswer,
    wanted: TurnAnswer,
) -> Result<String, Miss> {
    let (number, place) = (came.schedules, came.turns_of_schedule);
    Ok(format!(in alloc;
        "schedule {number}, turn {place}, each from 0 on: {found:?} for {wanted:?}"
    )?)
}

/// Returns where another message was taken than that of the naive model.
fn taken_differ(alloc: Global, joined: &Joined, naive: &Naive<'_>) -> Result<Option<String>, Miss> {
    let (found, wanted) = (joined.pair.taken.len(), naive.taken.len());
    if found != wanted {
        return Ok(Some(format!(in alloc; "{found} messages for {wanted}")?));
    }
    for (taken, handed) in joined.pair.taken.iter().zip(naive.taken.iter()) {
        let bytes = taken.message.to_vec(alloc)?;
        let tag = handed.0.to_be_bytes();
        let is_same = bytes == handed.1
            && taken.delivery_id == handed.0
            && taken.delivery_tag.as_bytes() == tag.as_slice()
            && taken.message_format == 0
            && !taken.settled;
        if !is_same {
            return Ok(Some(format!(in alloc; "another message {}", handed.0)?));
        }
    }
    Ok(None)
}

fn is_same(found: TurnAnswer, wanted: TurnAnswer) -> bool {
    match (found, wanted) {
        (TurnAnswer::TakenOver, TurnAnswer::TakenOver)
        | (TurnAnswer::Accepted, TurnAnswer::Accepted)
        | (TurnAnswer::HandedUp, TurnAnswer::HandedUp) => true,
        (TurnAnswer::NotTakenOver(found), TurnAnswer::NotTakenOver(wanted)) => found == wanted,
        (TurnAnswer::EndpointFed(found), TurnAnswer::EndpointFed(wanted)) => found == wanted,
        (TurnAnswer::Refused(found), TurnAnswer::Refused(wanted)) => found == wanted,
        (
            TurnAnswer::SenderFed { used, news },
            TurnAnswer::SenderFed {
                used: wanted_used,
                news: wanted_news,
            },
        ) => used == wanted_used && news == wanted_news,
        _ => false,
    }
}

/// How often each came, so that schedules that reach too little are seen.
#[derive(Clone, Copy, Default)]
pub struct Came {
    schedules: u64,
    turns: u64,
    /// Those of the schedule that is being made.
    turns_of_schedule: u64,
    taken_over: u64,
    busy: u64,
    taken: u64,
    longest: u64,
    drained: u64,
    told: u64,
    refused: u64,
    blocked: u64,
    sender_blocked: u64,
    without_place: u64,
    full_to_endpoint: u64,
    full_to_sender: u64,
}

impl Came {
    /// A turn was answered so, and after it the window has a place or none.
    fn turn(&mut self, answer: TurnAnswer, has_no_place: bool) {
        count(&mut self.turns_of_schedule, true);
        count(&mut self.without_place, has_no_place);
        match answer {
            TurnAnswer::TakenOver => count(&mut self.taken_over, true),
            TurnAnswer::NotTakenOver(_) => count(&mut self.busy, true),
            TurnAnswer::HandedUp => count(&mut self.taken, true),
            TurnAnswer::Refused(_) => count(&mut self.refused, true),
            TurnAnswer::EndpointFed(fed) => {
                count(&mut self.blocked, fed.outcome == Outcome::Blocked);
                if let Outcome::Event(Event::Drained { .. }) = fed.outcome {
                    count(&mut self.drained, true);
                }
            }
            TurnAnswer::SenderFed { news, .. } => {
                if let Some(News::Disposition { .. }) = news {
                    count(&mut self.told, true);
                }
            }
            TurnAnswer::Accepted => {}
        }
    }

    /// A schedule is at its end.
    fn schedule(&mut self, naive: &Naive<'_>) {
        count(&mut self.schedules, true);
        self.turns = self.turns.saturating_add(self.turns_of_schedule);
        self.turns_of_schedule = 0;
        self.longest = self.longest.saturating_add(naive.longest());
        self.sender_blocked = self.sender_blocked.saturating_add(naive.times_blocked());
        let (to_endpoint, to_sender) = naive.times_full();
        self.full_to_endpoint = self.full_to_endpoint.saturating_add(to_endpoint);
        self.full_to_sender = self.full_to_sender.saturating_add(to_sender);
    }
}

fn count(counter: &mut u64, holds: bool) {
    *counter = counter.saturating_add(u64::from(holds));
}

impl Display for Came {
    fn fmt<W: fmt::Write>(&self, f: &mut Formatter<W>) -> fmt::Result {
        let Came {
            schedules,
            turns,
            turns_of_schedule: _,
            taken_over,
            busy,
            taken,
            longest,
            drained,
            told,
            refused,
            blocked,
            sender_blocked,
            without_place,
            full_to_endpoint,
            full_to_sender,
        } = *self;
        writeln!(
            f,
            "{schedules} schedules, {turns} turns: each answer and each message as the naive model has it"
        )?;
        writeln!(
            f,
            "messages: {taken_over} taken over, {taken} taken, {longest} whole that are as long as they may be; {busy} offers were too early"
        )?;
        writeln!(
            f,
            "answered: {drained} drains; told: {told} settlements; refused: {refused} calls"
        )?;
        write!(
            f,
            "turns: {full_to_endpoint} fed the endpoint from a full pipe, {full_to_sender} the sender; in {blocked} a frame waited at the endpoint, in {sender_blocked} at the sender; {without_place} ended with a window of 0"
        )
    }
}
