//! The numbers that stand for enums, as `c/wuleshomia.h` has them.
ghost use Rattle.std.specs.Prelude.{◌≡◌, ◌<◌};
ghost use Rattle.amqp_endpoint.specs.Endpoints.{accepted_by, dropped_by, named_by};
ghost use Rattle.amqp_endpoint.specs.declared.event.Event.TheVariants as event;
ghost use Rattle.amqp_endpoint.specs.declared.event.Outcome.TheVariants as outcome;
ghost use Rattle.amqp_perform.specs.declared.outcome.Outcome.TheVariants as settlement;
ghost use Rattle.wuleshomia.specs.Codes.{fault_at, fault_code, answer_code, accepted_at, given_at, dropped_at, named_at, Found, settlement_at, condition_at, outcome_at, end_at, open_fault_at, receipt_at, untagged_receipt, untagged_done, done_at, lost_code, IsDoneAs, condition_code, failure_report, report_of_event, report_of, report_of_receipt, IsAllTold, IsStepTold};

use crate::data::{FedReport, StepReport};
use amqp_endpoint::{CallFault, End, Event, Fed, LimitFault, Outcome, Scope};
use amqp_perform::{Condition, Outcome as Settlement};
use amqp_serve::{Done, Receipt, ServeFault, Stepped, Topped};

pub const OK: u32 = 0;

pub const NO_SESSION: u32 = 3;

pub const NO_LINK: u32 = 4;

pub const NO_ENDPOINT: u32 = 20;

pub const NO_MEMORY: u32 = 21;

pub const IN_USE: u32 = 22;

pub const BAD_SETTINGS: u32 = 23;

pub const TOO_MANY_LIMITS: u32 = 24;

pub const BAD_LIMIT: u32 = 25;

pub const SAME_PREFIX: u32 = 26;

pub const BAD_OUTCOME: u32 = 27;

pub const UNSENT: u32 = 28;

pub const ANSWER_LOST: u32 = 29;

pub const RECORD_LOST: u32 = 30;

pub const NOT_WHOLE: u32 = 32;

/// Why no endpoint was set up.
#[derive(Clone, Copy, Debug, PartialEq, Eq)]
pub enum OpenFault {
    /// The handle holds one already.
    InUse,
    /// Memory was refused.
    NoMemory,
    /// The container-id is no UTF-8, or a setting is outside its range.
    Settings,
    /// The table of limits has a fault.
    Limits(LimitFault),
}

/// Returns the code of why no endpoint was set up. If a row of the limits is at fault, `row` says
/// which.
pub fn of_open_fault(fault: OpenFault, row: &mut usize) -> u32
    ensures fault { open_fault_at result row.new ≡ fault }
    ensures some { 20 < result }
    ensures few { result < 27 }
    ensures kept { result < 25 → row.new ≡ row.old }
{
    match fault {
        OpenFault::InUse => IN_USE,
        OpenFault::NoMemory => NO_MEMORY,
        OpenFault::Settings => BAD_SETTINGS,
        OpenFault::Limits(LimitFault::TooMany) => TOO_MANY_LIMITS,
        OpenFault::Limits(LimitFault::BadRow(at)) => {
            *row = at;
            BAD_LIMIT
        }
        OpenFault::Limits(LimitFault::SamePrefix(at)) => {
            *row = at;
            SAME_PREFIX
        }
    }
}

/// Returns the code of why a call was refused.
pub fn of_fault(fault: CallFault) -> u32
    ensures code { result ≡ fault_code fault }
    ensures fault { fault_at result ≡ fault }
    ensures some { 0 < result }
{
    match fault {
        CallFault::Dead => 1,
        CallFault::NotOpen => 2,
        CallFault::NoSession => NO_SESSION,
        CallFault::NoLink => NO_LINK,
        CallFault::NoDelivery => 5,
        CallFault::NotTaken => 6,
        CallFault::AlreadyTold => 7,
        CallFault::MixedModes => 8,
        CallFault::NothingReady => 9,
        CallFault::TooMuchCredit => 10,
        CallFault::WindowTooWide => 11,
        CallFault::Full => 12,
        CallFault::BadError => 13,
    }
}

/// Returns the code of a call that gives nothing.
pub fn of_done(done: Result<(), CallFault>) -> u32
    ensures accepted { accepted_at result ≡ accepted_by done }
    ensures given { given_at result ≡ done }
    ensures code { result ≡ answer_code (accepted_by done) }
{
    match done {
        Ok(()) => OK,
        Err(fault) => of_fault(fault),
    }
}

/// Returns the code of a call that gives a count, which goes to `count`.
pub fn of_count(given: Result<u32, CallFault>, count: &mut u32) -> u32
    ensures dropped { dropped_at result count.new ≡ dropped_by given }
    ensures named { named_at result count.new ≡ named_by given }
    ensures dropped_code { result ≡ answer_code (dropped_by given) }
    ensures named_code { result ≡ answer_code (named_by given) }
    ensures kept { 0 < result → count.new ≡ count.old }
{
    match given {
        Ok(number) => {
            *count = number;
            OK
        }
        Err(fault) => of_fault(fault),
    }
}

/// Returns the code of a look-up: `OK` if it found a number, which goes to `found`, else `none`.
pub fn of_found(given: Option<u32>, none: u32, found: &mut u32) -> u32
    ensures { Found given none result found.old found.new }
{
    match given {
        Some(number) => {
            *found = number;
            OK
        }
        None => none,
    }
}

/// Returns the outcome that a number stands for, or `None` if it stands for none.
pub fn settlement(outcome: u32) -> Option<Settlement>
    ensures { result ≡ settlement_at outcome }
{
    match outcome {
        0 => Some(Settlement::Accepted),
        1 => Some(Settlement::Rejected),
        2 => Some(Settlement::Released),
        3 => Some(modified(false, false)),
        4 => Some(modified(true, false)),
        5 => Some(modified(false, true)),
        6 => Some(modified(true, true)),
        _ => None,
    }
}

fn modified(failed: bool, undeliverable: bool) -> Settlement
    ensures { result ≡ settlement.Modified failed undeliverable }
{
    Settlement::Modified {
        failed,
        undeliverable,
    }
}

fn of_condition(condition: Condition) -> u32
    ensures code { result ≡ condition_code condition }
    ensures condition { condition_at result ≡ condition }
{
    match condition {
        Condition::Other => 0,
        Condition::FramingError => 1,
        Condition::DecodeError => 2,
        Condition::InvalidField => 3,
        Condition::IllegalState => 4,
        Condition::NotImplemented => 5,
        Condition::ResourceLimitExceeded => 6,
        Condition::FrameSizeTooSmall => 7,
        Condition::WindowViolation => 8,
        Condition::HandleInUse => 9,
        Condition::UnattachedHandle => 10,
        Condition::TransferLimitExceeded => 11,
        Condition::MessageSizeExceeded => 12,
    }
}

/// Returns the code of how a connection ended. If bytes of a unit waited, their number goes to
/// `inside`.
pub fn of_end(end: End, inside: &mut u64) -> u32
    ensures end { end_at result inside.new ≡ end }
    ensures some { 0 < result }
    ensures few { result < 5 }
    ensures kept { (result ≡ 3 → ⊥) → inside.new ≡ inside.old }
{
    match end {
        End::Failed => 1,
        End::Closed => 2,
        End::Inside(count) => {
            *inside = count as u64;
            3
        }
        End::Between => 4,
    }
}

/// Returns the report of a feed.
pub fn of_fed(fed: Fed) -> FedReport
    ensures used { result.used ≡ fed.used }
    ensures outcome { outcome_at result ≡ fed.outcome }
    ensures told { IsAllTold result }
{
    let Fed { used, outcome } = fed;
    let mut told = told(outcome);
    told.used = used as u64;
    told
}

fn told(outcome: Outcome) -> FedReport
    ensures outcome { outcome_at result ≡ outcome }
    ensures report { result ≡ report_of outcome }
{
    match outcome {
        Outcome::More => plain(1),
        Outcome::Event(event) => of_event(event),
        Outcome::Blocked => plain(3),
        Outcome::NoMemory => plain(4),
        Outcome::Dead => plain(5),
    }
}

fn plain(outcome: u32) -> FedReport
    ensures { result ≡ record { used = 0; outcome = outcome; event = 0; channel = 0; handle = 0; count = 0; scope = 0; condition = 0; reserved = 0 } }
{
    FedReport {
        used: 0,
        outcome,
        event: 0,
        channel: 0,
        handle: 0,
        count: 0,
        scope: 0,
        condition: 0,
        reserved: 0,
    }
}

fn about(event: u32, channel: u16, handle: u32, count: u32) -> FedReport
    ensures { result ≡ record { used = 0; outcome = 2; event = event; channel = channel; handle = handle; count = count; scope = 0; condition = 0; reserved = 0 } }
{
    let mut told = plain(2);
    told.event = event;
    told.channel = channel as u32;
    told.handle = handle;
    told.count = count;
    told
}

fn of_event(event: Event) -> FedReport
    ensures outcome { outcome_at result ≡ outcome.Event event }
    ensures report { result ≡ report_of_event event }
{
    match event {
        Event::Opened => about(1, 0, 0, 0),
        Event::Begun { channel } => about(2, channel, 0, 0),
        Event::Attached { channel, handle } => about(3, channel, handle, 0),
        Event::Unfinished { channel, handle } => about(4, channel, handle, 0),
        Event::Ready { channel, handle } => about(5, channel, handle, 0),
        Event::Aborted { channel, handle } => about(6, channel, handle, 0),
        Event::Drained { channel, handle } => about(7, channel, handle, 0),
        Event::Settled { channel, count } => about(8, channel, 0, count),
        Event::Detached {
            channel,
            handle,
            dropped,
        } => about(9, channel, handle, dropped),
        Event::Ended { channel, dropped } => about(10, channel, 0, dropped),
        Event::Closed { dropped } => about(11, 0, 0, dropped),
        Event::Failed {
            scope,
            condition,
            dropped,
        } => of_failure(scope, condition, dropped),
    }
}

fn of_failure(scope: Scope, condition: Condition, dropped: u32) -> FedReport
    ensures outcome { outcome_at result ≡ outcome.Event (event.Failed scope condition dropped) }
    ensures report { result ≡ failure_report scope (condition_code condition) dropped }
{
    let (number, channel, handle) = match scope {
        Scope::Connection => (1, 0, 0),
        Scope::Session { channel } => (2, channel, 0),
        Scope::Link { channel, handle } => (3, channel, handle),
    };
    let mut told = about(12, channel, handle, dropped);
    told.scope = number;
    told.condition = of_condition(condition);
    told
}

/// Returns the code of a step that broke off.
pub fn of_lost(fault: ServeFault) -> u32
    ensures { result ≡ lost_code fault }
{
    match fault {
        ServeFault::Write => ANSWER_LOST,
        ServeFault::Read | ServeFault::Sink => RECORD_LOST,
        ServeFault::NoMemory => NO_MEMORY,
    }
}

/// Returns the code of a step. Its report goes to `report`.
pub fn of_step(stepped: Stepped, report: &mut StepReport) -> u32
    ensures used { report.new.fed.used ≡ stepped.used }
    ensures told { outcome_at report.new.fed ≡ stepped.told }
    ensures done { IsDoneAs stepped.done result report.new }
    ensures all { IsStepTold report.new }
{
    let Stepped { used, told, done } = stepped;
    let fed = of_fed(Fed {
        used,
        outcome: told,
    });
    match done {
        Ok(done) => {
            *report = of_work(fed, done);
            OK
        }
        Err(fault) => {
            *report = no_work(fed);
            of_lost(fault)
        }
    }
}

fn of_work(fed: FedReport, done: Done) -> StepReport
    ensures fed { result.fed ≡ fed }
    ensures done { done_at result ≡ untagged_done done }
    ensures report { result ≡ report_of_receipt fed done.topped done.receipt }
{
    let mut report = of_receipt(fed, done.receipt);
    report.widened = done.topped.widened;
    report.granted = done.topped.granted;
    report.refused = done.topped.refused;
    report
}

fn of_receipt(fed: FedReport, receipt: Receipt) -> StepReport
    ensures fed { result.fed ≡ fed }
    ensures receipt { receipt_at result ≡ untagged_receipt receipt }
    ensures report { result ≡ report_of_receipt fed (record { widened = 0; granted = 0; refused = 0 }) receipt }
{
    match receipt {
        Receipt::Nothing => no_work(fed),
        Receipt::Refused(fault) => received(fed, 1, 0, 0, of_fault(fault)),
        Receipt::Settled(message) => received(fed, 2, message.delivery_id, message.len, 0),
        Receipt::Told(message) => received(fed, 3, message.delivery_id, message.len, 0),
        Receipt::Untold(message, fault) => {
            received(fed, 4, message.delivery_id, message.len, of_fault(fault))
        }
    }
}

fn received(fed: FedReport, receipt: u32, id: u32, len: u32, refusal: u32) -> StepReport
    ensures { result ≡ record { fed = fed; receipt = receipt; id = id; len = len; refusal = refusal; widened = 0; granted = 0; refused = 0; reserved = 0 } }
{
    let mut report = no_work(fed);
    report.receipt = receipt;
    report.id = id;
    report.len = len;
    report.refusal = refusal;
    report
}

fn no_work(fed: FedReport) -> StepReport
    ensures { result ≡ record { fed = fed; receipt = 0; id = 0; len = 0; refusal = 0; widened = 0; granted = 0; refused = 0; reserved = 0 } }
{
    StepReport {
        fed,
        receipt: 0,
        id: 0,
        len: 0,
        refusal: 0,
        widened: 0,
        granted: 0,
        refused: 0,
        reserved: 0,
    }
}
