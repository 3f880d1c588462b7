//! Topping up: the windows of sessions and the credit of links.
ghost use Rattle.std.specs.Prelude.{◌≡◌, ◌≢◌, ◌≤◌, ◌<◌, ◌↔◌, ◌++◌, ◌∷◌, [], ℕ, List, suc, OnOk, IfOk};
ghost use Rattle.amqp_endpoint.specs.Connections.{channels, slot_at};
ghost use Rattle.amqp_endpoint.specs.Endpoints.{accepted_by};
ghost use Rattle.amqp_endpoint.specs.Runs.{CallDone};
ghost use Rattle.amqp_endpoint.specs.Takings.{link_in, link_at};
ghost use Rattle.amqp_serve.specs.Cuts.{supply_channel, call_for};
ghost use Rattle.amqp_serve.specs.Deeds.{with_both, topped_as, topped_deeds, Went, ends, AreOpen};
ghost use Rattle.amqp_serve.specs.Serving.{window_lack, credit_lack, lack, session_supplies, all_supplies, ToppingUp, reading};
ghost use Rattle.amqp_serve.specs.Supplied.{IsSupplied, IsSuppliedAt, IsSuppliedBut, IsSuppliedOutside, IsOnlyAt, IsOnlyOf};
ghost use Rattle.amqp_serve.specs.declared.supplies.Look.TheVariants as look;
ghost use Rattle.amqp_serve.specs.declared.supplies.Supply.{Supply};

use crate::sending::write_out;
use crate::{Rule, ServeFault};
use amqp_endpoint::{CallFault, Endpoint};
use amqp_frame::{Device, HoldsBack};
use std::alloc::Allocator;
use std::io::Write;

/// Something that is topped up.
#[derive(Clone, Copy, Debug, PartialEq, Eq)]
pub enum Supply {
    /// The incoming window of the session on a channel [2.5.6].
    WindowOf { channel: u16 },
    /// The credit of the link with a handle, in the session on a channel [2.6.7].
    CreditOf { channel: u16, handle: u32 },
}

/// Which supplies may lack something.
#[derive(Clone, Copy, Debug, PartialEq, Eq)]
pub enum Look {
    Nothing,
    /// The link with a handle, and the window of its session.
    Link { channel: u16, handle: u32 },
    /// The session on a channel, and its links.
    Session { channel: u16 },
    All,
}

/// What was topped up. Each number stops at `u32::MAX`.
#[derive(Clone, Copy, Debug, PartialEq, Eq)]
pub struct Topped {
    /// By how many places windows were widened.
    pub widened: u32,
    /// How much credit links were granted.
    pub granted: u32,
    /// How many windows and links were refused what they lacked.
    pub refused: u32,
}

impl Topped {
    /// Nothing was topped up.
    pub const NOTHING: Topped = Topped {
        widened: 0,
        granted: 0,
        refused: 0,
    };

    /// Returns the sum of both.
    fn and(self, more: Topped) -> Topped
        ensures { result ≡ with_both self more }
    {
        Topped {
            widened: self.widened.saturating_add(more.widened),
            granted: self.granted.saturating_add(more.granted),
            refused: self.refused.saturating_add(more.refused),
        }
    }
}

/// Tops up the supplies that `look` names, by rising channel and handle, and stores in `topped` what was topped
/// up. No other supply may lack anything. Returns `Write` or `Sink` if that device failed.
#[inline(always)]
pub fn top_up<A: Allocator + Copy, W: Write + HoldsBack + Drop, S: Write + Drop>(
    endpoint: &mut Endpoint<A>,
    look: Look,
    rule: &Rule,
    topped: &mut Topped,
    writer: &mut Device<W>,
    sink: &mut Device<S>,
) -> Result<(), ServeFault>
    requires ends { AreOpen (ends W.contents S.contents writer.old sink.old) }
    requires but { IsSuppliedBut look rule.now endpoint.old.connection }
    ensures supplied { OnOk result ((topped.new.refused ≡ 0) ↔ IsSupplied rule.now endpoint.new.connection) }
    ensures went { Went rule.now (λ _. topped_deeds topped.new) (ToppingUp (all_supplies endpoint.old.connection.config)) reading result endpoint.old endpoint.new
        (ends W.contents S.contents writer.old sink.old) (ends W.contents S.contents writer.new sink.new) }
{
    let channel_max = endpoint.config().channel_max() as u16;
    let handle_max = endpoint.config().handle_max() as u32;
    match look {
        Look::Nothing => {
            *topped = Topped::NOTHING;
            Ok(())
        }
        Look::Link { channel, handle } if channel <= channel_max && handle <= handle_max => {
            top_up_link(endpoint, channel, handle, rule, topped, writer, sink)
        }
        Look::Session { channel } if channel <= channel_max => {
            top_up_sessions(endpoint, channel, channel + 1, rule, topped, writer, sink)
        }
        _ => top_up_sessions(endpoint, 0, channel_max + 1, rule, topped, writer, sink),
    }
}

/// Tops up a link and the window of its session. Nothing else may lack anything.
#[inline(always)]
fn top_up_link<A: Allocator + Copy, W: Write + HoldsBack + Drop, S: Write + Drop>(
    endpoint: &mut Endpoint<A>,
    channel: u16,
    handle: u32,
    rule: &Rule,
    topped: &mut Topped,
    writer: &mut Device<W>,
    sink: &mut Device<S>,
) -> Result<(), ServeFault>
    requires ends { AreOpen (ends W.contents S.contents writer.old sink.old) }
    requires channel { channel < channels endpoint.old.connection.config }
    requires handle { handle < suc endpoint.old.connection.config.handle_max }
    requires but { IsSuppliedBut (look.Link channel handle) rule.now endpoint.old.connection }
    ensures supplied { OnOk result ((topped.new.refused ≡ 0) ↔ IsSupplied rule.now endpoint.new.connection) }
    ensures went { Went rule.now (λ _. topped_deeds topped.new) (ToppingUp (all_supplies endpoint.old.connection.config)) reading result endpoint.old endpoint.new
        (ends W.contents S.contents writer.old sink.old) (ends W.contents S.contents writer.new sink.new) }
{
    let window = Supply::WindowOf { channel };
    let widened = top_up_one(endpoint, window, rule, writer, sink)?;
    let credit = Supply::CreditOf { channel, handle };
    let granted = top_up_one(endpoint, credit, rule, writer, sink)?;
    *topped = widened.and(granted);
    Ok(())
}

/// Tops up the sessions on channels from `first` to before `end`, and their links. Nothing else may lack anything.
fn top_up_sessions<A: Allocator + Copy, W: Write + HoldsBack + Drop, S: Write + Drop>(
    endpoint: &mut Endpoint<A>,
    first: u16,
    end: u16,
    rule: &Rule,
    topped: &mut Topped,
    writer: &mut Device<W>,
    sink: &mut Device<S>,
) -> Result<(), ServeFault>
    requires ends { AreOpen (ends W.contents S.contents writer.old sink.old) }
    requires ordered { first ≤ end }
    requires within { end ≤ channels endpoint.old.connection.config }
    requires but { IsSuppliedOutside first end rule.now endpoint.old.connection }
    ensures supplied { OnOk result ((topped.new.refused ≡ 0) ↔ IsSupplied rule.now endpoint.new.connection) }
    ensures went { Went rule.now (λ _. topped_deeds topped.new) (ToppingUp (all_supplies endpoint.old.connection.config)) reading result endpoint.old endpoint.new
        (ends W.contents S.contents writer.old sink.old) (ends W.contents S.contents writer.new sink.new) }
{
    let handles = endpoint.config().handle_max() as u32 + 1;
    let mut all = Topped::NOTHING;
    for channel in first..end {
        if endpoint.window(channel).is_some() {
            let more = top_up_session(endpoint, channel, handles, rule, writer, sink)?;
            all = all.and(more);
        }
    }
    *topped = all;
    Ok(())
}

/// Tops up the session on a channel: its window, and its links at handles below `handles`.
fn top_up_session<A: Allocator + Copy, W: Write + HoldsBack + Drop, S: Write + Drop>(
    endpoint: &mut Endpoint<A>,
    channel: u16,
    handles: u32,
    rule: &Rule,
    writer: &mut Device<W>,
    sink: &mut Device<S>,
) -> Result<Topped, ServeFault>
    requires ends { AreOpen (ends W.contents S.contents writer.old sink.old) }
    ensures supplied { IfOk result (λ t. (t.refused ≡ 0) ↔ IsSuppliedAt rule.now handles channel endpoint.new.connection) }
    ensures only { OnOk result (IsOnlyAt rule.now (look.Session channel) endpoint.old.connection endpoint.new.connection) }
    ensures went { (rest : List Supply) → Went rule.now topped_deeds (ToppingUp (session_supplies handles channel ++ rest)) (ToppingUp rest) result endpoint.old endpoint.new
        (ends W.contents S.contents writer.old sink.old) (ends W.contents S.contents writer.new sink.new) }
{
    let window = Supply::WindowOf { channel };
    let mut topped = top_up_one(endpoint, window, rule, writer, sink)?;
    let mut handle = first_lacking(endpoint, channel, 0, handles, rule);
    while handle < handles {
        let credit = Supply::CreditOf { channel, handle };
        let granted = top_up_one(endpoint, credit, rule, writer, sink)?;
        topped = topped.and(granted);
        handle = first_lacking(endpoint, channel, handle + 1, handles, rule);
    }
    Ok(topped)
}

/// Returns the first handle from `from` on whose link may lack credit, or `handles` if there is none below that.
/// No link that is passed lacks credit.
pub fn first_lacking<A: Allocator + Copy>(
    endpoint: &Endpoint<A>,
    channel: u16,
    from: u32,
    handles: u32,
    rule: &Rule,
) -> u32
    requires { from ≤ handles }
    ensures from { from ≤ result }
    ensures within { result ≤ handles }
    ensures passed { (h : ℕ) → from ≤ h → h < result → credit_lack rule.now (link_at endpoint.now.connection channel h) ≡ 0 }
{
    // A link lacks credit only if it has less than this.
    let short = rule.mark.saturating_add(1).min(rule.credit);
    match endpoint.first_lacking(channel, from, short) {
        Some(handle) => handle.min(handles),
        None => handles,
    }
}

/// Gives one supply what it lacks.
#[inline(always)]
fn top_up_one<A: Allocator + Copy, W: Write + HoldsBack + Drop, S: Write + Drop>(
    endpoint: &mut Endpoint<A>,
    supply: Supply,
    rule: &Rule,
    writer: &mut Device<W>,
    sink: &mut Device<S>,
) -> Result<Topped, ServeFault>
    requires ends { AreOpen (ends W.contents S.contents writer.old sink.old) }
    ensures supplied { IfOk result (λ t. (t.refused ≡ 0) ↔ (lack rule.now endpoint.new.connection supply ≡ 0)) }
    ensures only { OnOk result (IsOnlyOf rule.now supply endpoint.old.connection endpoint.new.connection) }
    ensures went { (rest : List Supply) → Went rule.now topped_deeds (ToppingUp (supply ∷ rest)) (ToppingUp rest) result endpoint.old endpoint.new
        (ends W.contents S.contents writer.old sink.old) (ends W.contents S.contents writer.new sink.new) }
{
    let more = lack(endpoint, supply, rule);
    if more == 0 {
        return Ok(Topped::NOTHING);
    }
    write_out(endpoint, writer, sink)?;
    let given = give(endpoint, supply, more);
    Ok(topped_by(supply, more, given))
}

/// Returns what topping up a supply by `n` did, by the answer to the call.
#[inline(always)]
fn topped_by(supply: Supply, n: u32, given: Result<(), CallFault>) -> Topped
    ensures { result ≡ topped_as supply n given }
{
    match (supply, given) {
        (Supply::WindowOf { .. }, Ok(())) => Topped {
            widened: n,
            ..Topped::NOTHING
        },
        (Supply::CreditOf { .. }, Ok(())) => Topped {
            granted: n,
            ..Topped::NOTHING
        },
        (_, Err(_)) => Topped {
            refused: 1,
            ..Topped::NOTHING
        },
    }
}

/// Widens a window by `n` places, or grants a link `n` credit.
#[inline(always)]
pub fn give<A: Allocator + Copy>(
    endpoint: &mut Endpoint<A>,
    supply: Supply,
    n: u32,
) -> Result<(), CallFault>
    ensures { CallDone endpoint.old endpoint.new (supply_channel supply) (call_for supply n) (accepted_by result) }
{
    match supply {
        Supply::WindowOf { channel } => endpoint.widen(channel, n),
        Supply::CreditOf { channel, handle } => endpoint.grant(channel, handle, n),
    }
}

/// Returns what a supply lacks: places of a window, or credit.
#[inline(always)]
fn lack<A: Allocator + Copy>(endpoint: &Endpoint<A>, supply: Supply, rule: &Rule) -> u32
    ensures { result ≡ lack rule.now endpoint.now.connection supply }
{
    match supply {
        Supply::WindowOf { channel } => window_lack(endpoint, channel, endpoint.config().window()),
        Supply::CreditOf { channel, handle } => credit_lack(endpoint, channel, handle, rule),
    }
}

/// Returns how many of `window` places the window of the session on a channel lacks; 0 if there is no session.
pub fn window_lack<A: Allocator + Copy>(endpoint: &Endpoint<A>, channel: u16, window: u32) -> u32
    ensures { result ≡ window_lack window (slot_at endpoint.now.connection channel) }
{
    let Some(places) = endpoint.window(channel) else {
        return 0;
    };
    if places <= window / 2 {
        window - places
    } else {
        0
    }
}

/// Returns how much credit a link lacks; 0 if there is no link.
pub fn credit_lack<A: Allocator + Copy>(
    endpoint: &Endpoint<A>,
    channel: u16,
    handle: u32,
    rule: &Rule,
) -> u32
    ensures { result ≡ credit_lack rule.now (link_in handle (slot_at endpoint.now.connection channel)) }
{
    let Some(link) = endpoint.link(channel, handle) else {
        return 0;
    };
    if rule.mark < link.credit {
        return 0;
    }
    let room = link
        .bounds
        .allowed()
        .saturating_sub(link.credit)
        .saturating_sub(link.opened);
    rule.credit.saturating_sub(link.credit).min(room)
}
