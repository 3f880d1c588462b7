//! Topping up for a host that makes all other calls itself.
ghost use Rattle.std.specs.Prelude.{◌≡◌, ◌<◌, suc, OnOk, Ok};
ghost use Rattle.amqp_endpoint.specs.Connections.{slot_at};
ghost use Rattle.amqp_endpoint.specs.Endpoints.{accepted_by};
ghost use Rattle.amqp_endpoint.specs.Runs.{CallDone};
ghost use Rattle.amqp_serve.specs.Cuts.{supply_channel, call_for};
ghost use Rattle.amqp_serve.specs.Serving.{session_supplies};
ghost use Rattle.amqp_serve.specs.Supplying.{half_rule, GaveIn, LacksNothing};

use crate::Rule;
use crate::supplies::{Supply, credit_lack, first_lacking, give, window_lack};
use amqp_endpoint::{CallFault, Endpoint};
use amqp_perform::Outcome;
use std::alloc::Allocator;

/// Gives a session and its links what they lack [2.5.6, 2.6.7]. If at most half of `window` places are left, the
/// session's window gets the others. Each link with at most half of `credit` gets as much as it is short of
/// `credit`, within what it is allowed less its credit and its open deliveries; links by rising handle. Call it
/// when a link attached, and after each message.
///
/// # Errors
///
/// `NoSession` if no session is live on the channel; nothing has changed then. Else the fault of the first call
/// that is refused: `Dead`, `WindowTooWide`, `Full`. What was given before it stays.
pub fn supply_session<A: Allocator + Copy>(
    endpoint: &mut Endpoint<A>,
    channel: u16,
    credit: u32,
    window: u32,
) -> Result<(), CallFault>
    ensures gave { GaveIn (slot_at endpoint.old.connection channel) result (half_rule credit) window (session_supplies (suc endpoint.old.connection.config.handle_max) channel) endpoint.old endpoint.new }
    ensures supplied { OnOk result (LacksNothing (half_rule credit) window (suc endpoint.old.connection.config.handle_max) channel endpoint.new.connection) }
{
    if endpoint.window(channel).is_none() {
        return Err(CallFault::NoSession);
    }
    let rule = Rule {
        credit,
        mark: credit / 2,
        outcome: Outcome::Accepted,
    };
    let handles = endpoint.config().handle_max() as u32 + 1;
    let places = window_lack(endpoint, channel, window);
    supply(endpoint, Supply::WindowOf { channel }, places)?;
    let mut handle = first_lacking(endpoint, channel, 0, handles, &rule);
    while handle < handles {
        let lacking = credit_lack(endpoint, channel, handle, &rule);
        supply(endpoint, Supply::CreditOf { channel, handle }, lacking)?;
        handle = first_lacking(endpoint, channel, handle + 1, handles, &rule);
    }
    Ok(())
}

/// Gives a supply what it lacks, if that is anything.
fn supply<A: Allocator + Copy>(
    endpoint: &mut Endpoint<A>,
    supply: Supply,
    lacking: u32,
) -> Result<(), CallFault>
    ensures nothing { lacking ≡ 0 → (result ≡ Ok tt) × (endpoint.new ≡ endpoint.old) }
    ensures given { 0 < lacking → CallDone endpoint.old endpoint.new (supply_channel supply) (call_for supply lacking) (accepted_by result) }
{
    if lacking == 0 {
        return Ok(());
    }
    give(endpoint, supply, lacking)
}
