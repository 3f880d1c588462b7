//! What holds of each connection of a hub. The calls do nothing: their contracts are the laws.
ghost use Rattle.std.specs.Prelude.{◌≡◌, ℕ, List, None, Some};
ghost use Rattle.amqp_endpoint.specs.Configs.{Configured};
ghost use Rattle.amqp_serve.specs.declared.rules.Rule.{Rule};
ghost use Rattle.amqp_hub.specs.Kept.{SeatGoesOn, SeatIsAlone};
ghost use Rattle.amqp_hub.specs.Ledgers.{new_ledger, records_under};
ghost use Rattle.amqp_hub.specs.Turns.{Turn, Answer, Seat, AllFit, seat_after, ledger_after};

use amqp_serve::life_laws;
use amqp_serve::step_laws::a_step_tells_what_it_recorded;

/// A connection goes on with each call for it.
pub fn seats_go_on()
    ensures { (config : Configured) → SeatGoesOn config }
{
    life_laws::lives_go_on();
    a_step_tells_what_it_recorded();
}

/// What was handed out for the peer of a connection, and recorded of it, is what its own calls alone give. They
/// also say whether it is over and whether it is open. What its endpoint holds is bounded.
pub fn seats_are_alone()
    ensures { (config : Configured) → SeatIsAlone config }
{
    life_laws::lives_go_on();
    life_laws::lives_are_alone();
}

/// After any turns, what the ledger was given under the number of a connection, one record after the other, is what was
/// recorded of it. So it is what the connection's own calls alone give ([`seats_are_alone`]).
pub fn records_are_by_number()
    ensures { (r : Rule) (config : Configured) (limit room : ℕ) (turns : List Turn) (answers : List Answer) → AllFit r config limit 0 (new_ledger room) (λ key. None) 0 turns answers → (key : ℕ) (y : Seat) → seat_after r 0 key turns answers None ≡ Some y → records_under y.number (ledger_after r (new_ledger room) (λ key. None) 0 turns answers) ≡ y.life.noted }
{}
