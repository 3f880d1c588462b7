//! What `amqp_hub` promises.

ghost use Rattle.std.specs.Prelude.{◌≡◌, ◌<◌, ◌+◌, ◌^◌, ◌-◌, ℕ, List, true, min, None, Some, map, take, IfOk, IfErr, OnOk};
ghost use Rattle.slab.specs.Slab.{get, slab_len};
ghost use Rattle.amqp_hub.specs.Ledgers.{new_ledger, records_under};
ghost use Rattle.amqp_hub.specs.Members.{hear_fault};
ghost use Rattle.amqp_hub.specs.Turns.{Seat, turn_of, answer_of, seat_after, ledger_after, AllFit, IsOpened, OpenRefused, AreSame, HearsTo, HearRefusedBy, IsLentBy, IsDueAt, SendsAt, IsGone, refusal_at, all_held};
ghost use Rattle.amqp_serve.specs.Lives.{IsAlone};
ghost use Rattle.amqp_serve.specs.Servers.{status_after};

use amqp_endpoint::Config;
use amqp_hub::{Hub, HubFault, Keeper, Progress, Replayed, Turn};
use amqp_serve::{Rule, Stepped};
use std::alloc::{AllocError, Allocator};

/// Makes a list of turns on a new hub with a ledger.
pub fn hub_replay<A: Allocator + Copy>(
    alloc: A,
    config: &Config<A>,
    rule: Rule,
    limit: usize,
    room: usize,
    turns: &[Turn<'_>],
) -> Result<Replayed<A>, AllocError>
    ensures alone { IfOk result (λ x. (n key : ℕ) (y : Seat) →
        seat_after rule 0 key (take n (map turn_of turns.now)) (take n (map answer_of x.answers.items)) None ≡ Some y → IsAlone config.now y.life) }
    ensures fits { IfOk result (λ x. AllFit rule config.now limit 0 (new_ledger room) (λ key. None) 0 (map turn_of turns.now) (map answer_of x.answers.items)) }
    ensures kept { IfOk result (λ x. x.ledger ≡ ledger_after rule (new_ledger room) (λ key. None) 0 (map turn_of turns.now) (map answer_of x.answers.items)) }
    ensures whose { IfOk result (λ x. (key : ℕ) (y : Seat) → seat_after rule 0 key (map turn_of turns.now) (map answer_of x.answers.items) None ≡ Some y → records_under y.number x.ledger ≡ y.life.noted) }
{
    amqp_hub::hub_replay(alloc, config, rule, limit, room, turns)
}

/// Opens a connection, served by this rule, whose records are put under this number.
pub fn open<K: Keeper + Drop, A: Allocator + Copy>(
    hub: &mut Hub<K, A>,
    config: Config<A>,
    rule: Rule,
    number: u64,
) -> Result<usize, HubFault>
    ensures keeper { hub.new.keeper ≡ hub.old.keeper }
    ensures opened { IfOk result (λ key. IsOpened rule config number hub.old.members hub.new.members key × (slab_len hub.old.members < hub.old.limit)) }
    ensures refused { IfErr result (λ f. AreSame hub.old.members hub.new.members × OpenRefused hub.old.limit (slab_len hub.old.members) f) }
{
    hub.open(config, rule, number)
}

/// Hears a piece, and puts what it recorded.
pub fn hear<K: Keeper + Drop, A: Allocator + Copy>(
    hub: &mut Hub<K, A>,
    key: usize,
    piece: &[u8],
) -> Result<Stepped, HubFault>
    ensures limit { hub.new.limit ≡ hub.old.limit }
    ensures room { IfOk result (λ s. K.roomy hub.old.keeper ≡ true) }
    ensures heard { IfOk result (λ s. (noted : List ℕ) × HearsTo K.accepts (status_after s.done) hub.old.members hub.new.members key piece.now s noted hub.old.keeper hub.new.keeper) }
    ensures refused { IfErr result (λ f. AreSame hub.old.members hub.new.members × (hub.new.keeper ≡ hub.old.keeper) × HearRefusedBy (K.roomy hub.old.keeper) (refusal_at (get hub.old.members key) hear_fault) f) }
{
    hub.hear(key, piece)
}

/// Has the keeper take all records for good.
pub fn settle<K: Keeper + Drop, A: Allocator + Copy>(hub: &mut Hub<K, A>) -> Progress
    ensures members { hub.new.members ≡ hub.old.members }
    ensures settles { K.settles hub.old.keeper result hub.new.keeper }
{
    hub.settle()
}

/// Lends what waits for a peer, once the keeper has taken all records for good.
pub fn lend<K: Keeper + Drop, A: Allocator + Copy>(hub: &Hub<K, A>, key: usize) -> &[u8]
    ensures { IsLentBy (K.settled hub.now.keeper) (get hub.now.members key) result.now }
{
    hub.lend(key)
}

/// Drops what was sent of what waits for a peer.
pub fn sent<K: Keeper + Drop, A: Allocator + Copy>(hub: &mut Hub<K, A>, key: usize, n: usize)
    requires { IsDueAt (get hub.old.members key) n }
    ensures keeper { hub.new.keeper ≡ hub.old.keeper }
    ensures sent { SendsAt (get hub.old.members key) hub.old.members hub.new.members key n }
{
    hub.sent(key, n);
}

/// Removes a connection. What the keeper has of it stays.
pub fn remove<K: Keeper + Drop, A: Allocator + Copy>(
    hub: &mut Hub<K, A>,
    key: usize,
) -> Result<(), HubFault>
    ensures keeper { hub.new.keeper ≡ hub.old.keeper }
    ensures gone { OnOk result (IsGone hub.old.members hub.new.members key) }
    ensures refused { IfErr result (λ f. AreSame hub.old.members hub.new.members × (get hub.old.members key ≡ None) × (f ≡ HubFault.NoKey)) }
{
    hub.remove(key)
}

/// Returns the bytes that all connections and the keeper hold.
pub fn held<K: Keeper + Drop, A: Allocator + Copy>(hub: &Hub<K, A>) -> u64
    ensures { result ≡ min (all_held hub.now.members + K.holds hub.now.keeper) (2 ^ 64 - 1) }
{
    hub.held()
}
