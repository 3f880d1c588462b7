//! What a settle by the receiver results in.
use amqp_perform::ReceiverSettleMode;

/// How the delivery with an id stands as to its settlement by the receiver [2.6.12].
#[derive(Clone, Copy, Debug, PartialEq, Eq)]
pub enum Standing {
    /// No open delivery has the id.
    Absent,
    /// The delivery was not handed up.
    Untaken,
    /// It is in mode second (rcv-settle-mode), and the sender was told what became of it.
    Told,
    /// It was handed up and can be settled. In mode first a settle ends it. In mode second the sender is
    /// told, and then settles it [2.8.3].
    Awaiting(ReceiverSettleMode),
}

/// Why the receiver can't settle a range of ids. The link is unchanged.
#[derive(Clone, Copy, Debug, PartialEq, Eq)]
pub enum SettleFault {
    /// An open delivery with one of the ids was not handed up.
    NotTaken,
    /// One of the deliveries is in mode second, and the sender was already told what became of it.
    AlreadyTold,
}
