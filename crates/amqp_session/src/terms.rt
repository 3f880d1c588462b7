//! What a session begins with.
/// What the begins of both sides fix for the life of the session [2.7.2].
#[derive(Clone, Copy, Debug)]
pub struct SessionTerms {
    /// The places of the incoming window at the begin. The laws require fewer than `2^31`.
    pub incoming_window: u32,
    /// The peer's next-outgoing-id at its begin.
    pub next_outgoing_id: u32,
    /// The highest handle: the lesser of both sides' handle-max.
    pub handle_max: u8,
    /// The peer's max-frame-size [2.7.1].
    pub max_frame_size: u32,
}
