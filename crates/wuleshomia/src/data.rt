//! The structs that C and the library exchange, as `c/wuleshomia.h` declares them.

/// The settings of an endpoint; see `amqp_endpoint::Config`.
#[repr(C)]
#[derive(Clone, Copy)]
pub struct Settings {
    pub max_frame: u32,
    pub channel_max: u32,
    pub handle_max: u32,
    pub allowed: u32,
    pub max_message: u32,
    pub window: u32,
    /// In milliseconds; 0 means none.
    pub idle_time_out: u32,
}

/// A row of the table of limits. Its prefix is the first `prefix_len` bytes of `prefix`, or empty if there are
/// fewer.
#[repr(C)]
#[derive(Clone, Copy)]
pub struct LimitRow {
    pub allowed: u32,
    pub max_message: u32,
    pub prefix_len: u32,
    pub prefix: [u8; 256],
}

/// What feeding bytes reported.
#[repr(C)]
#[derive(Clone, Copy)]
pub struct FedReport {
    /// How many bytes were used.
    pub used: u64,
    pub outcome: u32,
    /// Which event, if the outcome is one, else 0. Fields below that do not belong to it are 0 too.
    pub event: u32,
    pub channel: u32,
    pub handle: u32,
    /// How many deliveries were settled or dropped.
    pub count: u32,
    /// If this side ended something with an error: what that was, and the condition.
    pub scope: u32,
    pub condition: u32,
    pub reserved: u32,
}

/// A message that was taken, without its bytes.
#[repr(C)]
#[derive(Clone, Copy)]
pub struct TakenReport {
    pub len: u64,
    pub id: u32,
    pub format: u32,
    pub settled: u32,
    pub tag_len: u32,
    pub tag: [u8; 32],
}

/// The state of a live link, and how many bytes its name, its source and its target have.
#[repr(C)]
#[derive(Clone, Copy)]
pub struct LinkReport {
    pub credit: u32,
    pub opened: u32,
    pub ready: u32,
    pub allowed: u32,
    pub max_message: u32,
    pub name_len: u32,
    pub source_len: u32,
    pub target_len: u32,
}

/// What a link's target says of its node, and how many bytes its address has.
#[repr(C)]
#[derive(Clone, Copy)]
pub struct AddressReport {
    pub kind: u32,
    pub len: u32,
}

/// The rule by which an endpoint is served; see `amqp_serve::Rule`.
#[repr(C)]
#[derive(Clone, Copy)]
pub struct ServeRule {
    pub credit: u32,
    pub mark: u32,
    pub outcome: u32,
}

/// What a step of serving resulted in.
#[repr(C)]
#[derive(Clone, Copy)]
pub struct StepReport {
    pub fed: FedReport,
    /// What became of the message that was ready.
    pub receipt: u32,
    /// Its delivery-id, and its length in bytes.
    pub id: u32,
    pub len: u32,
    /// Why it was not taken, or why it was not settled.
    pub refusal: u32,
    /// What was topped up.
    pub widened: u32,
    pub granted: u32,
    pub refused: u32,
    pub reserved: u32,
}

/// Some of the bytes that a call was handed: `len` of them, from the one at `at` on.
#[repr(C)]
#[derive(Clone, Copy)]
pub struct Part {
    pub at: u64,
    pub len: u64,
}

/// The head of a segment of a spool; see `amqp_spool::Head`.
#[repr(C)]
#[derive(Clone, Copy)]
pub struct SpoolHead {
    pub spool: [u8; 16],
    pub secret: [u8; 16],
    pub first: u64,
    pub before: u64,
    pub counted: u64,
    pub life: u64,
    /// The sum of all this.
    pub sum: u64,
}

/// A batch of a spool; see `amqp_spool::BatchHead`.
#[repr(C)]
#[derive(Clone, Copy)]
pub struct SpoolBatch {
    /// How many bytes it has, with its head.
    pub len: u64,
    pub first: u64,
    pub arrived: u64,
    pub count: u32,
    pub reserved: u32,
}

/// An entry of a batch; see `amqp_spool::Entry`. The fields after `link` are of an introduction up to `target`, and of a
/// record from `tag` on; in the other kind they are 0.
#[repr(C)]
#[derive(Clone, Copy)]
pub struct SpoolEntry {
    /// How many bytes it has.
    pub len: u64,
    /// 1 is an introduction, 2 a record.
    pub kind: u32,
    pub link: u32,
    pub connection: u64,
    pub peer: Part,
    pub container: Part,
    pub name: Part,
    pub user: Part,
    pub target_kind: u32,
    pub reserved: u32,
    pub target: Part,
    pub tag: Part,
    pub record: Part,
}

/// How far a spool may be read; see `amqp_spool::End`.
#[repr(C)]
#[derive(Clone, Copy)]
pub struct SpoolEnd {
    pub spool: [u8; 16],
    pub first: u64,
    pub mark: u64,
    pub place: u64,
    pub next: u64,
}

/// Up to which number the segments of a spool may be missing; see `amqp_spool::Floor`.
#[repr(C)]
#[derive(Clone, Copy)]
pub struct SpoolFloor {
    pub spool: [u8; 16],
    pub number: u64,
    pub dropped: u64,
}

/// Up to which number a consumer has acknowledged the records of a spool; see `amqp_spool::Position`.
#[repr(C)]
#[derive(Clone, Copy)]
pub struct SpoolPosition {
    pub spool: [u8; 16],
    pub number: u64,
}
