//! How a sender names itself.

use std::alloc::{Allocator, Global};

/// How a sender names itself and its link.
#[derive(Drop)]
pub struct SendConfig<A: Allocator + Copy = Global> {
    /// The container-id of its open [2.7.1].
    pub container_id: String<A>,
    /// The name of its link [2.7.3].
    pub name: String<A>,
}
