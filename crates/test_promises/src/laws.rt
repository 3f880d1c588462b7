//! What is promised for configurations alone.

ghost use Rattle.std.specs.Prelude.{◌≡◌, ℕ, ◌+◌, ◌*◌, [], ◌∷◌, None};
ghost use Rattle.amqp_endpoint.specs.Configs.{Configured};
ghost use Rattle.amqp_endpoint.specs.Held.{counted_most};
ghost use Rattle.amqp_endpoint.specs.Replies.{open_said};
ghost use Rattle.amqp_perform.specs.declared.descriptor.Descriptor.{Descriptor};
ghost use Rattle.amqp_perform.specs.Cells.{Absent, Whole, Bytes};

use amqp_endpoint::laws;

/// Without limits for links, the bound for this many sessions and links is a frame, 8,192 bytes of output, 64
/// for each session, and 1,407 for each link. For each allowed delivery of a link it counts the longest message
/// and 96 more.
pub fn the_bound_without_limits()
    ensures { (config : Configured) (sessions links : ℕ) → config.limits ≡ [] → counted_most config sessions links ≡ config.max_frame + 8192 + 64 * sessions + links * (1407 + config.bounds.allowed * (config.bounds.max_message_size + 96)) }
{}

/// If no idle-time-out is announced, the open states the container-id, the longest frame and the highest
/// channel, and nothing else.
pub fn opens_are_plain_without_a_time_out()
    ensures { (config : Configured) (channel_max : ℕ) → config.idle_time_out ≡ None → open_said config channel_max ≡ record {
      type = Descriptor.Open;
      cells = Bytes config.container_id ∷ Absent ∷ Whole config.max_frame ∷ Whole channel_max ∷ Absent ∷ Absent ∷ Absent ∷ Absent ∷ Absent ∷ Absent ∷ [];
    } }
{
    laws::opens_are_plain_without_a_time_out();
}
