//! What holds of a program's calls on one handle. The calls do nothing: their contracts are the laws.
ghost use Rattle.std.specs.Prelude.{◌≡◌, ℕ, List};
ghost use Rattle.amqp_endpoint.specs.Limits.{Limit};
ghost use Rattle.amqp_endpoint.specs.Runs.{Call, Answer};
ghost use Rattle.amqp_endpoint.specs.Traces.{AreInRange};
ghost use Rattle.wuleshomia.specs.declared.data.Settings.{Settings};
ghost use Rattle.wuleshomia.specs.declared.held.Held.{Held};
ghost use Rattle.wuleshomia.specs.Exports.{IsNew, configured};
ghost use Rattle.wuleshomia.specs.Programs.{Exports, IsProgram, IsRunTo};

use amqp_endpoint::laws::{fills_are_feeds, runs_have_a_history};
use amqp_serve::step_laws::steps_are_calls;

/// What a program does with one handle, from one moment to another, is a run of its endpoint.
pub fn exports_are_a_run()
    ensures { (s t : Held) (calls : List Call) (answers : List Answer) → Exports s calls answers t → IsRunTo s.endpoint calls answers t.endpoint }
{
    fills_are_feeds();
    steps_are_calls();
}

/// From its open on, all that the theorem over runs says of an endpoint holds of a program's
/// endpoint, if the calls are in their ranges [2.2 to 2.7].
pub fn programs_have_a_history()
    ensures { (c : Settings) (name : List ℕ) (rows : List Limit) (s t : Held) (calls : List Call) (answers : List Answer) → IsNew c name rows s → Exports s calls answers t → AreInRange calls → IsProgram (configured c name rows) calls answers t.endpoint }
{
    exports_are_a_run();
    runs_have_a_history();
}
