//! Laws of streams alone, whatever cuts them. Each function does nothing: its contract is the law.
ghost use Rattle.std.specs.Prelude.{◌≡◌, ℕ, ◌<◌, ◌≤◌, List, ◌∷◌, [], ◌++◌, length};
ghost use Rattle.amqp_frame.specs.Units.{StreamUnit, bytes_of, IsUnit, IsReading, Units, due_after};
ghost use Rattle.amqp_frame.specs.Splits.{SplitterState, Waits, IsHeld, TakesNothing, IsOver, WentBy};
ghost use Rattle.amqp_frame.specs.declared.units.Stage.{Stage};
ghost use Rattle.amqp_frame.specs.declared.units.TheConstants.{HEADER};

/// The header is that of version 1.0.0 without a security layer, as spelled in [2.2]: `AMQP`, 0, 1, 0, 0.
pub fn header_is_as_the_standard_spells_it()
    ensures { HEADER ≡ 65 ∷ 77 ∷ 81 ∷ 80 ∷ 0 ∷ 1 ∷ 0 ∷ 0 ∷ [] }
{}

/// No unit begins another.
pub fn no_unit_begins_another()
    ensures { (max : ℕ) (stage : Stage) (u v : StreamUnit) (a b : List ℕ) → 8 ≤ max → IsUnit max stage u → IsUnit max stage v → bytes_of u ++ a ≡ bytes_of v ++ b → (u ≡ v) × (a ≡ b) }
{}

/// Each unit has at least four bytes.
pub fn each_unit_has_bytes()
    ensures { (max : ℕ) (stage : Stage) (u : StreamUnit) → IsUnit max stage u → 4 ≤ length (bytes_of u) }
{}

/// Each stream can be read as units and a rest.
pub fn each_stream_is_read()
    ensures { (max : ℕ) (stage : Stage) (stream : List ℕ) → (us : List StreamUnit) × (rest : List ℕ) × IsReading max stage stream us rest }
{}

/// A stream has one reading. So it does not matter in which pieces it came.
pub fn one_reading()
    ensures { (max : ℕ) (stage : Stage) (stream : List ℕ) (us vs : List StreamUnit) (rest other : List ℕ) → 8 ≤ max → IsReading max stage stream us rest → IsReading max stage stream vs other → (us ≡ vs) × (rest ≡ other) }
{}

/// If no unit waits and the splitter took all that it takes, the units that went by are those
/// of the whole stream. The rest is what it holds and whatever it did not take.
pub fn reading_ends()
    ensures { (s : SplitterState) (us : List StreamUnit) (taken more : List ℕ) → IsHeld s.limit s.stage s.filled → ((u : StreamUnit) → Waits s u → ⊥) → (0 < length more → TakesNothing s) → WentBy s us taken → Units s.limit (taken ++ more) us (s.filled ++ more) }
{}

/// If the last unit waits and is a refused header or a fault, it ends the units of the whole
/// stream. Whatever follows is the rest.
pub fn reading_stops()
    ensures { (s : SplitterState) (us : List StreamUnit) (taken more : List ℕ) (u : StreamUnit) → Waits s u → IsOver (due_after u) → WentBy s us taken → Units s.limit (taken ++ more) (us ++ u ∷ []) more }
{}
