//! Laws of bodies and of written frames. Each function does nothing: its contract is the law.

ghost use Rattle.std.specs.Prelude.{◌≡◌, ℕ, ◌+◌, ◌^◌, ◌<◌, ◌≤◌, List, [], ◌∷◌, ◌++◌, length, slice_index, false, Some, None};
ghost use Rattle.std.specs.List.{concat};
ghost use Rattle.amqp_frame.specs.Units.{IsFrame, channel_of, body_of};
ghost use Rattle.amqp_types.specs.Spelling.{Spells};
ghost use Rattle.amqp_types.specs.Trees.{Tree, ListOf, depth_of};
ghost use Rattle.amqp_perform.specs.declared.condition.Condition.{Condition};
ghost use Rattle.amqp_perform.specs.declared.outcome.Outcome.{Outcome};
ghost use Rattle.amqp_perform.specs.declared.performative.Performative.{Performative};
ghost use Rattle.amqp_perform.specs.Again.{AreOfFields};
ghost use Rattle.amqp_perform.specs.declared.descriptor.Descriptor.{Descriptor};
ghost use Rattle.amqp_perform.specs.declared.descriptor.Descriptor.TheVariants.{Error};
ghost use Rattle.amqp_perform.specs.Bodies.{BodyOf, Body, IsFaultOf};
ghost use Rattle.amqp_perform.specs.Cells.{Cell, Whole, Bytes};
ghost use Rattle.amqp_perform.specs.Conditions.{condition_span, condition_of, condition_in, is_error};
ghost use Rattle.amqp_perform.specs.Frames.{null_text, cell_text, trimmed, list_text, list_frame, performative_text, written_cells, frame_of};
ghost use Rattle.amqp_perform.specs.Items.{Item, trees_of, SpellsDescribed};
ghost use Rattle.amqp_perform.specs.Outcomes.{outcome_span, outcome_of, outcome_in, is_state};
ghost use Rattle.amqp_perform.specs.Performatives.{type_of};
ghost use Rattle.amqp_perform.specs.BodyReading.{body_at, fault_of};
ghost use Rattle.amqp_perform.specs.Said.{Said, said, said_texts, said_text, said_frame, MayBeSaid};
ghost use Rattle.amqp_perform.specs.Tables.{FieldType, uint, Field, fields_of};

/// Reading follows the grammar: a body is read as a performative and a payload exactly if it says them. [2.7]
pub fn reading_is_exact()
    ensures found { (bytes : List ℕ) (d : Descriptor) (cells : List Cell) (payload : List ℕ) → ((i : ℕ) → slice_index bytes i < 256)
        → body_at bytes ≡ Some (d, cells, payload) → BodyOf bytes d cells payload }
    ensures only { (bytes : List ℕ) (d : Descriptor) (cells : List Cell) (payload : List ℕ) → BodyOf bytes d cells payload
        → body_at bytes ≡ Some (d, cells, payload) }
{}

/// If no performative is read, the fault is one that the body has. [1.2]
pub fn faults_are_exact()
    ensures { (bytes : List ℕ) → ((i : ℕ) → slice_index bytes i < 256) → body_at bytes ≡ None → IsFaultOf bytes (fault_of bytes) }
{}

/// The body of a canonical frame says what was written: the performative with defaults in place of what was
/// left out, and the payload after it. [2.7]
pub fn written_is_read()
    ensures { (p : Performative) (fields : List Field) (payload : List ℕ) → fields_of (type_of p) ≡ Some fields → AreOfFields fields (written_cells p)
        → length (performative_text p) < 2 ^ 32 → BodyOf (performative_text p ++ payload) (type_of p) (written_cells p) payload }
{}

/// A canonical frame is one frame of the stream, on its channel. [2.3.1]
pub fn written_is_a_frame()
    ensures { (channel max : ℕ) (p : Performative) (payload : List ℕ) → channel < 2 ^ 16 → length (frame_of channel p payload) < 2 ^ 32 → length (frame_of channel p payload) ≤ max
        → IsFrame max (frame_of channel p payload) × (channel_of (frame_of channel p payload) ≡ channel) × (body_of (frame_of channel p payload) ≡ performative_text p ++ payload) }
{}

/// What is written for a performative depends on its type and its fields alone, not on where it lies in memory. [2.7]
pub fn written_by_its_fields()
    ensures text { (p : Performative) → performative_text p ≡ said_text (said p) }
    ensures frame { (channel : ℕ) (p : Performative) (payload : List ℕ) → frame_of channel p payload ≡ said_frame channel (said p) payload }
{}

/// The body of a canonical frame says the fields that were written, and is read so. [2.7]
pub fn said_is_read()
    ensures body { (s : Said) (payload : List ℕ) → MayBeSaid s → length (said_text s) < 2 ^ 32 → BodyOf (said_text s ++ payload) s.type s.cells payload }
    ensures read { (s : Said) (payload : List ℕ) → MayBeSaid s → length (said_text s) < 2 ^ 32 → body_at (said_text s ++ payload) ≡ Some (s.type, s.cells, payload) }
{}

/// The canonical frame of fields is one frame of the stream, on its channel, with their spelling and the payload as
/// its body. [2.3.1]
pub fn said_is_a_frame()
    ensures { (channel max : ℕ) (s : Said) (payload : List ℕ) → channel < 2 ^ 16 → length (said_frame channel s payload) < 2 ^ 32 → length (said_frame channel s payload) ≤ max
        → IsFrame max (said_frame channel s payload) × (channel_of (said_frame channel s payload) ≡ channel) × (body_of (said_frame channel s payload) ≡ said_text s ++ payload) }
{}

/// How long a canonical frame is: eleven bytes, the list of its fields without the nulls at the end, and the payload.
/// So a payload adds its own length, and a frame is at most twenty bytes longer than its fields and its payload. [2.3.1; 1.6.22]
pub fn frames_are_as_long()
    ensures parts { (channel : ℕ) (s : Said) (payload : List ℕ) → length (said_frame channel s payload) ≡ 11 + length (list_text (trimmed (said_texts s))) + length payload }
    ensures payload { (channel : ℕ) (s : Said) (payload : List ℕ) → length (said_frame channel s payload) ≡ length (said_frame channel s []) + length payload }
    ensures most { (channel : ℕ) (s : Said) (payload : List ℕ) → length (said_frame channel s payload) ≤ 20 + length (concat (said_texts s)) + length payload }
{}

/// A uint takes at most five bytes, and a binary, a string or a symbol at most five more than it has. [1.6.5, 1.6.19 to 1.6.21]
pub fn fields_are_as_long()
    ensures numbers { (n : ℕ) → length (cell_text uint (Whole n)) ≤ 5 }
    ensures octets { (type : FieldType) (octets : List ℕ) → length (cell_text type (Bytes octets)) ≤ 5 + length octets }
{}

/// Leaving out a field makes a frame no longer, whatever the field was. [1.4]
pub fn a_null_adds_no_more()
    ensures { (channel : ℕ) (d : Descriptor) (before behind : List (List ℕ)) (text payload : List ℕ) → 0 < length text
        → length (list_frame channel d (before ++ null_text ∷ behind) payload) ≤ length (list_frame channel d (before ++ text ∷ behind) payload) }
{}

/// What is read may be written: each field of a body that is made of bytes meets what `written_is_read` requires of
/// it, and so does what is written for a performative that was read. [2.7]
pub fn what_is_read_may_be_written()
    ensures cells { (bytes : List ℕ) (d : Descriptor) (fields : List Field) (cells : List Cell) (payload : List ℕ) → ((i : ℕ) → slice_index bytes i < 256)
        → BodyOf bytes d cells payload → fields_of d ≡ Some fields → AreOfFields fields cells }
    ensures performatives { (bytes : List ℕ) (p : Performative) (fields : List Field) (payload : List ℕ) → ((i : ℕ) → slice_index bytes i < 256)
        → Body bytes p payload → fields_of (type_of p) ≡ Some fields → AreOfFields fields (written_cells p) }
{}

/// The condition of an error is the one that its first item names, whatever follows the error. Any other value
/// has none. What is written for a condition is read as that condition. [2.8.14]
pub fn conditions_are_found()
    ensures first { (items : List Item) (text rest : List ℕ) → SpellsDescribed Error items text → depth_of (ListOf (trees_of items)) ≤ 31
        → condition_of (text ++ rest) ≡ condition_in items }
    ensures other { (t : Tree) (text rest : List ℕ) → Spells t text → depth_of t ≤ 32 → is_error t ≡ false → condition_of (text ++ rest) ≡ Condition.Other }
    ensures spelled { (condition : Condition) → condition_of (condition_span condition) ≡ condition }
{}

/// The outcome of a state is the one that describes it, with its first two items as the flags, whatever
/// follows the state. Any other value is none. What is written for an outcome is read as that outcome. [3.4]
pub fn outcomes_are_found()
    ensures first { (d : Descriptor) (items : List Item) (text rest : List ℕ) → SpellsDescribed d items text → depth_of (ListOf (trees_of items)) ≤ 31
        → outcome_of (text ++ rest) ≡ outcome_in d items }
    ensures other { (t : Tree) (text rest : List ℕ) → Spells t text → depth_of t ≤ 32 → is_state t ≡ false → outcome_of (text ++ rest) ≡ None }
    ensures spelled { (outcome : Outcome) → outcome_of (outcome_span outcome) ≡ Some outcome }
{}
