//! Laws of the grammar. Each function does nothing: its contract is the law.

ghost use Rattle.std.specs.Prelude.{◌≡◌, ◌↔◌, ℕ, ◌<◌, ◌≤◌, List, ◌++◌, slice_index, None, Ok, Err};
ghost use Rattle.amqp_types.specs.declared.fault.ReadFault.{ReadFault};
ghost use Rattle.amqp_types.specs.declared.window.Window.{Window};
ghost use Rattle.amqp_types.specs.Canonical.{canonical, Fits, IsRanged, AllRanged, PairsRanged};
ghost use Rattle.amqp_types.specs.Decoding.{decoded};
ghost use Rattle.amqp_types.specs.Misreading.{IsCounted, Enough, AValue, Misread};
ghost use Rattle.amqp_types.specs.InHand.{Budget, outermost};
ghost use Rattle.amqp_types.specs.Reading.{after, value_of};
ghost use Rattle.amqp_types.specs.Spelling.{Spells};
ghost use Rattle.amqp_types.specs.Trees.{Tree, IsLawful, depth_of, nodes_of};
ghost use Rattle.amqp_types.specs.Values.{view, views, pair_views};

use crate::shape::{Shape, shape_of};
use crate::value::Value;

/// No spelling of a value begins another spelling, and no bytes spell two values. [1.2]
pub fn one_spelling()
    ensures { (t u : Tree) (a b x y : List ℕ) → Spells t a → Spells u b → a ++ x ≡ b ++ y → (a ≡ b) × (t ≡ u) }
{}

/// The canonical spelling of a lawful and ranged value that fits spells the value. [1.2]
pub fn canonical_spells()
    ensures { (t : Tree) → IsLawful t → IsRanged t → Fits t → Spells t (canonical t) }
{}

/// Canonical spellings of lawful and ranged values that fit are equal exactly if the values are. [1.2]
pub fn canonical_tells_apart()
    ensures { (t u : Tree) → IsLawful t → IsRanged t → Fits t → IsLawful u → IsRanged u → Fits u
        → canonical t ≡ canonical u ↔ t ≡ u }
{}

/// Reading follows the grammar: a value is read exactly if the bytes begin with a spelling of it, and it is
/// lawful and within the limits. If nothing is kept, only the depth is limited, and equal keys pass. [1.2]
pub fn reading_is_exact()
    ensures found { (depth nodes : ℕ) (bytes rest : List ℕ) (t : Tree) → ((i : ℕ) → slice_index bytes i < 256)
        → decoded depth nodes bytes ≡ Ok (t, rest)
        → (text : List ℕ) × Spells t text × (bytes ≡ text ++ rest) × IsLawful t × (depth_of t ≤ depth) × (nodes_of t ≤ nodes) }
    ensures only { (depth nodes : ℕ) (t : Tree) (text rest : List ℕ) → Spells t text → IsLawful t → depth_of t ≤ depth → nodes_of t ≤ nodes
        → decoded depth nodes (text ++ rest) ≡ Ok (t, rest) }
    ensures skip_found { (depth : ℕ) (bytes rest : List ℕ) → ((i : ℕ) → slice_index bytes i < 256)
        → after (value_of depth None bytes) ≡ Ok rest
        → (t : Tree) × (text : List ℕ) × Spells t text × (bytes ≡ text ++ rest) × (depth_of t ≤ depth) }
    ensures skip_only { (depth : ℕ) (t : Tree) (text rest : List ℕ) → Spells t text → depth_of t ≤ depth
        → after (value_of depth None (text ++ rest)) ≡ Ok rest }
    ensures value_only { (depth : ℕ) (t : Tree) (text rest : List ℕ) → Spells t text → depth_of t ≤ depth
        → value_of depth None (text ++ rest) ≡ Ok (t, None, rest) }
{}

/// Bytes are misread with a fault exactly if the reading function returns that fault. [1.2]
pub fn misreading_is_exact()
    ensures found { (depth : ℕ) (budget : Budget) (bytes : List ℕ) (fault : ReadFault) → ((i : ℕ) → slice_index bytes i < 256)
        → value_of depth budget bytes ≡ Err fault → Misread (AValue 1) depth (outermost bytes) budget bytes fault }
    ensures only { (depth : ℕ) (budget : Budget) (bytes : List ℕ) (fault : ReadFault)
        → Misread (AValue 1) depth (outermost bytes) budget bytes fault → value_of depth budget bytes ≡ Err fault }
{}

/// Bytes that begin with a spelling of a value within the limits are not misread. If keys are compared, the
/// value has to be lawful too. [1.2]
pub fn no_spelling_is_misread()
    ensures { (t : Tree) (text rest : List ℕ) (depth : ℕ) (w : Window) (budget : Budget) (fault : ReadFault) → Spells t text
        → depth_of t ≤ depth → Enough budget (nodes_of t) → (IsCounted budget → IsLawful t) → Misread (AValue 1) depth w budget (text ++ rest) fault → ⊥ }
{}

/// What is written is read back, whatever follows it. This holds for the canonical spelling of a lawful and
/// ranged value that fits and is within the limits. [1.2]
pub fn written_is_read()
    ensures { (depth nodes : ℕ) (t : Tree) (rest : List ℕ) → IsLawful t → IsRanged t → Fits t → depth_of t ≤ depth → nodes_of t ≤ nodes
        → decoded depth nodes (canonical t ++ rest) ≡ Ok (t, rest) }
{}

/// Every value in memory is ranged: its numbers, characters and bytes are valid for their kinds. [1.6]
#[cycle(ranged)]
pub fn ranged(value: &Value)
    ensures { IsRanged (view value.now) }
{
    match shape_of(value) {
        Shape::Number(_, _) => {}
        Shape::Octets(_, _) => {}
        Shape::List(items) => all_ranged(items),
        Shape::Map(entries) => pairs_ranged(entries),
        Shape::Array(descriptors, _, items) => {
            all_ranged(descriptors);
            all_ranged(items);
        }
        Shape::Described(descriptor, described) => {
            ranged(descriptor);
            ranged(described);
        }
    }
}

#[cycle(ranged)]
fn all_ranged(items: &Vec<Value>)
    ensures { AllRanged (views items.now.items) }
{
    for item in items {
        ranged(item);
    }
}

#[cycle(ranged)]
fn pairs_ranged(entries: &Vec<(Value, Value)>)
    ensures { PairsRanged (pair_views entries.now.items) }
{
    for (key, value) in entries {
        ranged(key);
        ranged(value);
    }
}
