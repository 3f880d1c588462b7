//! A law of the lines of a file.
ghost use Rattle.std.specs.Prelude.{◌≡◌, ℕ, List};
ghost use Rattle.amqp_addresses.specs.Lines.{Said};
ghost use Rattle.amqp_addresses.specs.Files.{NoTwo};
ghost use Rattle.amqp_addresses.specs.Lookups.{IsLine};

/// An address has one line at most, if no two lines say the same.
pub fn the_line_of_an_address_is_one()
    ensures { (address : List ℕ) (said : List Said) (a b : Said) → NoTwo said → IsLine address said a → IsLine address said b → a ≡ b }
{}
