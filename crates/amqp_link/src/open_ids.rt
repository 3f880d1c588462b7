//! The delivery-ids of the open deliveries of a link, one by one.
ghost use Rattle.std.specs.Prelude.{◌≡◌, ◌∷◌, [], drop, IfSome, IfNone};
ghost use Rattle.std.specs.List.{AllByRecursion};
ghost use Rattle.slab.specs.Slab.{ContainsKey};
ghost use Rattle.amqp_link.specs.Keeping.{keys_of, ids_at};

use crate::open_delivery::OpenDelivery;
use slab::Slab;
use std::alloc::{Allocator, Global};
use std::marker::Model;

/// The delivery-ids of the open deliveries of a link, in the order in which these began.
#[derive(Drop)]
pub struct OpenIds<'a, A: Allocator + Copy = Global> {
    slab: &'a Slab<OpenDelivery<A>, A>,
    places: &'a [Option<usize>],
    /// The next place to look at.
    at: usize,
    /// The id of the unfinished delivery, which comes last.
    unfinished: Option<u32>,
}

impl<'a, A: Allocator + Copy> Model for OpenIds<'a, A> {
    ghost use Rattle.std.specs.Prelude.{ℕ, List};

    ghost Value = { List ℕ };

    ghost use Rattle.amqp_link.specs.Keeping.{ids_at, AreThere};

    ghost view = { λ a. ids_at a.slab.now a.places.now a.at a.unfinished };

    ghost invariant = { λ a. AreThere a.slab.now a.places.now a.at };
}

impl<'a, A: Allocator + Copy> OpenIds<'a, A> {
    /// Makes an iterator over the ids of the deliveries at these places, followed by that of the
    /// unfinished one.
    pub fn new(
        slab: &'a Slab<OpenDelivery<A>, A>,
        places: &'a [Option<usize>],
        unfinished: Option<u32>,
    ) -> Self
        requires { AllByRecursion (ContainsKey slab.now) (keys_of places.now) }
        ensures { result ≡ ids_at slab.now places.now 0 unfinished }
    {
        OpenIds {
            slab,
            places,
            at: 0,
            unfinished,
        }
    }

    /// Returns the next id; `None` if none is left.
    pub fn next(&mut self) -> Option<u32>
        ensures none { IfNone result (self.old ≡ []) }
        ensures some { IfSome result (λ id. self.old ≡ id ∷ self.new) }
    {
        match next_key(self.places, self.at) {
            Some((key, at)) => {
                self.at = at;
                Some(self.slab[key].delivery_id)
            }
            None => self.unfinished.take(),
        }
    }
}

/// Returns the next key from a place on, and the place after it.
fn next_key(places: &[Option<usize>], from: usize) -> Option<(usize, usize)>
    ensures none { IfNone result (keys_of (drop from places.now) ≡ []) }
    ensures some { IfSome result (λ next. keys_of (drop from places.now) ≡ next.0 ∷ keys_of (drop next.1 places.now)) }
{
    let mut at = from;
    while at < places.len() {
        if let Some(key) = places[at] {
            return Some((key, at + 1));
        }
        at += 1;
    }
    None
}
