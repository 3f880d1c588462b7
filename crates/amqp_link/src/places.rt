//! The places of deliveries in link order. Each has the key of its delivery, or is empty.
ghost use Rattle.std.specs.Prelude.{◌≡◌, ◌<◌, ◌≤◌, ◌+◌, ◌*◌, ◌^◌, ◌∷◌, [], length, drop, find, map, option_map, option_to_list, slice_get, sum_by, vec_capacity, IsSome, IsTrue, Some};
ghost use Rattle.std.specs.List.{AllByRecursion};
ghost use Rattle.slab.specs.Slab.{ContainsKey, slab_len};
ghost use Rattle.amqp_link.specs.Links.{delivery_bytes};
ghost use Rattle.amqp_link.specs.Keeping.{delivery_of, at_key, keys_of, AreKeys, SameKeys, SameDeliveries, asks_of, IsFoundAt, Settles};

use crate::open_delivery::{OpenDelivery, Question, Settling};
use slab::Slab;
use std::alloc::Allocator;

/// Added to the number of open deliveries when places are counted: it isn't worthwhile to close up a few empty
/// ones.
const FEW: usize = 4;

/// Where one look found a delivery.
#[derive(Clone, Copy)]
pub enum Found {
    /// It was handed up, and is at this place.
    HandedUp(usize),
    /// It is ready, and is at this place.
    Ready(usize),
    /// It is unfinished.
    Unfinished,
    /// The look did not find it.
    Unknown,
}

/// What a settle resulted in.
#[derive(Clone, Copy)]
pub struct Settled {
    /// How many deliveries the settle counts.
    pub count: usize,
    /// The bytes that are no longer held.
    pub freed: u64,
}

/// Returns the first delivery at these places that answers the question with yes.
pub fn find<'a, A: Allocator + Copy>(
    slab: &'a Slab<OpenDelivery<A>, A>,
    places: &[Option<usize>],
    question: Question,
) -> Option<&'a OpenDelivery<A>>
    requires { AllByRecursion (ContainsKey slab.now) (keys_of places.now) }
    ensures { option_map (λ d. delivery_of d.now) result ≡ find (asks_of question) (map (at_key slab.now) (keys_of places.now)) }
{
    for place in places {
        if let Some(key) = place {
            let delivery = &slab[*key];
            if delivery.answers(question) {
                return Some(delivery);
            }
        }
    }
    None
}

/// Returns where the delivery with an id is, if it is the one under this key. Looks only under the key and at
/// the delivery's noted place.
pub fn look<A: Allocator + Copy>(
    slab: &Slab<OpenDelivery<A>, A>,
    places: &[Option<usize>],
    handed_up: usize,
    unfinished: Option<usize>,
    key: usize,
    id: u32,
) -> Found
    ensures { IsFoundAt slab.now places.now handed_up unfinished key id result }
{
    let Some(delivery) = slab.get(key) else {
        return Found::Unknown;
    };
    if delivery.delivery_id != id {
        return Found::Unknown;
    }
    let place = delivery.place;
    if !holds(places, place, key) {
        return match unfinished {
            Some(other) if other == key => Found::Unfinished,
            _ => Found::Unknown,
        };
    }
    if place < handed_up {
        Found::HandedUp(place)
    } else {
        Found::Ready(place)
    }
}

/// Returns whether this key is at a place.
fn holds(places: &[Option<usize>], place: usize, key: usize) -> bool
    ensures { IsTrue result → slice_get places.now place ≡ Some (Some key) }
{
    match places.get(place) {
        Some(Some(other)) => *other == key,
        _ => false,
    }
}

/// Settles the deliveries at these places, one after another. If one is then open no longer, its place becomes
/// empty.
pub fn settle<A: Allocator + Copy>(
    slab: &mut Slab<OpenDelivery<A>, A>,
    places: &mut [Option<usize>],
    settling: Settling,
) -> Settled
    requires keys { AreKeys slab.old (keys_of places.old) }
    requires fits { sum_by delivery_bytes (map (at_key slab.old) (keys_of places.old)) < 2 ^ 64 }
    ensures { Settles settling slab.old slab.new places.old places.new result.count result.freed }
{
    let mut all = Settled { count: 0, freed: 0 };
    for place in places.iter_mut() {
        let one = settle_at(slab, place, settling);
        all.count += one.count;
        all.freed += one.freed;
    }
    all
}

/// Settles the delivery at one place, if there is one. If it is then open no longer, the place becomes empty.
// Inlined for `bench_functions endpoint`.
#[inline(always)]
pub fn settle_at<A: Allocator + Copy>(
    slab: &mut Slab<OpenDelivery<A>, A>,
    place: &mut Option<usize>,
    settling: Settling,
) -> Settled
    requires { AreKeys slab.old (option_to_list place.old) }
    ensures { Settles settling slab.old slab.new (place.old ∷ []) (place.new ∷ []) result.count result.freed }
{
    let Some(key) = *place else {
        return Settled { count: 0, freed: 0 };
    };
    let count = usize::from(slab[key].counts(settling));
    if !slab[key].ends(settling) {
        slab[key].settle(settling);
        return Settled { count, freed: 0 };
    }
    *place = None;
    let freed = slab.remove(key).bytes();
    Settled { count, freed }
}

/// Closes up empty places if there are many, and then notes each delivery's place. The first `handed_up` places
/// belong to deliveries that were handed up, the later ones to ready deliveries.
// Inlined for `bench_functions endpoint`.
#[tactic(auto, using(crate::proofs::Hints::same_deliveries))]
#[inline(always)]
pub fn close_up<A: Allocator + Copy>(
    slab: &mut Slab<OpenDelivery<A>, A>,
    places: &mut Vec<Option<usize>, A>,
    handed_up: &mut usize,
)
    requires split { handed_up.old ≤ length places.old.items }
    requires filled { AllByRecursion IsSome (drop handed_up.old places.old.items) }
    requires keys { length (keys_of places.old.items) ≤ slab_len slab.old }
    requires fits { slab_len slab.old < 2 ^ 62 }
    ensures same { SameKeys places.old.items places.new.items handed_up.old handed_up.new }
    ensures few { length places.new.items + 1 ≤ 4 * (slab_len slab.old + 4) }
    ensures room { vec_capacity places.old ≤ vec_capacity places.new }
    ensures deliveries { SameDeliveries slab.old slab.new }
{
    let count = places.len();
    close(places, handed_up, slab.len());
    if places.len() < count {
        number(slab, places);
    }
}

/// Notes each delivery's place.
#[tactic(auto, using(crate::proofs::Hints::same_deliveries, crate::proofs::Hints::same_still))]
fn number<A: Allocator + Copy>(slab: &mut Slab<OpenDelivery<A>, A>, places: &[Option<usize>])
    ensures { SameDeliveries slab.old slab.new }
{
    for (place, key) in places.iter().enumerate() {
        if let Some(key) = key {
            number_one(slab, *key, place);
        }
    }
}

/// Notes the place of the delivery under a key, if there is one.
pub fn number_one<A: Allocator + Copy>(
    slab: &mut Slab<OpenDelivery<A>, A>,
    key: usize,
    place: usize,
)
    ensures { SameDeliveries slab.old slab.new }
{
    if slab.contains(key) {
        slab[key].stands_at(place);
    }
}

/// Closes up empty places: all of them if no delivery is open, else once about three in four are empty.
fn close<A: Allocator + Copy>(
    places: &mut Vec<Option<usize>, A>,
    handed_up: &mut usize,
    deliveries: usize,
)
    requires split { handed_up.old ≤ length places.old.items }
    requires filled { AllByRecursion IsSome (drop handed_up.old places.old.items) }
    requires keys { length (keys_of places.old.items) ≤ deliveries }
    requires fits { deliveries < 2 ^ 62 }
    ensures same { SameKeys places.old.items places.new.items handed_up.old handed_up.new }
    ensures few { length places.new.items + 1 ≤ 4 * (deliveries + 4) }
    ensures room { vec_capacity places.old ≤ vec_capacity places.new }
{
    let count = places.len();
    if deliveries == 0 {
        places.clear();
        *handed_up = 0;
    } else if count / 4 >= deliveries + FEW {
        let ready = count - *handed_up;
        places.retain(|place| place.is_some());
        *handed_up = places.len() - ready;
    }
}
