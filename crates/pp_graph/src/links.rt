//! How an edge is linked into a list, and taken out of it.
ghost use Rattle.std.specs.Prelude.{◌≡◌, ℕ, ◌<◌, length, map};
ghost use Rattle.pp_graph.specs.Slots.{hooks, side_end, no_slot, next_set, prev_set, first_set, HasLinks, linked_slots, linked_spots, unlinked_slots, unlinked_spots, held_links, slot_edge, AreSoundSlots, IsNewest};
ghost use Rattle.pp_graph.specs.Links.{IsUncut, without};

use crate::slot::{EdgeSlot, Hooks, Side, Spot};
use pp_count::Edge;

// The edges beside this one in the list of the side.
fn hooks(slot: &EdgeSlot, side: Side) -> Hooks
    ensures { result ≡ hooks side slot.now }
{
    match side {
        Side::Out => slot.out,
        Side::In => slot.into,
    }
}

// The node that has the edge in its list of the side.
fn end_of(edge: &Edge, side: Side) -> u64
    ensures { result ≡ side_end side edge.now }
{
    match side {
        Side::Out => edge.from,
        Side::In => edge.to,
    }
}

// Gives the node another first edge.
fn set_first(spots: &mut [Spot], n: u64, side: Side, first: Option<u64>)
    requires { n < length spots.old }
    ensures { spots.new ≡ first_set side n first spots.old }
{
    match side {
        Side::Out => spots[n as usize].first_out = first,
        Side::In => spots[n as usize].first_in = first,
    }
}

// Puts another edge after this one, where there is one.
fn set_next(slots: &mut [EdgeSlot], place: Option<u64>, side: Side, next: Option<u64>)
    requires { (k : ℕ) → place ≡ Some k → k < length slots.old }
    ensures { slots.new ≡ next_set side place next slots.old }
{
    if let Some(e) = place {
        match side {
            Side::Out => slots[e as usize].out.next = next,
            Side::In => slots[e as usize].into.next = next,
        }
    }
}

// Puts another edge before this one, where there is one.
fn set_prev(slots: &mut [EdgeSlot], place: Option<u64>, side: Side, prev: Option<u64>)
    requires { (k : ℕ) → place ≡ Some k → k < length slots.old }
    ensures { slots.new ≡ prev_set side place prev slots.old }
{
    if let Some(e) = place {
        match side {
            Side::Out => slots[e as usize].out.prev = prev,
            Side::In => slots[e as usize].into.prev = prev,
        }
    }
}

/// Cuts the edge: takes it out of both its lists, and marks it.
pub fn cut(spots: &mut [Spot], slots: &mut [EdgeSlot], e: u64)
    requires sound { AreSoundSlots spots.old slots.old }
    requires live { IsUncut (held_links spots.old slots.old) e }
    ensures sound { AreSoundSlots spots.new slots.new }
    ensures seen { held_links spots.new slots.new ≡ without e (held_links spots.old slots.old) }
{
    unlink(spots, slots, Side::Out, e);
    unlink(spots, slots, Side::In, e);
    slots[e as usize].live = false;
}

/// Links the edge of the last slot into both its lists.
pub fn hang(spots: &mut [Spot], slots: &mut [EdgeSlot], e: u64)
    requires { IsNewest spots.old slots.old e }
    ensures sound { AreSoundSlots spots.new slots.new }
    ensures nodes { map (λ x. x.node) spots.new ≡ map (λ x. x.node) spots.old }
    ensures edges { map slot_edge slots.new ≡ map slot_edge slots.old }
{
    link(spots, slots, Side::Out, e);
    link(spots, slots, Side::In, e);
}

// Makes the edge the first of its list of the side, where it names the first so far as the one after it.
fn link(spots: &mut [Spot], slots: &mut [EdgeSlot], side: Side, e: u64)
    requires { HasLinks side spots.old slots.old e }
    ensures spots { spots.new ≡ linked_spots side e slots.old spots.old }
    ensures slots { slots.new ≡ linked_slots side e slots.old }
{
    let slot = slots[e as usize];
    set_prev(slots, hooks(&slot, side).next, side, Some(e));
    set_first(spots, end_of(&slot.edge, side), side, Some(e));
}

// Takes the edge out of its list of the side.
fn unlink(spots: &mut [Spot], slots: &mut [EdgeSlot], side: Side, e: u64)
    requires { HasLinks side spots.old slots.old e }
    ensures spots { spots.new ≡ unlinked_spots side e slots.old spots.old }
    ensures slots { slots.new ≡ unlinked_slots side e slots.old }
{
    let slot = slots[e as usize];
    let beside = hooks(&slot, side);
    if beside.prev.is_none() {
        set_first(spots, end_of(&slot.edge, side), side, beside.next);
    }
    set_next(slots, beside.prev, side, beside.next);
    set_prev(slots, beside.next, side, beside.prev);
}
