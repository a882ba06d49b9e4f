//! A reorder buffer: items with numbers, in a window that moves on.

ghost use Rattle.std.specs.Prelude.{◌≡◌, ◌<◌, ◌≤◌, ◌+◌, ◌-◌, ℕ, [], length, slice_set, IfOk, OnOk, IfErr, MatchBool, None, Some};
ghost use Rattle.ix_pipeline.specs.Numbered.{slot, IsTaken, ReachesNoFurther, IsHeldWithin, IsPlaced, Refuses, Pops};

use crate::ring_fault::RingFault;
use circular_buffer::HeapCircularBuffer;
use std::alloc::{AllocError, Global};
use std::marker::Model;

// How far above the next number an item may be placed.
const REACH: u64 = 1_048_576;

/// A reorder buffer: items are placed in any order and popped by their numbers, from 0 on.
///
/// Contracts see a finite map: the number that is popped next, and the items with their numbers,
/// none of which is below it. Numbers are `u32`, so the next one never passes 4,294,967,296, at
/// which nothing is popped any more.
///
/// The ring has a slot for each number from the next one to the highest that was placed, filled or
/// not. So its memory grows with the widest gap that occurred, and is freed by `shrink_to_fit` or
/// when the ring is dropped.
#[derive(Drop)]
pub struct Ring<T: Drop> {
    // The slot of the number `next`, empty or filled, and the slots after it.
    window: HeapCircularBuffer<Option<T>>,
    next: u64,
}

impl<T: Drop> Model for Ring<T> {
    ghost use Rattle.std.specs.Prelude.{◌+◌, ◌≤◌, length};
    ghost use Rattle.ix_pipeline.specs.Numbered.{Numbered, numbered_code, entries_of};

    ghost Value = { Numbered T };

    ghost coded = { numbered_code T.code };

    ghost view = { λ r. record { next = r.next; entries = entries_of r.next r.window.items } };

    ghost invariant = { λ r. r.next + length r.window.items ≤ 4294967296 };
}

// Extends the window to the slot at `index`.
fn reach<T: Drop>(
    window: &mut HeapCircularBuffer<Option<T>>,
    index: usize,
) -> Result<(), AllocError>
    requires { index < 1048576 }
    ensures slots { (k : ℕ) → slot window.new.items k ≡ slot window.old.items k }
    ensures reached { OnOk result (index < length window.new.items) }
    ensures within { ReachesNoFurther index window.old.items window.new.items }
{
    if window.capacity() <= index {
        let wanted = (index + 1).next_power_of_two();
        window.resize(wanted)?;
    }
    while window.len() <= index {
        window.push_back(None);
    }
    Ok(())
}

// Whether the slot has an item.
fn is_taken<T: Drop>(window: &HeapCircularBuffer<Option<T>>, index: usize) -> bool
    ensures { MatchBool result (IsTaken window.now.items index) (slot window.now.items index ≡ None) }
{
    match window.get(index) {
        Some(Some(_)) => true,
        Some(None) => false,
        None => false,
    }
}

// Stores an item in a slot.
fn fill<T: Drop>(window: &mut HeapCircularBuffer<Option<T>>, index: usize, item: T)
    requires { index < length window.old.items }
    ensures { window.new.items ≡ slice_set window.old.items index (Some item) }
{
    if let Some(place) = window.get_mut(index) {
        *place = Some(item);
    }
}

impl<T: Drop> Ring<T> {
    /// Creates an empty ring whose next number is 0.
    pub fn new(alloc: Global) -> Result<Ring<T>, AllocError>
        ensures { IfOk result (λ r. r ≡ record { next = 0; entries = [] }) }
    {
        let window = HeapCircularBuffer::with_capacity(alloc, 0)?;
        Ok(Ring { window, next: 0 })
    }

    /// The number of the item that is popped next.
    pub fn next(&self) -> u64
        ensures next { result ≡ self.now.next }
        ensures within { result ≤ 4294967296 }
        ensures held { IsHeldWithin self.now }
    {
        self.next
    }

    /// Places an item at its number. An error changes nothing and returns the item.
    pub fn place(&mut self, seq: u32, item: T) -> Result<(), RingFault<T>>
        ensures placed { OnOk result (IsPlaced self.old seq item self.new) }
        ensures refused { IfErr result (λ fault. Refuses self.old seq item self.new fault) }
    {
        let seq = u64::from(seq);
        if seq < self.next {
            return Err(RingFault::Passed(item));
        }
        if seq - self.next >= REACH {
            return Err(RingFault::Far(item));
        }
        let index = (seq - self.next) as usize;
        if is_taken(&self.window, index) {
            return Err(RingFault::Taken(item));
        }
        if reach(&mut self.window, index).is_err() {
            return Err(RingFault::Memory(item));
        }
        fill(&mut self.window, index, item);
        Ok(())
    }

    /// Returns the item numbered `next`, after which the following number is next; or `None`, which
    /// changes nothing, if that item isn't there.
    pub fn pop(&mut self) -> Option<T>
        ensures popped { Pops self.old result self.new }
        ensures within { self.new.next ≤ 4294967296 }
    {
        if !is_taken(&self.window, 0) {
            return None;
        }
        self.next += 1;
        match self.window.pop_front() {
            Some(item) => item,
            None => None,
        }
    }

    /// Frees the memory of slots after the last item. If there is no memory to move the items to, the
    /// ring keeps what it has.
    pub fn shrink_to_fit(&mut self)
        ensures { self.new ≡ self.old }
    {
        let slots = self.window.len();
        let _ = self.window.resize(slots);
    }
}
