// A queue of at most `N` elements in places of its own, which never allocates. Clauses see its elements, the first
// first.
ghost use Rattle.std.specs.Prelude.{◌≡◌, ◌≤◌, ◌==◌, [], ◌∷◌, ◌++◌, length, take, drop, slice_get, slice_set, nat_lt, if◌then◌else◌};
ghost use Rattle.std.specs.List.{remove};

use crate::{add, close_gap, take_first};
use std::marker::Model;

// No derived comparison or printing: both would show the free places.
#[derive(Drop)]
pub struct Queue<T: Copy, const N: usize> {
    slots: [T; N],
    count: usize,
}

impl<T: Copy, const N: usize> Model for Queue<T, N> {
    ghost use Rattle.std.specs.Prelude.{◌≡◌, ◌≤◌, List, length, take};

    ghost Value = { List T };

    ghost view = { λ q. take q.count q.slots };

    ghost invariant = { λ q. (q.count ≤ N) × (length q.slots ≡ N) };
}

impl<T: Copy, const N: usize> Queue<T, N> {
    // An empty queue. Free places hold `blank`, which no call shows.
    pub fn new(blank: T) -> Queue<T, N>
        ensures { result ≡ [] }
    {
        Queue {
            slots: [blank; N],
            count: 0,
        }
    }

    pub fn len(&self) -> usize
        ensures count { result ≡ length self.now }
        ensures within { result ≤ N }
    {
        self.as_slice().len()
    }

    pub fn is_empty(&self) -> bool
        ensures { result ≡ (length self.now == 0) }
    {
        self.as_slice().is_empty()
    }

    // Whether no further element has a place.
    pub fn is_full(&self) -> bool
        ensures { result ≡ (length self.now == N) }
    {
        self.count == N
    }

    pub fn as_slice(&self) -> &[T]
        ensures elements { result.now ≡ self.now }
        ensures within { length result.now ≤ N }
    {
        &self.slots[..self.count]
    }

    pub fn first(&self) -> Option<T>
        ensures { result ≡ slice_get self.now 0 }
    {
        self.as_slice().first().copied()
    }

    // Adds an element at the end; false where there is no place for it.
    pub fn push(&mut self, element: T) -> bool
        ensures pushed { result ≡ nat_lt (length self.old) N }
        ensures queue { self.new ≡ (if result then self.old ++ element ∷ [] else self.old) }
    {
        let pushed = add(&mut self.slots, self.count, element);
        if pushed {
            self.count += 1;
        }
        pushed
    }

    // Takes out the first element and answers it; None where the queue is empty.
    pub fn take_first(&mut self) -> Option<T>
        ensures first { result ≡ slice_get self.old 0 }
        ensures rest { self.new ≡ drop 1 self.old }
    {
        let first = take_first(&mut self.slots, self.count)?;
        self.count -= 1;
        Some(first)
    }

    // Takes out the element at `at`: those behind it move down one place. False where there is none.
    pub fn remove(&mut self, at: usize) -> bool
        ensures removed { result ≡ nat_lt at (length self.old) }
        ensures queue { self.new ≡ remove self.old at }
    {
        let removed = close_gap(&mut self.slots, self.count, at);
        if removed {
            self.count -= 1;
        }
        removed
    }

    // The element at `at` becomes this one, where there is one.
    pub fn set(&mut self, at: usize, element: T)
        ensures { self.new ≡ slice_set self.old at element }
    {
        if at < self.count {
            self.slots[at] = element;
        }
    }

    // Keeps so many of the first elements.
    pub fn truncate(&mut self, len: usize)
        ensures { self.new ≡ take len self.old }
    {
        self.count = self.count.min(len);
    }

    pub fn clear(&mut self)
        ensures { self.new ≡ [] }
    {
        self.count = 0;
    }
}
