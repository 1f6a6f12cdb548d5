// A queue is the first `count` places of a slice; the places behind them are free.
// A count beyond the slice is refused, so no call asks anything of its caller.
// `Queue` holds places of its own with their count, where the places need not be the caller's; here slice and count
// stand side by side, since these operations serve any slice. What is asked for is in the queue or is not, so a bool
// tells it.
#![tactic(auto)]

ghost use Rattle.std.specs.Prelude.{◌≡◌, ◌+◌, ◌<◌, ◌≤◌, length, if◌then◌else◌, nat_lt, slice_set};
ghost use Rattle.queue.specs.Queues.{closed, gap_in, first_of, span_in, span_out};

mod fixed;

pub use fixed::Queue;

// Adds an element at the end; false where there is no place for it.
pub fn add<T: Drop>(slots: &mut [T], count: usize, element: T) -> bool
    ensures added { result ≡ nat_lt count (length slots.old) }
    ensures slots { slots.new ≡ slice_set slots.old count element }
{
    if count < slots.len() {
        slots[count] = element;
        true
    } else {
        false
    }
}

// Takes out the element at `at`: those behind it move down one place. False where there is none.
pub fn close_gap<T>(slots: &mut [T], count: usize, at: usize) -> bool
    ensures closed { result ≡ gap_in slots.old count at }
    ensures slots { slots.new ≡ (if result then closed slots.old count at else slots.old) }
{
    if at < count && count <= slots.len() {
        slots[at..count].rotate_left(1);
        true
    } else {
        false
    }
}

// Takes out the first element and answers it; None where the queue is empty.
pub fn take_first<T: Copy>(slots: &mut [T], count: usize) -> Option<T>
    ensures first { result ≡ first_of slots.old count }
    ensures slots { slots.new ≡ (if gap_in slots.old count 0 then closed slots.old count 0 else slots.old) }
{
    if count == 0 || count > slots.len() {
        return None;
    }
    let first = slots[0];
    let _ = close_gap(slots, count, 0);
    Some(first)
}

// Takes out `width` elements at `at`: those behind them move down, and the places that this frees keep their content.
// False where there are not so many.
pub fn close_span<T: Copy>(slots: &mut [T], count: usize, at: usize, width: usize) -> bool
    ensures closed { result ≡ span_in slots.old count at width }
    ensures slots { slots.new ≡ (if result then span_out slots.old count at width else slots.old) }
{
    if at > count || width > count - at || count > slots.len() {
        return false;
    }
    slots.copy_within(at + width..count, at);
    true
}
