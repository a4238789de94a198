//! Vectors whose memory was taken before.

ghost use Rattle.std.specs.Prelude.{◌≡◌, ◌<◌, ◌≤◌, [], ◌∷◌, ◌++◌, vec_len, vec_capacity};

/// Adds an item for which there is memory. It takes none.
#[inline(always)]
pub fn push_within<T: Drop>(items: &mut Vec<T>, item: T)
    requires room { vec_len items.old < vec_capacity items.old }
    ensures items { items.new.items ≡ items.old.items ++ item ∷ [] }
    ensures capacity { vec_capacity items.old ≤ vec_capacity items.new }
{
    // By this test the compiler sees that no memory is taken, and keeps the list in registers.
    if items.len() < items.capacity() {
        let Ok(()) = items.push(item) else {
            unreachable!();
        };
    }
}
