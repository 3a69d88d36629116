//! Room in long lists.

ghost use Rattle.std.specs.Prelude.{◌≡◌};

use std::alloc::AllocError;

/// Makes room for so many items in all. A list that has to grow for it grows by an eighth, and not
/// by doubling: the tables are large, and what they have spare is the same memory.
pub(crate) fn make_room<T>(items: &mut Vec<T>, wanted: usize) -> Result<(), AllocError>
    ensures { items.new.items ≡ items.old.items }
{
    if wanted <= items.capacity() {
        return Ok(());
    }
    let all = wanted.saturating_add(wanted / 8);
    items.reserve_exact(all - items.len())
}
