// Items in a store: numbers, or bytes. Numbers and no typed slices: stores of any length are lent, and what stands past the last whole
// record is promised too; no heap.
ghost use Rattle.std.specs.Prelude.{◌≡◌};
ghost use Rattle.records.specs.Stores.{written};

// Writes the items from a place of the store on, where all of them fit.
#[tactic(auto, using(crate::specs::Written::written_not, crate::specs::Written::put_written))]
pub fn write<T: Copy>(store: &mut [T], at: usize, items: &[T])
    ensures { store.new ≡ written store.old at items.now }
{
    let last = store.len().checked_sub(items.len());
    if last.is_some_and(|last| at <= last) {
        // Not by `get_mut` of a range: of the store behind it the library tells nothing.
        store[at..at + items.len()].copy_from_slice(items);
    }
}
