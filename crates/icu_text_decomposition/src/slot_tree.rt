//! A fixed number of slots, in a tree of pairs.

ghost use Rattle.std.specs.Prelude.{◌≡◌, ◌≢◌, ◌<◌, ◌*◌, ℕ};

/// Slots that are found by their numbers.
pub(crate) trait Slots<P: Copy>: Copy {
    /// How many there are.
    ghost count: { ℕ };

    /// What stands in the slot with a number.
    ghost at: { Self → ℕ → P };

    /// Slots that all hold one item.
    fn filled(item: P) -> Self
        ensures { (k : ℕ) → at result k ≡ item };

    /// What stands in a slot.
    fn get(&self, number: usize) -> P
        ensures { result ≡ at self.now number };

    /// Sets a slot.
    fn set(&mut self, number: usize, item: P)
        requires { number < count }
        ensures own { at self.new number ≡ item }
        ensures others { (k : ℕ) → k ≢ number → k < count → at self.new k ≡ at self.old k };
}

/// One slot.
#[derive(Clone, Copy)]
pub(crate) struct Slot<P> {
    item: P,
}

/// Two halves, for slots with even numbers and with odd ones.
#[derive(Clone, Copy)]
pub(crate) struct SlotPair<X> {
    even: X,
    odd: X,
}

impl<P: Copy> Slots<P> for Slot<P> {
    ghost use Rattle.icu_text_decomposition.specs.inner.SlotTrees.{one_at};

    ghost count = { 1 };

    ghost at = { one_at };

    fn filled(item: P) -> Self {
        Slot { item }
    }

    fn get(&self, number: usize) -> P {
        self.item
    }

    fn set(&mut self, number: usize, item: P) {
        self.item = item;
    }
}

impl<P: Copy, X: Slots<P>> Slots<P> for SlotPair<X> {
    ghost use Rattle.icu_text_decomposition.specs.inner.SlotTrees.{pair_at};

    ghost count = { 2 * X.count };

    ghost at = { pair_at X.at };

    fn filled(item: P) -> Self {
        SlotPair {
            even: X::filled(item),
            odd: X::filled(item),
        }
    }

    fn get(&self, number: usize) -> P {
        if number % 2 == 0 {
            self.even.get(number / 2)
        } else {
            self.odd.get(number / 2)
        }
    }

    fn set(&mut self, number: usize, item: P) {
        if number % 2 == 0 {
            self.even.set(number / 2, item);
        } else {
            self.odd.set(number / 2, item);
        }
    }
}
