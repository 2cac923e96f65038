//! Where the bytes of a sort key go.

ghost use Rattle.std.specs.Prelude.{◌≡◌, ℕ, List, [], ◌∷◌, ◌++◌, MatchResult, Result};
ghost use Rattle.icu_key_writers.specs.Sinks.{SinkEffects, TakesBeginning};

/// What takes the bytes of a sort key.
///
/// A key is written from the default state by calls of `write` and `write_byte`, and one of `finish` at the end. What
/// a sink took is said by the ghost members, which each sink defines and which obey the laws at the end. `Ok` means
/// that all bytes of a call were taken, and `Err` that a beginning of them was.
pub trait CollationKeySink {
    /// Why the sink took no more bytes, or can't finish.
    type Error;

    /// What the sink keeps from one write to the next beside itself, as an offset.
    type State: Default + Drop;

    /// What `finish` gives, as the length of the key.
    type Output;

    /// The sink and its state may be written to.
    ghost is_sound: { Self → Self.State → Type 0 };

    /// What writes and `finish` do to the sink, and which states a key begins with.
    ghost effects: { SinkEffects Self Self.State Self.Output Self.Error };

    /// Takes the bytes of `buf`: all of them, or a beginning and an error.
    fn write(&mut self, state: &mut Self::State, buf: &[u8]) -> Result<(), Self::Error>
        requires { is_sound self.old state.old }
        ensures sound { is_sound self.new state.new }
        ensures outcome { MatchResult result
            (λ _. effects.took self.old state.old buf.now self.new state.new)
            (λ e. effects.refused self.old state.old buf.now e self.new state.new) };

    /// Takes one byte, as `write` of it alone.
    fn write_byte(&mut self, state: &mut Self::State, byte: u8) -> Result<(), Self::Error>
        requires { is_sound self.old state.old }
        ensures sound { is_sound self.new state.new }
        ensures outcome { MatchResult result
            (λ _. effects.took self.old state.old (byte ∷ []) self.new state.new)
            (λ e. effects.refused self.old state.old (byte ∷ []) e self.new state.new) }
    {
        self.write(state, &[byte])
    }

    /// Ends the key.
    fn finish(&mut self, state: Self::State) -> Result<Self::Output, Self::Error>
        requires { is_sound self.old state }
        ensures { effects.finished self.old state result self.new };

    /// A key begins with the default state.
    ghost begins_default: { (s : Self.State) → Self.State.is_default s → effects.begins s };

    /// The default state is sound, whatever the sink holds.
    ghost starts_sound: { (x : Self) (s : Self.State) → Self.State.is_default s → is_sound x s };

    /// Nothing is taken where nothing changes.
    ghost took_nothing: { (x : Self) (s : Self.State) → is_sound x s → effects.took x s [] x s };

    /// Bytes that are taken one after another are taken.
    ghost took_both: { (x y z : Self) (s t u : Self.State) (b c : List ℕ) → is_sound x s
        → effects.took x s b y t → effects.took y t c z u → effects.took x s (b ++ c) z u };

    /// A refused write took a beginning of what it was handed.
    ghost refused_took: { (x y : Self) (s t : Self.State) (b : List ℕ) (e : Self.Error) → is_sound x s
        → effects.refused x s b e y t → TakesBeginning (λ c. effects.took x s c y t) b };
}
