ghost use Rattle.std.specs.Prelude.{◌≡◌, ℕ, ◌≤◌};

// A source is known by its next draw, and by the source that is left after it.
pub trait DrawSource {
    ghost Model: { Type 0 };

    ghost model: { Self → Model };

    ghost next_draw: { Model → ℕ };

    ghost after_draw: { Model → Model };

    // The next draw, 0 to 6.
    fn draw(&mut self) -> u8
        ensures value { result ≡ next_draw (model self.old) }
        ensures after { model self.new ≡ after_draw (model self.old) };

    ghost few: { (m : Model) → next_draw m ≤ 6 };
}
