// George Marsaglia's generator of 32 bits.
ghost use Rattle.std.specs.Prelude.{◌≡◌, ℕ, ◌%◌};
ghost use Rattle.draws.specs.Sources.{seeded, shifted};
ghost use Rattle.std.proofs.Common.{rules};

use crate::source::DrawSource;

#[derive(Clone, Copy)]
pub struct Xorshift {
    state: u32,
}

impl Xorshift {
    // A generator from a seed. From 0 it would never leave 0, so a seed of 0 is read as 1.
    pub fn new(seed: u32) -> Xorshift
        ensures { result.state ≡ seeded seed }
    {
        let state = if seed == 0 { 1 } else { seed };
        Xorshift { state }
    }
}

fn step(x: u32) -> u32
    ensures { result ≡ shifted x }
{
    let a = x ^ (x << 13);
    let b = a ^ (a >> 17);
    b ^ (b << 5)
}

impl DrawSource for Xorshift {
    ghost Model = { ℕ };

    ghost model = { λ x. x.state };

    ghost next_draw = { λ x. shifted x % 7 };

    ghost after_draw = { shifted };

    ghost few = { Prim.search rules };

    fn draw(&mut self) -> u8 {
        self.state = step(self.state);
        (self.state % 7) as u8
    }
}
