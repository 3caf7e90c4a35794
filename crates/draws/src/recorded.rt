// Draws from a list of eight, over and over.
ghost use Rattle.std.specs.Prelude.{◌≡◌, ◌<◌};
ghost use Rattle.std.proofs.Common.{rules};

use crate::source::DrawSource;

#[derive(Clone, Copy)]
pub struct Recorded {
    draws: [u8; 8],
    // The place of the next draw: a `cycle` over the list would not be `Copy`, and turning the list would move eight bytes a draw.
    at: usize,
    ghost within: { at < 8 },
}

impl Recorded {
    ghost use Rattle.draws.specs.Recordings.{recording_of};

    pub fn new(draws: [u8; 8]) -> Recorded
        ensures { recording_of result ≡ record { draws = draws; at = 0 } }
    {
        Recorded { draws, at: 0 }
    }
}

impl DrawSource for Recorded {
    ghost use Rattle.draws.specs.Recordings.{Recording, recording_of, recorded, turned};

    ghost Model = { Recording };

    ghost model = { recording_of };

    ghost next_draw = { recorded };

    ghost after_draw = { turned };

    ghost few = { Prim.search rules };

    fn draw(&mut self) -> u8 {
        let draw = self.draws[self.at] % 7;
        self.at = (self.at + 1) % 8;
        draw
    }
}
