ghost use Rattle.std.specs.Prelude.{◌≡◌};
ghost use Rattle.new_reno.specs.Limits.{InFactor};

use congestion::window::InitialWindow;
use refusals::{Layer, Refusal};

/// Configuration for the `NewReno` congestion controller.
// As in the crate, each controller has a configuration of its own.
#[derive(Clone, Copy)]
pub struct NewRenoConfig {
    pub(crate) initial_window: InitialWindow,
    loss_reduction_factor: f32,
    ghost factor_within: { InFactor loss_reduction_factor },
}

impl NewRenoConfig {
    ghost use Rattle.values.specs.Makers.{Made};
    ghost use Rattle.congestion.specs.Limits.{InWindow};

    /// An initial window from 6,000 to 16,777,216 bytes, and the part of the window that a loss leaves, from
    /// 0.0 to 1.0.
    #[tactic(auto, using(crate::proofs::Limits::float_order))]
    pub fn new(initial_window: u64, loss_reduction_factor: f32) -> Result<NewRenoConfig, Refusal>
        ensures { Made (InWindow initial_window × InFactor loss_reduction_factor) (λ c. (c.initial_window.bytes ≡ initial_window) × (c.loss_reduction_factor ≡ loss_reduction_factor)) result }
    {
        let initial_window = InitialWindow::new(initial_window)?;
        // A NaN is in no range.
        if !(0.0..=1.0).contains(&loss_reduction_factor) {
            return Err(Refusal::OutsideLimit(Layer::Value));
        }
        Ok(NewRenoConfig {
            initial_window,
            loss_reduction_factor,
        })
    }

    /// The initial window, in bytes.
    pub fn initial_window(&self) -> u64
        ensures { result ≡ self.now.initial_window.bytes }
    {
        self.initial_window.get()
    }

    /// The part of the window that a loss leaves.
    pub fn loss_reduction_factor(&self) -> f32
        ensures { result ≡ self.now.loss_reduction_factor }
    {
        self.loss_reduction_factor
    }
}

impl Default for NewRenoConfig {
    ghost use Rattle.new_reno.specs.Limits.{half};

    ghost is_default = { λ c. (c.initial_window.bytes ≡ 12000) × (c.loss_reduction_factor ≡ half) };

    /// An initial window of 12,000 bytes, and half of it left by a loss.
    fn default() -> NewRenoConfig {
        NewRenoConfig {
            initial_window: InitialWindow::default(),
            loss_reduction_factor: 0.5,
        }
    }
}
