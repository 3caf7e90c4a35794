ghost use Rattle.std.specs.Prelude.{◌≡◌};

use congestion::window::InitialWindow;
use refusals::Refusal;

/// Configuration for the `Cubic` congestion controller.
// As in the crate, each controller has a configuration of its own.
#[derive(Clone, Copy)]
pub struct CubicConfig {
    pub(crate) initial_window: InitialWindow,
}

impl CubicConfig {
    ghost use Rattle.values.specs.Makers.{Made};
    ghost use Rattle.congestion.specs.Limits.{InWindow};

    /// An initial window from 6,000 to 16,777,216 bytes.
    pub fn new(initial_window: u64) -> Result<CubicConfig, Refusal>
        ensures { Made (InWindow initial_window) (λ c. c.initial_window.bytes ≡ initial_window) result }
    {
        let initial_window = InitialWindow::new(initial_window)?;
        Ok(CubicConfig { initial_window })
    }

    /// The initial window, in bytes.
    pub fn initial_window(&self) -> u64
        ensures { result ≡ self.now.initial_window.bytes }
    {
        self.initial_window.get()
    }
}

// Written out, so that the contract has the bytes; a derive would say only that the part is a default.
impl Default for CubicConfig {
    ghost is_default = { λ c. c.initial_window.bytes ≡ 12000 };

    /// An initial window of 12,000 bytes.
    fn default() -> CubicConfig {
        CubicConfig {
            initial_window: InitialWindow::default(),
        }
    }
}
