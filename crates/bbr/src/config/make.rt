ghost use Rattle.std.specs.Prelude.{◌≡◌};
ghost use Rattle.values.specs.Makers.{Made};
ghost use Rattle.congestion.specs.Limits.{InWindow};

use crate::config::BbrConfig;
use congestion::window::InitialWindow;
use refusals::Refusal;

impl BbrConfig {
    /// An initial window from 6,000 to 16,777,216 bytes.
    pub fn new(initial_window: u64) -> Result<BbrConfig, Refusal>
        ensures { Made (InWindow initial_window) (λ c. c.initial_window.bytes ≡ initial_window) result }
    {
        let initial_window = InitialWindow::new(initial_window)?;
        Ok(BbrConfig { initial_window })
    }

    /// The initial window, in bytes.
    pub fn initial_window(&self) -> u64
        ensures { result ≡ self.now.initial_window.bytes }
    {
        self.initial_window.get()
    }
}

impl Default for BbrConfig {
    ghost is_default = { λ c. c.initial_window.bytes ≡ 240000 };

    /// An initial window of 240,000 bytes: 200 datagrams of 1,200.
    fn default() -> BbrConfig {
        BbrConfig {
            initial_window: InitialWindow::new(240_000).unwrap(),
        }
    }
}
