use congestion::window::InitialWindow;

pub mod make;

/// Configuration for the `Bbr` congestion controller.
// As in the crate, each controller has a configuration of its own. CUBIC's has the same field and another default.
#[derive(Clone, Copy)]
pub struct BbrConfig {
    initial_window: InitialWindow,
}
