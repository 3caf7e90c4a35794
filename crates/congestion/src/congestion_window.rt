// The congestion window of a controller that answers losses. `NewReno` and `Cubic` each hold one; their calls stay
// methods of each, a line where all is done here, because the trait has them so.
ghost use Rattle.std.specs.Prelude.{◌≡◌, ◌*◌, ◌≤◌};

use crate::metrics::ControllerMetrics;
use crate::window::InitialWindow;
use values::mtu::Mtu;

/// A congestion window, which is at least two datagrams, and what it depends on.
#[derive(Clone, Copy)]
pub struct CongestionWindow {
    /// The largest datagram of the path.
    pub current_mtu: Mtu,
    /// Maximum number of bytes in flight that may be sent.
    pub window: u64,
    /// Slow start threshold in bytes. When the congestion window is below ssthresh, the mode is slow
    /// start and the window grows by the number of bytes acknowledged.
    pub ssthresh: u64,
    ghost wide: { 2 * current_mtu.value ≤ window },
}

fn minimum_window(mtu: Mtu) -> u64
    ensures { result ≡ 2 * mtu.value }
{
    2 * mtu.get() as u64
}

impl CongestionWindow {
    ghost use Rattle.congestion.specs.CongestionWindow.{cwnd_of, opened, grown, reduced, collapsed, resized, measured};

    /// A window that starts from `initial_window`, in slow start.
    pub fn new(initial_window: InitialWindow, current_mtu: Mtu) -> CongestionWindow
        ensures { cwnd_of result ≡ opened initial_window.bytes current_mtu.value }
    {
        CongestionWindow {
            current_mtu,
            window: initial_window.get(),
            // The crate's mark that no loss set a threshold yet, which its metrics report as it is.
            ssthresh: u64::MAX,
        }
    }

    /// Lets so many bytes more be in flight.
    pub fn grow(&mut self, bytes: u64)
        ensures { cwnd_of self.new ≡ grown (cwnd_of self.old) bytes }
    {
        self.window = self.window.saturating_add(bytes);
    }

    /// Makes `bytes`, but no less than two datagrams, the window and the threshold.
    pub fn reduce(&mut self, bytes: u64)
        ensures { cwnd_of self.new ≡ reduced (cwnd_of self.old) bytes }
    {
        self.ssthresh = bytes.max(minimum_window(self.current_mtu));
        self.window = self.ssthresh;
    }

    /// Makes two datagrams the window.
    pub fn collapse(&mut self)
        ensures { cwnd_of self.new ≡ collapsed (cwnd_of self.old) }
    {
        self.window = minimum_window(self.current_mtu);
    }

    /// Takes another MTU, and raises the window to two of its datagrams.
    pub fn on_mtu_update(&mut self, new_mtu: Mtu)
        ensures { cwnd_of self.new ≡ resized (cwnd_of self.old) new_mtu.value }
    {
        self.current_mtu = new_mtu;
        self.window = self.window.max(minimum_window(new_mtu));
    }

    /// The window and the threshold; there is no pacing rate.
    pub fn metrics(&self) -> ControllerMetrics
        ensures { result ≡ measured (cwnd_of self.now) }
    {
        ControllerMetrics {
            congestion_window: self.window,
            ssthresh: Some(self.ssthresh),
            pacing_rate: None,
        }
    }
}
