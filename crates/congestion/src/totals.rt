// Counts that stop at 2^64 - 1. Each has a method of its own, whose name keeps a caller from taking one for another.
ghost use Rattle.std.specs.Prelude.{◌≡◌};

/// The bytes that a controller was told of.
#[derive(Clone, Copy, Default)]
pub struct Totals {
    /// Bytes told as sent.
    pub sent: u64,
    /// Bytes told as acknowledged.
    pub acked: u64,
    /// Bytes told as lost.
    pub lost: u64,
}

impl Totals {
    ghost use Rattle.congestion.specs.Makers.{nothing};
    ghost use Rattle.congestion.specs.Meaning.{add_sent, add_acked, add_lost};

    /// The totals of a controller that was told nothing yet.
    pub fn new() -> Totals
        ensures { result ≡ nothing }
    {
        Totals::default()
    }

    /// Counts bytes told as sent.
    pub fn add_sent(&mut self, bytes: u64)
        ensures { self.new ≡ add_sent self.old bytes }
    {
        self.sent = self.sent.saturating_add(bytes);
    }

    /// Counts bytes told as acknowledged.
    pub fn add_acked(&mut self, bytes: u64)
        ensures { self.new ≡ add_acked self.old bytes }
    {
        self.acked = self.acked.saturating_add(bytes);
    }

    /// Counts bytes told as lost.
    pub fn add_lost(&mut self, bytes: u64)
        ensures { self.new ≡ add_lost self.old bytes }
    {
        self.lost = self.lost.saturating_add(bytes);
    }
}
