// The greatest rate seen, from the last two sends and the last two acks. Rates are bytes a second.
ghost use Rattle.std.specs.Prelude.{◌≡◌, ◌-◌, ◌≤◌, List};
ghost use Rattle.std.specs.Option.{unwrap_or};
ghost use Rattle.bandwidth.specs.Bandwidth.{none_yet, nothing, added, per_second, send_rate, ack_rate, sent_on, acked_on, closed, acked_in_window, estimate, Call, after};

use filter::min_max::MinMax;

// A running total of bytes: its last two values, and when each was reached.
#[derive(Clone, Copy, Default)]
pub struct RunningTotal {
    bytes: u64,
    prev_bytes: u64,
    time: Option<u64>,
    prev_time: Option<u64>,
}

#[derive(Clone, Copy, Default)]
pub struct BandwidthEstimation {
    acked: RunningTotal,
    sent: RunningTotal,
    max_filter: MinMax<u64>,
    acked_at_last_window: u64,
}

const NANOS_PER_SEC: u64 = 1_000_000_000;

// The rate of `bytes` in `delta` nanoseconds; none where no time went by.
pub fn bw_from_delta(bytes: u64, delta: u64) -> Option<u64>
    ensures { result ≡ per_second bytes delta }
{
    bytes.saturating_mul(NANOS_PER_SEC).checked_div(delta)
}

impl RunningTotal {
    // A total of nothing.
    pub fn new() -> RunningTotal
        ensures { result ≡ none_yet }
    {
        RunningTotal::default()
    }

    fn add(&mut self, time: u64, bytes: u64)
        ensures { self.new ≡ added self.old time bytes }
    {
        self.prev_bytes = self.bytes;
        self.bytes = self.bytes.saturating_add(bytes);
        self.prev_time = self.time;
        self.time = Some(time);
    }

    // The total, the one before it, and when each was reached.
    pub fn parts(&self) -> (u64, u64, Option<u64>, Option<u64>)
        ensures { result ≡ (self.now.bytes, self.now.prev_bytes, self.now.time, self.now.prev_time) }
    {
        (self.bytes, self.prev_bytes, self.time, self.prev_time)
    }

    fn last(&self) -> u64
        ensures { result ≡ self.now.bytes - self.now.prev_bytes }
    {
        self.bytes.saturating_sub(self.prev_bytes)
    }

    fn send_rate(&self) -> Option<u64>
        ensures { result ≡ send_rate self.now }
    {
        let prev = self.prev_time?;
        Some(match self.time {
            Some(time) if time > prev => bw_from_delta(self.last(), time - prev).unwrap_or(0),
            // The lesser of two rates is taken, so this one does not count.
            _ => u64::MAX,
        })
    }

    fn ack_rate(&self, time: u64) -> u64
        ensures { result ≡ ack_rate self.now time }
    {
        self.prev_time
            .and_then(|prev| bw_from_delta(self.last(), time.saturating_sub(prev)))
            .unwrap_or(0)
    }
}

impl BandwidthEstimation {
    pub fn new() -> BandwidthEstimation
        ensures { result ≡ nothing }
    {
        BandwidthEstimation::default()
    }

    pub fn on_sent(&mut self, time: u64, bytes: u64)
        ensures { self.new ≡ sent_on self.old time bytes }
    {
        self.sent.add(time, bytes);
    }

    pub fn on_ack(&mut self, time: u64, bytes: u64, round: u64, app_limited: bool)
        ensures { self.new ≡ acked_on self.old time bytes round app_limited }
    {
        self.acked.add(time, bytes);
        let Some(send_rate) = self.sent.send_rate() else {
            return;
        };
        let bandwidth = send_rate.min(self.acked.ack_rate(time));
        if !app_limited && self.max_filter.get() < bandwidth {
            self.max_filter.update_max(round, bandwidth);
        }
    }

    pub fn bytes_acked_this_window(&self) -> u64
        ensures { result ≡ acked_in_window self.now }
    {
        self.acked.bytes.saturating_sub(self.acked_at_last_window)
    }

    pub fn end_acks(&mut self)
        ensures { self.new ≡ closed self.old }
    {
        self.acked_at_last_window = self.acked.bytes;
    }

    // The greatest rate so far. It never falls, whatever calls follow.
    #[tactic(auto, using(crate::proofs::Rises::rises))]
    pub fn get_estimate(&self) -> u64
        ensures value { result ≡ estimate self.now }
        ensures never_falls { (calls : List Call) → result ≤ estimate (after calls self.now) }
    {
        self.max_filter.get()
    }

    // Bytes acked and bytes sent, the filter, and what was acked when the last window ended.
    pub fn parts(&self) -> (RunningTotal, RunningTotal, MinMax<u64>, u64)
        ensures { result ≡ (self.now.acked, self.now.sent, self.now.max_filter, self.now.acked_at_last_window) }
    {
        (
            self.acked,
            self.sent,
            self.max_filter,
            self.acked_at_last_window,
        )
    }
}
