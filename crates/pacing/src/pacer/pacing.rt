// The crate's `Pacer`, call by call. Its calls take the crate's own parameters: round-trip time, window and MTU each time.
ghost use Rattle.std.specs.Prelude.{◌≡◌, ◌<◌};
ghost use Rattle.pacing.specs.Buckets.{Bounded};
ghost use Rattle.pacing.specs.Pacing.{burst, opened, sent, resized, earned, refilled, ready, delayed, told};
ghost use Rattle.pacing.specs.Laws.{NotBefore};

use crate::pacer::Pacer;
use numbers::{seconds, whole_part};
use refusals::{Layer, Refusal};
use values::mtu::Mtu;
use values::rtt::Rtt;

// 2 ms, since timers may have a precision of 1 ms.
const BURST_INTERVAL_NANOS: u64 = 2_000_000;

const MIN_BURST_SIZE: u64 = 10;

const MAX_BURST_SIZE: u64 = 256;

// The burst that a window lets out in the burst interval, from 10 to 256 datagrams.
pub fn optimal_capacity(smoothed_rtt: u64, window: u64, mtu: Mtu) -> u64
    ensures { result ≡ burst smoothed_rtt window mtu.value }
{
    let capacity = window.saturating_mul(BURST_INTERVAL_NANOS) / smoothed_rtt.max(1);
    let mtu = u64::from(mtu.get());
    capacity.clamp(MIN_BURST_SIZE * mtu, MAX_BURST_SIZE * mtu)
}

fn new_tokens(smoothed_rtt: u64, window: u32, elapsed: u64) -> u64
    ensures { result ≡ earned smoothed_rtt window elapsed }
{
    let elapsed_rtts = seconds(elapsed) / seconds(smoothed_rtt);
    whole_part(f64::from(window) * 1.25 * elapsed_rtts)
}

impl Pacer {
    // A pacer with a full bucket.
    pub fn new(smoothed_rtt: u64, window: u64, mtu: Mtu, time: u64) -> Pacer
        ensures { result ≡ opened smoothed_rtt window mtu.value time }
    {
        let capacity = optimal_capacity(smoothed_rtt, window, mtu);
        Pacer {
            capacity,
            last_window: window,
            last_mtu: mtu.get(),
            tokens: capacity,
            prev: time,
        }
    }

    // Records that a datagram of `packet_length` bytes left.
    pub fn on_transmit(&mut self, packet_length: u16)
        ensures { self.new ≡ sent self.old packet_length }
    {
        self.tokens = self.tokens.saturating_sub(u64::from(packet_length));
    }

    fn resize(&mut self, smoothed_rtt: u64, window: u64, mtu: Mtu)
        ensures { self.new ≡ resized self.old smoothed_rtt window mtu.value }
    {
        if window != self.last_window || mtu.get() != self.last_mtu {
            self.capacity = optimal_capacity(smoothed_rtt, window, mtu);
            self.tokens = self.capacity.min(self.tokens);
            self.last_window = window;
            self.last_mtu = mtu.get();
        }
    }

    fn refill(&mut self, smoothed_rtt: u64, window: u32, time: u64)
        ensures { self.new ≡ refilled self.old smoothed_rtt window time }
    {
        let earned = new_tokens(smoothed_rtt, window, time.saturating_sub(self.prev));
        self.tokens = self.tokens.saturating_add(earned).min(self.capacity);
        self.prev = time;
    }

    // When the bucket will be full, or will have what is to be sent.
    fn ready_at(&self, smoothed_rtt: u64, window: u32, bytes_to_send: u64) -> u64
        requires { 0 < window }
        ensures { result ≡ ready self.now smoothed_rtt window bytes_to_send }
    {
        let lacking = bytes_to_send.max(self.capacity).saturating_sub(self.tokens);
        let unscaled_delay = smoothed_rtt.saturating_mul(lacking) / u64::from(window);
        self.prev.saturating_add(unscaled_delay / 5 * 4)
    }

    // The time before which `bytes_to_send` should not leave, if any.
    pub fn delay(
        &mut self,
        smoothed_rtt: u64,
        bytes_to_send: u64,
        mtu: Mtu,
        window: u64,
        time: u64,
    ) -> Result<Option<u64>, Refusal>
        ensures value { result ≡ told self.old smoothed_rtt bytes_to_send mtu.value window time }
        ensures state { self.new ≡ delayed self.old smoothed_rtt bytes_to_send mtu.value window time }
        ensures not_before { NotBefore time result }
    {
        if window == 0 || smoothed_rtt > Rtt::MAX || bytes_to_send > 65_535 {
            return Err(Refusal::OutsideLimit(Layer::Pacer));
        }
        self.resize(smoothed_rtt, window, mtu);
        // There is no pacing without a round trip.
        if self.tokens >= bytes_to_send || smoothed_rtt == 0 {
            return Ok(None);
        }
        // No pacing above 32 bits of window.
        let Ok(window) = u32::try_from(window) else {
            return Ok(None);
        };
        self.refill(smoothed_rtt, window, time);
        if self.tokens >= bytes_to_send {
            return Ok(None);
        }
        Ok(Some(self.ready_at(smoothed_rtt, window, bytes_to_send)))
    }

    // Capacity, last window, last MTU, tokens, and when the tokens were last counted.
    pub fn parts(&self) -> (u64, u64, u16, u64, u64)
        ensures value { result ≡ (self.now.capacity, self.now.last_window, self.now.last_mtu, self.now.tokens, self.now.prev) }
        ensures bounded { Bounded self.now }
    {
        (
            self.capacity,
            self.last_window,
            self.last_mtu,
            self.tokens,
            self.prev,
        )
    }
}
