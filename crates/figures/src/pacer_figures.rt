// A window of 240,000 bytes, a round trip of 100 ms and an MTU of 1,200: datagrams of 1,200 bytes, all at time 0.
ghost use Rattle.std.specs.Prelude.{◌≡◌};
ghost use Rattle.figures.specs.PacerFigures.{told_after};

use pacing::pacer::Pacer;
use refusals::Refusal;
use values::mtu::Mtu;

const RTT: u64 = 100_000_000;

const WINDOW: u64 = 240_000;

// What the next datagram is told after `count` others.
pub fn told_after(count: u8) -> Result<Option<u64>, Refusal>
    ensures { result ≡ told_after count }
{
    let mtu = Mtu::new(1_200)?;
    let mut pacer = Pacer::new(RTT, WINDOW, mtu, 0);
    for _ in 0..count {
        let _ = pacer.delay(RTT, 1_200, mtu, WINDOW, 0)?;
        pacer.on_transmit(1_200);
    }
    pacer.delay(RTT, 1_200, mtu, WINDOW, 0)
}
