// The cycle of pacing gains in `Mode::ProbeBw`.
ghost use Rattle.std.specs.Prelude.{◌≡◌, ◌<◌};
ghost use Rattle.bbr_state.specs.Cycle.{EntryOffset, gain_at, cruised, advances, stays_low, cycled};

use crate::state::{AckBatch, BbrState, Mode};
use draws::source::DrawSource;

// The gain of the window from the drained queue on.
const K_DERIVED_HIGH_CWNDGAIN: f32 = 2.0;

// The cycle of gains: up, down by as much, then level.
const K_PACING_GAIN: [f32; 8] = [1.25, 0.75, 1.0, 1.0, 1.0, 1.0, 1.0, 1.0];

fn pacing_gain_at(offset: u8) -> f32
    requires { offset < 8 }
    ensures { result ≡ gain_at offset }
{
    K_PACING_GAIN[offset as usize]
}

impl BbrState {
    /// Starts to cruise, at an offset of the cycle that is drawn out of 0 and 2 to 7.
    pub fn enter_probe_bandwidth_mode<D: DrawSource>(&mut self, time: u64, draws: &mut D)
        ensures state { self.new ≡ cruised self.old time (D.next_draw (D.model draws.old)) }
        ensures drawn { D.model draws.new ≡ D.after_draw (D.model draws.old) }
        ensures offset { EntryOffset self.new.phase.current_cycle_offset }
    {
        self.phase.mode = Mode::ProbeBw;
        self.phase.cwnd_gain = K_DERIVED_HIGH_CWNDGAIN;
        self.phase.last_cycle_start = Some(time);
        // Not 1, where the decreased gain would not follow the increased one.
        let mut offset = draws.draw();
        if offset >= 1 {
            offset += 1;
        }
        self.phase.current_cycle_offset = offset;
        self.phase.pacing_gain = pacing_gain_at(offset);
    }

    fn should_advance_gain_cycling(&self, batch: &AckBatch) -> bool
        ensures { result ≡ advances self.now batch.now.time batch.now.in_flight }
    {
        let gain = self.phase.pacing_gain;
        // The queue is drained, so the low gain has done its work.
        if gain < 1.0 && batch.in_flight <= self.get_target_cwnd(1.0) {
            return true;
        }
        // The high gain has not filled the path yet, and no loss says that it cannot.
        if gain > 1.0
            && !self.recovery.has_losses()
            && self.flow.prev_in_flight_count < self.get_target_cwnd(gain)
        {
            return false;
        }
        let min_rtt = self.flow.min_rtt;
        self.phase
            .last_cycle_start
            .is_some_and(|start| batch.time.saturating_sub(start) > min_rtt)
    }

    // A low gain stays until the queue is drained. The cycle's gains are 1 or a quarter away from it.
    fn stays_low(&self, next_gain: f32, in_flight: u64) -> bool
        ensures { result ≡ stays_low self.now next_gain in_flight }
    {
        self.phase.pacing_gain < 1.0 && next_gain == 1.0 && in_flight > self.get_target_cwnd(1.0)
    }

    /// Advances the cycle where its time has come.
    pub fn update_gain_cycle_phase(&mut self, batch: &AckBatch)
        ensures { self.new ≡ cycled self.old batch.now.time batch.now.in_flight }
    {
        if !self.should_advance_gain_cycling(batch) {
            return;
        }
        let offset = ((u16::from(self.phase.current_cycle_offset) + 1) % 8) as u8;
        let gain = pacing_gain_at(offset);
        let stays_low = self.stays_low(gain, batch.in_flight);
        self.phase.current_cycle_offset = offset;
        self.phase.last_cycle_start = Some(batch.time);
        if !stays_low {
            self.phase.pacing_gain = gain;
        }
    }
}
