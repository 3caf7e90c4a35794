// Recovery from losses.
ghost use Rattle.std.specs.Prelude.{◌≡◌};
ghost use Rattle.bbr_rounds.specs.Recovery.{unharmed, is_in, is_lossy, recovered, extended, resized};

use crate::rounds::Rounds;

/// How the bytes in flight are limited after a loss.
#[derive(Clone, Copy, Debug, Default, PartialEq, Eq)]
pub enum RecoveryState {
    /// Not at all.
    #[default]
    NotInRecovery,
    /// One byte more for each byte acknowledged.
    Conservation,
    /// Two bytes more for each byte acknowledged, as in slow start.
    Growth,
}

impl RecoveryState {
    /// Whether the bytes in flight are limited.
    pub fn in_recovery(&self) -> bool
        ensures { result ≡ is_in self.now }
    {
        match self {
            RecoveryState::NotInRecovery => false,
            RecoveryState::Conservation | RecoveryState::Growth => true,
        }
    }
}

/// The losses of the present batch of acks, and the recovery from those before.
#[derive(Clone, Copy, Default)]
pub struct Recovery {
    pub recovery_state: RecoveryState,
    /// The window in recovery. At its entry it is 0 until `calculate_recovery_window` sets it: a window and no mark, since the
    /// crate's window is 0 then, too.
    pub recovery_window: u64,
    /// Bytes lost since the last batch of acks ended.
    pub lost_bytes: u64,
    /// Recovery ends with an ack above this number.
    pub end_recovery_at_packet_number: u64,
}

impl Recovery {
    /// Nothing was lost yet.
    pub fn new() -> Recovery
        ensures { result ≡ unharmed }
    {
        Recovery::default()
    }

    /// Whether bytes were lost since the last batch of acks ended.
    pub fn has_losses(&self) -> bool
        ensures { result ≡ is_lossy self.now }
    {
        self.lost_bytes != 0
    }

    /// Enters recovery with the first loss, and leaves it once a round has brought none.
    pub fn update_recovery_state(&mut self, rounds: &mut Rounds, is_round_start: bool)
        ensures state { self.new ≡ recovered self.old rounds.old is_round_start }
        ensures round { rounds.new ≡ extended self.old rounds.old }
    {
        let lost = self.has_losses();
        if lost {
            self.end_recovery_at_packet_number = rounds.max_sent_packet_number;
        }
        let past = rounds.max_acked_packet_number > self.end_recovery_at_packet_number;
        match (self.recovery_state, lost) {
            (RecoveryState::NotInRecovery, true) => {
                self.recovery_state = RecoveryState::Conservation;
                // `calculate_recovery_window` sets it in the same batch.
                self.recovery_window = 0;
                // Conservation lasts for a whole round, which starts now.
                rounds.current_round_trip_end_packet_number = rounds.max_sent_packet_number;
            }
            (RecoveryState::NotInRecovery, false) => {}
            (RecoveryState::Growth | RecoveryState::Conservation, false) if past => {
                self.recovery_state = RecoveryState::NotInRecovery;
            }
            (RecoveryState::Conservation, _) if is_round_start => {
                self.recovery_state = RecoveryState::Growth;
            }
            (RecoveryState::Growth | RecoveryState::Conservation, _) => {}
        }
    }

    /// The window in recovery after a batch of acks: less what was lost, more what was acknowledged in growth,
    /// and never less than `min_cwnd` or than what is in flight and was acknowledged.
    pub fn calculate_recovery_window(
        &mut self,
        current_mtu: u64,
        min_cwnd: u64,
        bytes_acked: u64,
        in_flight: u64,
    )
        ensures { self.new ≡ resized self.old current_mtu min_cwnd bytes_acked in_flight }
    {
        if !self.recovery_state.in_recovery() {
            return;
        }
        let least = in_flight.saturating_add(bytes_acked);
        if self.recovery_window == 0 {
            self.recovery_window = min_cwnd.max(least);
            return;
        }
        if self.recovery_window >= self.lost_bytes {
            self.recovery_window -= self.lost_bytes;
        } else {
            self.recovery_window = current_mtu;
        }
        if self.recovery_state == RecoveryState::Growth {
            self.recovery_window = self.recovery_window.saturating_add(bytes_acked);
        }
        self.recovery_window = self.recovery_window.max(least).max(min_cwnd);
    }
}
