// Rounds: each lasts until what was sent by its start is acknowledged.
ghost use Rattle.std.specs.Prelude.{◌≡◌};
ghost use Rattle.bbr_rounds.specs.Rounds.{unsent, begins, after_acks};

/// Packet numbers, and the rounds that they end.
#[derive(Clone, Copy, Default)]
pub struct Rounds {
    pub max_acked_packet_number: u64,
    pub max_sent_packet_number: u64,
    /// The round ends with an ack above this number.
    pub current_round_trip_end_packet_number: u64,
    pub round_count: u64,
}

impl Rounds {
    /// Nothing was sent yet.
    pub fn new() -> Rounds
        ensures { result ≡ unsent }
    {
        Rounds::default()
    }

    /// Takes a batch of acks, and answers whether it begins a round.
    pub fn end_acks(&mut self, bytes_acked: u64, largest_packet_num_acked: Option<u64>) -> bool
        ensures state { self.new ≡ after_acks self.old bytes_acked largest_packet_num_acked }
        ensures answer { result ≡ begins self.old bytes_acked largest_packet_num_acked }
    {
        self.max_acked_packet_number = largest_packet_num_acked.unwrap_or(
            self.max_acked_packet_number,
        );
        let is_round_start = bytes_acked > 0
            && self.max_acked_packet_number > self.current_round_trip_end_packet_number;
        if is_round_start {
            self.current_round_trip_end_packet_number = self.max_sent_packet_number;
            self.round_count = self.round_count.saturating_add(1);
        }
        is_round_start
    }
}
