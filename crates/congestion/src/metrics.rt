/// Common congestion controller metrics.
#[derive(Clone, Copy)]
pub struct ControllerMetrics {
    /// Congestion window, in bytes.
    pub congestion_window: u64,
    /// Slow start threshold, in bytes.
    pub ssthresh: Option<u64>,
    /// Pacing rate, in bits a second.
    pub pacing_rate: Option<u64>,
}
