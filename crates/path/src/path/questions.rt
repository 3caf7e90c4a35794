// What a path answers without changing.
ghost use Rattle.std.specs.Prelude.{◌≡◌};
ghost use Rattle.cells.specs.Sums.{bytes_in_flight};
ghost use Rattle.path.specs.Paths.{state_of, window_of, pace, reported};

use crate::path::Path;
use crate::report::Report;
use cells::table::CellTable;
use congestion::controller::Controller;

impl<C: Controller> Path<C> {
    /// The bytes that may be out.
    pub fn window(&self) -> u64
        ensures { result ≡ window_of C.rules (state_of C.model self.now) }
    {
        self.controller.window()
    }

    /// What the pacer would answer to a grant that passed all other checks.
    pub fn pacing(&self, size: u16, time: u64) -> Option<u64>
        ensures { result ≡ pace C.rules (state_of C.model self.now) size time }
    {
        let mut pacer = self.pacer;
        let mtu = self.tracker.table().mtu;
        let window = self.window();
        pacer
            .delay(self.rtt.get(), size as u64, mtu, window, time)
            .unwrap_or(None)
    }

    /// The cells, and what is kept of them.
    pub fn table(&self) -> &CellTable
        ensures { result.now ≡ self.now.tracker.table }
    {
        self.tracker.table()
    }

    /// The bytes in flight, counted anew over all cells.
    pub fn recount(&self) -> u64
        ensures cells { result ≡ bytes_in_flight self.now.tracker.table.cells }
        ensures kept { result ≡ self.now.tracker.table.in_flight_bytes }
    {
        self.tracker.recount()
    }

    /// How many numbers were handed out and where they are, and the fastest round trip.
    pub fn report(&self) -> Report
        ensures { result ≡ reported (state_of C.model self.now) }
    {
        let table = self.tracker.table();
        let (fastest, _, _) = self.rtt_filter.samples();
        Report {
            handed_out: table.next.saturating_sub(table.first),
            counts: table.counts,
            fastest,
        }
    }
}
