// A table whose sums are those of its cells, and each step of it, for any caller: it refuses what would break the sums.
ghost use Rattle.std.specs.Prelude.{◌≡◌, ◌%◌, ◌≤◌, IfOk};
ghost use Rattle.cells.specs.Sound.{Summed, Bounded};
ghost use Rattle.cells.specs.Sums.{bytes_in_flight};
ghost use Rattle.cells.specs.Tables.{opened, cell_of, in_time, admitted, number_if, held_if, is_held, IsHeld, transmitted, withdrawn, landing, freed, acknowledged, lost, at_time, with_mtu};

use crate::table::{Cell, CellTable, Counts, Datagram, Label};
use refusals::Refusal;
use values::mtu::Mtu;
use values::opening::Opening;

/// Follows each number that is handed out to its end.
#[derive(Drop)]
pub struct Tracker {
    table: CellTable,
    ghost summed: { Summed table },
    ghost bounded: { Bounded table },
}

// Number n has cell n modulo 256.
fn place_of(number: u64) -> usize
    ensures { result ≡ number % 256 }
{
    (number % 256) as usize
}

impl CellTable {
    // The number of a datagram in flight comes to its end.
    fn land(&mut self, number: u64, datagram: Datagram, time: u64)
        requires bytes { datagram.size ≤ self.old.in_flight_bytes }
        requires count { 1 ≤ self.old.counts.in_flight }
        ensures { self.new ≡ freed self.old number time datagram }
    {
        self.cells[place_of(number)] = Cell::Free;
        self.latest = time;
        self.in_flight_bytes -= datagram.size as u64;
        self.counts.in_flight -= 1;
    }
}

impl Tracker {
    /// The tracker of a path that has handed out nothing.
    pub fn new(opening: &Opening) -> Tracker
        ensures { result.table ≡ opened opening.now.first_number opening.now.mtu opening.now.start }
    {
        let number = opening.first_number();
        let table = CellTable {
            cells: [Cell::Free; 256],
            first: number,
            next: number,
            latest: opening.start(),
            mtu: opening.mtu(),
            held_bytes: 0,
            in_flight_bytes: 0,
            counts: Counts::default(),
        };
        Tracker { table }
    }

    /// The cells, and all that is kept of them.
    pub fn table(&self) -> &CellTable
        ensures { result.now ≡ self.now.table }
    {
        &self.table
    }

    /// The bytes in flight, counted anew over all cells.
    pub fn recount(&self) -> u64
        ensures cells { result ≡ bytes_in_flight self.now.table.cells }
        ensures kept { result ≡ self.now.table.in_flight_bytes }
    {
        self.table
            .cells
            .iter()
            .map(|cell| cell.size_in_flight() as u64)
            .sum()
    }

    /// Whether a time is neither before the latest nor above 2^62 - 1: refusal 3.
    pub fn check_time(&self, time: u64) -> Result<(), Refusal>
        ensures { result ≡ in_time self.now.table time }
    {
        if time < self.table.latest || time > Opening::MAX_TIME {
            return Err(Refusal::Time);
        }
        Ok(())
    }

    /// Whether a datagram may be granted: refusals 2 to 7.
    pub fn check(&self, size: u16, time: u64, window: u64) -> Result<(), Refusal>
        ensures { result ≡ admitted self.now.table size time window }
    {
        let table = &self.table;
        if size == 0 || size > table.mtu.get() {
            return Err(Refusal::Size);
        }
        self.check_time(time)?;
        if table.counts.held != 0 {
            return Err(Refusal::Held);
        }
        if table.next > Opening::MAX_NUMBER {
            return Err(Refusal::NumbersExhausted);
        }
        if !matches!(self.cell(table.next), Cell::Free) {
            return Err(Refusal::CellTaken);
        }
        if table.held_bytes + table.in_flight_bytes + size as u64 > window {
            return Err(Refusal::Window);
        }
        Ok(())
    }

    /// Holds the next number, and answers it; what `check` refuses is refused, and changes nothing.
    pub fn hold(&mut self, size: u16, time: u64, window: u64) -> Result<u64, Refusal>
        ensures answer { result ≡ number_if self.old.table.next (admitted self.old.table size time window) }
        ensures table { self.new.table ≡ held_if self.old.table size time (admitted self.old.table size time window) }
        ensures held { IfOk result (λ n. IsHeld self.new.table (record { number = n; size = size })) }
    {
        self.check(size, time, window)?;
        let table = &mut self.table;
        let number = table.next;
        table.cells[place_of(number)] = Cell::Held(Datagram { number, size, time });
        table.next = number + 1;
        table.latest = time;
        table.held_bytes += size as u64;
        table.counts.held += 1;
        Ok(number)
    }

    // `transmit` and `withdraw` share `held`, and `acknowledge` and `lose` share `landing` and `land`. What is left of each are the
    // writes in which the two differ: one function for both would be told by a flag which to make.

    /// From held to in flight; none, and nothing changes, where the number is not held with that size.
    pub fn transmit(&mut self, label: Label) -> Option<Datagram>
        ensures answer { result ≡ is_held self.old.table label }
        ensures table { self.new.table ≡ transmitted self.old.table label }
    {
        let transmitted = self.held(label)?;
        let table = &mut self.table;
        table.cells[place_of(label.number)] = Cell::InFlight(transmitted);
        table.held_bytes -= label.size as u64;
        table.in_flight_bytes += label.size as u64;
        table.counts.held -= 1;
        table.counts.in_flight += 1;
        Some(transmitted)
    }

    /// From held to withdrawn; none, and nothing changes, where the number is not held with that size.
    pub fn withdraw(&mut self, label: Label) -> Option<Datagram>
        ensures answer { result ≡ is_held self.old.table label }
        ensures table { self.new.table ≡ withdrawn self.old.table label }
    {
        let withdrawn = self.held(label)?;
        let table = &mut self.table;
        table.cells[place_of(label.number)] = Cell::Free;
        table.held_bytes -= label.size as u64;
        table.counts.held -= 1;
        table.counts.withdrawn += 1;
        Some(withdrawn)
    }

    /// From in flight to acknowledged, at a time: refusals 3 and 10, which change nothing.
    pub fn acknowledge(&mut self, number: u64, time: u64) -> Result<Datagram, Refusal>
        ensures answer { result ≡ landing self.old.table number time }
        ensures table { self.new.table ≡ acknowledged self.old.table number time }
    {
        let acknowledged = self.landing(number, time)?;
        self.table.land(number, acknowledged, time);
        self.table.counts.acknowledged += 1;
        Ok(acknowledged)
    }

    /// From in flight to lost, at a time: refusals 3 and 10, which change nothing.
    pub fn lose(&mut self, number: u64, time: u64) -> Result<Datagram, Refusal>
        ensures answer { result ≡ landing self.old.table number time }
        ensures table { self.new.table ≡ lost self.old.table number time }
    {
        let lost = self.landing(number, time)?;
        self.table.land(number, lost, time);
        self.table.counts.lost += 1;
        Ok(lost)
    }

    /// The latest time is now this one.
    pub fn advance(&mut self, time: u64)
        ensures { self.new.table ≡ at_time self.old.table time }
    {
        self.table.latest = time;
    }

    /// The MTU is now this one.
    pub fn set_mtu(&mut self, mtu: Mtu)
        ensures { self.new.table ≡ with_mtu self.old.table mtu }
    {
        self.table.mtu = mtu;
    }

    fn cell(&self, number: u64) -> Cell
        ensures { result ≡ cell_of self.now.table number }
    {
        self.table.cells[place_of(number)]
    }

    // The datagram that is held with that number and size.
    fn held(&self, label: Label) -> Option<Datagram>
        ensures { result ≡ is_held self.now.table label }
    {
        match self.cell(label.number) {
            Cell::Held(datagram)
                if datagram.number == label.number && datagram.size == label.size => {
                Some(datagram)
            }
            _ => None,
        }
    }

    // The datagram in flight that may be acknowledged or lost at this time.
    fn landing(&self, number: u64, time: u64) -> Result<Datagram, Refusal>
        ensures { result ≡ landing self.now.table number time }
    {
        self.check_time(time)?;
        match self.cell(number) {
            Cell::InFlight(datagram) if datagram.number == number => Ok(datagram),
            _ => Err(Refusal::NotInFlight),
        }
    }
}
