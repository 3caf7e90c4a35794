// The cells of a path and what they add up to, as plain data.
ghost use Rattle.std.specs.Prelude.{◌≡◌};

use values::mtu::Mtu;

/// What a permit says of its datagram: the number, and the size in bytes.
#[derive(Clone, Copy)]
pub struct Label {
    pub number: u64,
    pub size: u16,
}

/// A datagram by its number, its size in bytes and the time of its grant in nanoseconds.
// It has no `Label` inside: the definitions would read `d.label.number` where they read `d.number`, and say no more.
#[derive(Clone, Copy)]
pub struct Datagram {
    pub number: u64,
    pub size: u16,
    pub time: u64,
}

/// The cell of every number with the same remainder modulo 256.
#[derive(Clone, Copy)]
pub enum Cell {
    Free,
    /// Granted, and neither transmitted nor withdrawn.
    Held(Datagram),
    /// Transmitted, and neither acknowledged nor lost.
    InFlight(Datagram),
}

impl Cell {
    ghost use Rattle.cells.specs.Sums.{in_flight_size};

    // The size of its datagram, where that is in flight.
    pub(crate) fn size_in_flight(self) -> u16
        ensures { result ≡ in_flight_size self }
    {
        match self {
            Cell::InFlight(datagram) => datagram.size,
            Cell::Free | Cell::Held(_) => 0,
        }
    }
}

/// How many numbers are in each of the five places.
#[derive(Clone, Copy, Default)]
pub struct Counts {
    pub held: u64,
    pub in_flight: u64,
    pub acknowledged: u64,
    pub lost: u64,
    pub withdrawn: u64,
}

#[derive(Drop)]
pub struct CellTable {
    pub cells: [Cell; 256],
    /// The first number of the path.
    pub first: u64,
    /// The next number to hand out.
    pub next: u64,
    /// The latest time.
    pub latest: u64,
    pub mtu: Mtu,
    pub held_bytes: u64,
    pub in_flight_bytes: u64,
    pub counts: Counts,
}
