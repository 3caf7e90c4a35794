// A token bucket that fills at 5/4 of a window for each round trip.
ghost use Rattle.pacing.specs.Buckets.{Bucket, Bounded};

use std::marker::Model;

pub mod pacing;

#[derive(Clone, Copy)]
pub struct Pacer {
    // The largest burst, in bytes, for the window and the MTU that were last seen.
    capacity: u64,
    last_window: u64,
    last_mtu: u16,
    // The bytes that may leave at once.
    tokens: u64,
    // When the tokens were last counted.
    prev: u64,
}

impl Model for Pacer {
    ghost Value = { Bucket };

    ghost view = { λ p. record { capacity = p.capacity; last_window = p.last_window; last_mtu = p.last_mtu; tokens = p.tokens; prev = p.prev } };

    ghost invariant = { λ p. Bounded (record { capacity = p.capacity; last_window = p.last_window; last_mtu = p.last_mtu; tokens = p.tokens; prev = p.prev }) };

    ghost inverse = { λ b. record { capacity = b.capacity; last_window = b.last_window; last_mtu = b.last_mtu; tokens = b.tokens; prev = b.prev } };
}
