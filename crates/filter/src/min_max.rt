// The greatest of a stream of values over the last rounds, with a second and a third choice from later in the window
// (Kathleen Nichols' algorithm).
ghost use Rattle.std.specs.Prelude.{◌≡◌, true};
ghost use Rattle.filter.specs.Filter.{fresh, emptied, filled, placed, aged, updated, is_replaced, Falling};

use crate::order::TotalOrder;

#[derive(Clone, Copy)]
pub struct MinMaxSample<T> {
    // The round in which the value came.
    pub time: u64,
    pub value: T,
}

#[derive(Clone, Copy)]
pub struct MinMax<T> {
    // How many rounds the filter looks back.
    window: u64,
    // Three names, since of an array each step would begin by giving its elements these names.
    first: MinMaxSample<T>,
    second: MinMaxSample<T>,
    third: MinMaxSample<T>,
}

// A filter that has seen nothing.
impl<T: TotalOrder + Copy> Default for MinMax<T> {
    ghost is_default = { λ m. m ≡ fresh T.bottom };

    fn default() -> MinMax<T> {
        MinMax::new()
    }
}

const WINDOW: u64 = 10;

impl<T: TotalOrder + Copy> MinMax<T> {
    // A filter over ten rounds that has seen nothing.
    pub fn new() -> MinMax<T>
        ensures value { result ≡ fresh T.bottom }
        ensures falls { Falling T.at_most result }
    {
        let sample = MinMaxSample {
            time: 0,
            value: T::least(),
        };
        MinMax {
            window: WINDOW,
            first: sample,
            second: sample,
            third: sample,
        }
    }

    // The maximum.
    pub fn get(&self) -> T
        ensures { result ≡ self.now.first.value }
    {
        self.first.value
    }

    // How many rounds the filter looks back.
    pub fn window(&self) -> u64
        ensures { result ≡ self.now.window }
    {
        self.window
    }

    // The three choices, the best first.
    pub fn samples(&self) -> (MinMaxSample<T>, MinMaxSample<T>, MinMaxSample<T>)
        ensures { result ≡ (self.now.first, self.now.second, self.now.third) }
    {
        (self.first, self.second, self.third)
    }

    fn fill(&mut self, sample: MinMaxSample<T>)
        ensures { self.new ≡ filled self.old sample }
    {
        self.first = sample;
        self.second = sample;
        self.third = sample;
    }

    // Forgets every sample.
    pub fn reset(&mut self)
        ensures state { self.new ≡ emptied T.bottom self.old }
        ensures falls { Falling T.at_most self.new }
    {
        self.fill(MinMaxSample {
            time: 0,
            value: T::least(),
        });
    }

    // Whether the sample takes every place: nothing was kept, or no value is greater, or all are out of the window.
    fn is_replaced_by(&self, sample: &MinMaxSample<T>) -> bool
        ensures { result ≡ is_replaced T.at_most T.bottom self.now sample.now }
    {
        // As in the crate, the least element is what was kept where nothing was, and a real one is replaced in the same way.
        let unset = self.first.value.at_most(&T::least());
        let beaten = self.first.value.at_most(&sample.value);
        let out = sample.time.saturating_sub(self.third.time) > self.window;
        unset | beaten | out
    }

    fn place(&mut self, sample: MinMaxSample<T>)
        ensures { self.new ≡ placed T.at_most self.old sample }
    {
        if self.second.value.at_most(&sample.value) {
            self.second = sample;
            self.third = sample;
        } else if self.third.value.at_most(&sample.value) {
            self.third = sample;
        }
    }

    // As rounds go by, the later choices move up.
    fn subwin_update(&mut self, sample: MinMaxSample<T>)
        ensures { self.new ≡ aged self.old sample }
    {
        let dt = sample.time.saturating_sub(self.first.time);
        if dt > self.window {
            self.first = self.second;
            self.second = self.third;
            self.third = sample;
            if sample.time.saturating_sub(self.first.time) > self.window {
                self.first = self.second;
                self.second = self.third;
                self.third = sample;
            }
        } else if self.second.time == self.first.time && dt > self.window / 4 {
            self.second = sample;
            self.third = sample;
        } else if self.third.time == self.second.time && dt > self.window / 2 {
            self.third = sample;
        }
    }

    // Takes a measurement of a round.
    pub fn update_max(&mut self, current_round: u64, measurement: T)
        ensures step { self.new ≡ updated T.at_most T.bottom self.old current_round measurement }
        ensures falls { Falling T.at_most self.old → Falling T.at_most self.new }
        ensures covers { Falling T.at_most self.old → T.at_most measurement self.new.first.value ≡ true }
    {
        let sample = MinMaxSample {
            time: current_round,
            value: measurement,
        };
        if self.is_replaced_by(&sample) {
            self.fill(sample);
            return;
        }
        self.place(sample);
        self.subwin_update(sample);
    }
}
