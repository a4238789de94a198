//! What is found of places that are looked at one after another, counted from 0.

ghost use Rattle.std.specs.Prelude.{◌≡◌, ◌+◌, ◌^◌, ◌<◌, ◌++◌, List, ℕ, [], ◌∷◌, cond, nat_lt};
ghost use Rattle.grib_rescan.specs.Bounds.{run_in};
ghost use Rattle.grib_rescan.specs.Places.{held_of};

/// Places that follow one another.
#[derive(Clone, Copy, Debug)]
pub(crate) struct Run {
    pub first: u32,
    pub count: u32,
}

/// Of the places that hold, the first and the last so far, and how many there are.
#[derive(Clone, Copy, Debug)]
pub(crate) struct Held {
    pub first: u32,
    pub last: u32,
    pub count: u32,
}

impl Held {
    /// None so far.
    pub(crate) fn none() -> Held
        ensures { result ≡ held_of [] }
    {
        Held {
            first: 0,
            last: 0,
            count: 0,
        }
    }

    /// With one more behind them.
    pub(crate) fn with(self, place: u32) -> Held
        requires { self.count + 1 < 2 ^ 32 }
        ensures { (places : List ℕ) → self ≡ held_of places → result ≡ held_of (places ++ place ∷ []) }
    {
        Held {
            first: if self.count == 0 { place } else { self.first },
            last: place,
            count: self.count + 1,
        }
    }

    /// All of them, if they follow one another.
    pub(crate) fn run(self) -> Option<Run>
        ensures { (places : List ℕ) → self ≡ held_of places → result ≡ run_in places }
    {
        let reach = (u64::from(self.last) + 1).saturating_sub(u64::from(self.first));
        if u64::from(self.count) != reach {
            return None;
        }
        Some(Run {
            first: self.first,
            count: self.count,
        })
    }
}

/// The place that is nearest so far, the first of several, and its distance.
#[derive(Clone, Copy, Debug)]
pub(crate) struct Closest {
    pub place: u32,
    pub distance: u64,
}

impl Closest {
    /// The later place if it is nearer.
    pub(crate) fn or(self, place: u32, distance: u64) -> Closest
        ensures { result ≡ cond (nat_lt distance self.distance) (record { place = place; distance = distance }) self }
    {
        if distance < self.distance {
            return Closest { place, distance };
        }
        self
    }
}
