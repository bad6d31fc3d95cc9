// An interval of slots: what the sort, and every search, splits at its middle.

ghost use Rattle.std.specs.Prelude.{◌≡◌, ◌+◌, ◌-◌, ◌≤◌, ◌<◌};
ghost use Rattle.kdsort.specs.Shape.{mid};

// The slots from lo up to hi, and the axis that they are split on: 0 for x, 1 for y.
#[derive(Clone, Copy)]
pub struct Interval {
    pub lo: usize,
    pub hi: usize,
    pub axis: usize,
    ghost order: { lo ≤ hi },
    ghost of_two: { axis < 2 },
}

impl Interval {
    // How many slots it has.
    pub fn len(self) -> usize
        ensures { result ≡ self.hi - self.lo }
    {
        self.hi - self.lo
    }

    // The slot in its middle.
    pub fn median(self) -> usize
        requires { self.lo < self.hi }
        ensures { result ≡ mid self.lo self.hi }
    {
        self.lo + (self.len() - 1) / 2
    }

    // What lies left of its median, split on the other axis.
    pub fn left(self) -> Interval
        requires { self.lo < self.hi }
        ensures { (result.lo ≡ self.lo) × (result.hi ≡ mid self.lo self.hi) × (result.axis ≡ 1 - self.axis) }
    {
        Interval {
            lo: self.lo,
            hi: self.median(),
            axis: 1 - self.axis,
        }
    }

    // What lies right of it.
    pub fn right(self) -> Interval
        requires { self.lo < self.hi }
        ensures { (result.lo ≡ mid self.lo self.hi + 1) × (result.hi ≡ self.hi) × (result.axis ≡ 1 - self.axis) }
    {
        Interval {
            lo: self.median() + 1,
            hi: self.hi,
            axis: 1 - self.axis,
        }
    }
}
