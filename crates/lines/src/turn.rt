// What is done to a cell, given the cell beside it. A type parameter says which operation it is, so that each loop over cells
// is compiled for its own.
ghost use Rattle.std.specs.Prelude.{◌≡◌, Float};
ghost use Rattle.std.specs.Float.{binary64};
ghost use Rattle.lines.specs.Turns.{differ_cell, less_cell, step_cell};

pub trait Turn: Copy {
    ghost op: { Self → Float → Float → Float };

    // Cell x, with z beside it.
    fn of(self, x: f64, z: f64) -> f64
        ensures { result ≡ op self x z };
}

// The difference of the two.
#[derive(Clone, Copy)]
pub struct Differ;

impl Turn for Differ {
    ghost op = { λ t. differ_cell binary64 };

    fn of(self, x: f64, z: f64) -> f64 {
        x - z
    }
}

// Less a multiple of the cell beside it.
#[derive(Clone, Copy)]
pub struct Less {
    pub factor: f64,
}

impl Turn for Less {
    ghost op = { λ t. less_cell binary64 t.factor };

    fn of(self, x: f64, z: f64) -> f64 {
        x - self.factor * z
    }
}

// The same, divided.
#[derive(Clone, Copy)]
pub struct Step {
    pub factor: f64,
    pub divisor: f64,
}

impl Turn for Step {
    ghost op = { λ t. step_cell binary64 t.factor t.divisor };

    fn of(self, x: f64, z: f64) -> f64 {
        (x - self.factor * z) / self.divisor
    }
}
