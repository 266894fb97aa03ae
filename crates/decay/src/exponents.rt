// The exponents of a step's series.
ghost use Rattle.std.specs.Prelude.{◌≡◌, ◌≤◌};
ghost use Rattle.decay.specs.held.Digits.{small};

// The exponents of a series, which are small: y of what is lost, and z of what of it is filled again.
#[derive(Clone, Copy)]
pub struct Exponents {
    pub y: u64,
    pub z: u64,
    pub ghost y_small: { y ≤ small },
    pub ghost z_small: { z ≤ small },
}

impl Exponents {
    // The exponents where only BOD lost counts.
    pub fn bod(self) -> Exponents
        ensures y { result.y ≡ self.y }
        ensures z { result.z ≡ 0 }
    {
        Exponents { y: self.y, z: 0 }
    }

    // The exponents where only deficit filled counts.
    pub fn deficit(self) -> Exponents
        ensures y { result.y ≡ self.z }
        ensures z { result.z ≡ 0 }
    {
        Exponents { y: self.z, z: 0 }
    }
}
