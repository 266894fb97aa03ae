// Stored means weighed by volume, and their quotient.
ghost use Rattle.std.specs.Prelude.{◌≡◌, ◌+◌, ◌*◌, ◌/◌, ◌%◌, ◌<◌, ◌≤◌, ◌^◌};
ghost use Rattle.flows.specs.held.Stored.{stored_limit};

// A long division goes on by 16 bits, as that at a dam does. The two stay apart: this one has a sum of 128 bits before it and a remainder behind it, that
// one a product, and what they share is three operations.
const CHUNK: u64 = 65_536;

const WIDE_CHUNK: u128 = 65_536;

// The sum of volume times stored mean, which may need more than eight bytes, and of volume.
#[derive(Clone, Copy)]
pub struct Weights {
    pub sum: u128,
    pub volume: u64,
}

impl Weights {
    // The sums of no mean.
    pub fn none() -> Self
        ensures sum { result.sum ≡ 0 }
        ensures volume { result.volume ≡ 0 }
    {
        Weights { sum: 0, volume: 0 }
    }

    // The sums with the stored mean of one more reach.
    pub fn weigh(self, volume: u32, mean: u32) -> Self
        requires sum_room { self.sum < 2 ^ 127 }
        requires volume_room { self.volume + volume < 2 ^ 64 }
        ensures sum { result.sum ≡ self.sum + volume * mean }
        ensures volume { result.volume ≡ self.volume + volume }
    {
        Weights {
            sum: self.sum + u128::from(u64::from(volume) * u64::from(mean)),
            volume: self.volume + u64::from(volume),
        }
    }

    // Their quotient in whole units, stored, and the remainder, by long division in two chunks: a quotient of 128 bits would call `__udivti3` of the C
    // compiler's library, which no proof covers.
    pub fn divide(self) -> (u32, u64)
        requires some { 0 < self.volume }
        requires few { self.volume < 2 ^ 37 }
        requires fits { self.sum ≤ stored_limit * self.volume }
        ensures { result ≡ (self.sum / self.volume, self.sum % self.volume) }
    {
        let volume = self.volume;
        let high = (self.sum / WIDE_CHUNK) as u64;
        let low = (self.sum % WIDE_CHUNK) as u64;
        let rest = high % volume * CHUNK + low;
        (
            (high / volume * CHUNK + rest / volume) as u32,
            rest % volume,
        )
    }
}
