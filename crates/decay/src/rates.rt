// The rates of a reach with its volume and flow.
ghost use Rattle.decay.specs.held.Step.{RatesPass};

// The rates of decay and of aeration of a reach, its volume and its flow, which are in range and pass check 11.
#[derive(Clone, Copy)]
pub struct Rates {
    pub k1: u32,
    pub k2: u32,
    pub volume: u32,
    pub flow: u32,
    pub ghost pass: { RatesPass k1 k2 volume flow },
}
