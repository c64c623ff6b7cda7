//! What an exercise writes: numbers that follow from a seed.
ghost use Rattle.std.specs.Prelude.{◌≡◌, ◌<◌, ◌^◌};
ghost use Rattle.ddf_exercise.specs.Draws.{behind_fill, drawn, first_state, next_fill, next_state};

/// Blocks of the array that are filled with one byte.
#[derive(Clone, Copy)]
pub struct Fill {
    /// The first block.
    pub start: u64,
    /// How many blocks, 1 to 16.
    pub count: u64,
    /// The byte.
    pub byte: u8,
}

/// A generator of numbers below 32,768: each is the upper part of its next state.
#[derive(Drop)]
pub struct Draws {
    state: u64,
    ghost small: { state < 2 ^ 31 },
}

impl Draws {
    /// A generator that begins with a seed.
    pub fn new(seed: u64) -> Draws
        ensures { result.state ≡ first_state seed }
    {
        Draws {
            state: seed % (1 << 31),
        }
    }

    /// The next blocks to fill.
    pub fn fill(&mut self) -> Fill
        ensures fill { result ≡ next_fill self.old.state }
        ensures state { self.new.state ≡ behind_fill self.old.state }
    {
        let start = self.next() % 8177;
        let count = 1 + self.next() % 16;
        let byte = (self.next() % 256) as u8;
        Fill { start, count, byte }
    }

    /// The next number.
    fn next(&mut self) -> u64
        ensures number { result ≡ drawn self.new.state }
        ensures state { self.new.state ≡ next_state self.old.state }
    {
        self.state = (self.state * 1_103_515_245 + 12_345) % (1 << 31);
        self.state / 65_536
    }
}
