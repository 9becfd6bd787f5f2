// Numbers that look like chance.

/// Numbers that look like chance, the same ones for the same seed.
#[derive(Clone, Copy)]
pub struct Numbers {
    state: u64,
}

impl Numbers {
    /// The numbers of that seed.
    pub fn new(seed: u64) -> Numbers {
        Numbers { state: seed }
    }

    /// A number below that one, or 0.
    pub fn below(&mut self, end: u64) -> u64 {
        self.state = self
            .state
            .wrapping_mul(6_364_136_223_846_793_005)
            .wrapping_add(1_442_695_040_888_963_407);
        if end == 0 {
            return 0;
        }
        (self.state >> 33) % end
    }

    /// One of these texts.
    pub fn pick<'a>(&mut self, texts: &[&'a str]) -> &'a str {
        let i = self.below(texts.len() as u64) as usize;
        texts.get(i).copied().unwrap_or("")
    }
}
