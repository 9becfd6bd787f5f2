// Numbers that look like chance, and are the same in each run.

/// A source of numbers.
#[derive(Drop)]
pub struct Seeds(u64);

impl Seeds {
    pub fn new(seed: u64) -> Seeds {
        Seeds(seed)
    }

    /// The next number below 2 ^ 31.
    pub fn next(&mut self) -> usize {
        // Knuth's MMIX generator, of whose bits the upper ones are the better ones
        self.0 = self
            .0
            .wrapping_mul(6_364_136_223_846_793_005)
            .wrapping_add(1_442_695_040_888_963_407);
        (self.0 >> 33) as usize
    }

    /// The next number below the count; 0 where that is 0.
    pub fn below(&mut self, count: usize) -> usize {
        let next = self.next();
        match count {
            0 => 0,
            count => next % count,
        }
    }

    /// One of the texts; none where there is none.
    pub fn pick<'a>(&mut self, texts: &[&'a str]) -> &'a str {
        let next = self.next();
        match texts.len() {
            0 => "",
            count => texts[next % count],
        }
    }
}
