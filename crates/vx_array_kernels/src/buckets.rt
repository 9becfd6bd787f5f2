// Numbers in buckets, by which they are looked up.
ghost use Rattle.std.specs.Prelude.{◌≡◌, ◌==◌, ◌||◌, ℕ, IfOk, IfSome, true};
ghost use Rattle.vx_array_kernels.specs.Buckets.{is_one_of, is_there, place_of};

use std::alloc::{AllocError, Global};

// The odd number by which products spread numbers that lie side by side: 2 ^ 64 by the golden ratio.
const SPREAD: u64 = 0x9E37_79B9_7F4A_7C15;

/// Numbers, each in the bucket that its product names. A bucket of fewer than four has some number several
/// times, or one of another bucket.
#[derive(Drop)]
pub struct Buckets {
    buckets: Vec<[u64; 4]>,
    shift: u32,
}

impl Buckets {
    /// The numbers in buckets, of which a few counts are tried. There is an answer where in one of these no
    /// bucket has more than four, for some numbers, but not very many.
    pub fn of(alloc: Global, numbers: &[u64]) -> Result<Option<Buckets>, AllocError>
        ensures { IfOk result (λ found. IfSome found (λ b. (n : ℕ) → is_there b n ≡ is_one_of numbers.now n)) }
    {
        for bits in 5..21u32 {
            let count = 1usize << bits;
            if count / 2 >= numbers.len() && count / 32 <= numbers.len() {
                if let Some(buckets) = filled(alloc, numbers, count, 64 - bits)? {
                    return Ok(Some(buckets));
                }
            }
        }
        Ok(None)
    }

    /// Whether the number is one of them.
    #[inline(always)]
    pub fn has(&self, number: u64) -> bool
        ensures { result ≡ is_there self.now number }
    {
        match self.buckets.as_slice().get(place(self.shift, number)) {
            Some(bucket) => is_in(bucket, number),
            None => false,
        }
    }

    // Puts a number into its bucket, if there is room.
    fn put(&mut self, number: u64) -> bool
        ensures { result ≡ true → (n : ℕ) → is_there self.new n ≡ (is_there self.old n || number == n) }
    {
        let j = place(self.shift, number);
        if j >= self.buckets.len() {
            return false;
        }
        match added(self.shift, j, self.buckets[j], number) {
            Some(bucket) => {
                self.buckets[j] = bucket;
                true
            }
            None => false,
        }
    }
}

// The numbers in so many buckets, if none has more than four.
fn filled(
    alloc: Global,
    numbers: &[u64],
    count: usize,
    shift: u32,
) -> Result<Option<Buckets>, AllocError>
    ensures { IfOk result (λ found. IfSome found (λ b. (n : ℕ) → is_there b n ≡ is_one_of numbers.now n)) }
{
    let [first, ..] = numbers else {
        return Ok(None);
    };
    let Some(mut buckets) = of_one(alloc, *first, count, shift)? else {
        return Ok(None);
    };
    for number in numbers {
        if !buckets.put(*number) {
            return Ok(None);
        }
    }
    Ok(Some(buckets))
}

// The one number in so many buckets, if its own is one of them.
fn of_one(
    alloc: Global,
    number: u64,
    count: usize,
    shift: u32,
) -> Result<Option<Buckets>, AllocError>
    ensures { IfOk result (λ found. IfSome found (λ b. (n : ℕ) → is_there b n ≡ (number == n))) }
{
    if place(shift, number) >= count {
        return Ok(None);
    }
    let buckets = vec![in alloc; [number; 4]; count]?;
    Ok(Some(Buckets { buckets, shift }))
}

// The bucket of that place with a number more, if there is room: where its last one is there twice, or one of
// another bucket.
fn added(shift: u32, j: usize, bucket: [u64; 4], number: u64) -> Option<[u64; 4]>
    ensures { IfSome result (λ more. (n : ℕ) → place_of shift n ≡ j → is_one_of more n ≡ (is_one_of bucket n || number == n)) }
{
    if is_in(&bucket, number) {
        return Some(bucket);
    }
    let [a, b, c, last] = bucket;
    if a == last || b == last || c == last || place(shift, last) != j {
        return Some([number, a, b, c]);
    }
    None
}

// The place of a number's bucket.
#[inline(always)]
fn place(shift: u32, number: u64) -> usize
    ensures { result ≡ place_of shift number }
{
    number.wrapping_mul(SPREAD).wrapping_shr(shift) as usize
}

// Whether the bucket has the number.
#[inline(always)]
fn is_in(bucket: &[u64; 4], number: u64) -> bool
    ensures { result ≡ is_one_of bucket.now number }
{
    (bucket[0] == number) | (bucket[1] == number) | (bucket[2] == number) | (bucket[3] == number)
}
