// Bits, to which others are added.
ghost use Rattle.std.specs.Prelude.{◌≡◌, ◌++◌, [], IfOk, IfSome, length};

use std::alloc::{AllocError, Global};
use std::marker::Model;
use vx_array_loops::Bits;

/// Bits, to which others are added. Contracts see them as the truth values.
#[derive(Drop)]
pub(crate) struct JoinedBits {
    kept: Kept,
}

/// Truth values in words, or one by one.
#[derive(Drop)]
pub(crate) enum Kept {
    /// In words, as long as each of the parts before the last one fills whole words.
    Words(Bits),
    /// One by one, behind a part that doesn't.
    Each(Vec<bool>),
}

impl Model for JoinedBits {
    ghost use Rattle.std.specs.Prelude.{List, Bool};
    ghost use Rattle.vx_array_build.specs.Kept.{truths_kept};

    ghost Value = { List Bool };

    ghost view = { λ b. truths_kept b.kept };
}

impl JoinedBits {
    /// No row yet, and room for so many in words.
    pub fn with_capacity(alloc: Global, rows: usize) -> Result<JoinedBits, AllocError>
        ensures { IfOk result (λ b. b ≡ []) }
    {
        Ok(JoinedBits::of(Bits::with_capacity(alloc, rows)?))
    }

    /// Those rows.
    pub fn of(bits: Bits) -> JoinedBits
        ensures { result ≡ bits }
    {
        JoinedBits {
            kept: Kept::Words(bits),
        }
    }

    /// The number of rows.
    pub fn len(&self) -> usize
        ensures { result ≡ length self.now }
    {
        match &self.kept {
            Kept::Words(bits) => bits.len(),
            Kept::Each(truths) => truths.len(),
        }
    }

    /// The same rows and those of the other behind them: copied word by word behind whole words, and else one
    /// by one. There is an answer where all together can be counted.
    pub fn append(self, alloc: Global, other: &Bits) -> Result<Option<JoinedBits>, AllocError>
        ensures { IfOk result (λ found. IfSome found (λ b. b ≡ self ++ other.now)) }
    {
        match self.kept {
            Kept::Words(bits) => {
                if bits.len() % 64 == 0 {
                    return words_behind(bits, other);
                }
                Ok(Some(each_behind(alloc, bits.to_bools(alloc)?, other)?))
            }
            Kept::Each(truths) => Ok(Some(each_behind(alloc, truths, other)?)),
        }
    }

    /// The rows in words.
    pub fn finish(self, alloc: Global) -> Result<Bits, AllocError>
        ensures { IfOk result (λ bits. bits ≡ self) }
    {
        match self.kept {
            Kept::Words(bits) => Ok(bits),
            Kept::Each(truths) => Bits::from_bools(alloc, truths.as_slice()),
        }
    }
}

// The rows and those of the other behind them, where `Bits::append` has them.
fn words_behind(bits: Bits, other: &Bits) -> Result<Option<JoinedBits>, AllocError>
    ensures { IfOk result (λ found. IfSome found (λ b. b ≡ bits ++ other.now)) }
{
    match bits.append(other)? {
        Some(bits) => Ok(Some(JoinedBits::of(bits))),
        None => Ok(None),
    }
}

// The rows and those of the other behind them, one by one.
fn each_behind(alloc: Global, mut truths: Vec<bool>, other: &Bits) -> Result<JoinedBits, AllocError>
    ensures { IfOk result (λ b. b ≡ truths.items ++ other.now) }
{
    truths.extend_from_slice(other.to_bools(alloc)?.as_slice())?;
    Ok(JoinedBits {
        kept: Kept::Each(truths),
    })
}
