//! The words of vectors that stand together, and those of the query's.

ghost use Rattle.std.specs.Prelude.{◌≡◌, ◌+◌, ◌*◌, ◌≤◌, ◌^◌, ◌<◌, ℕ, Bool, List, [], get_or, length, take, drop};
ghost use Rattle.row_types.specs.Bits.{bits_in, hamming_of, union_of};

use bit_distance::{differing_bits, differing_in, union_bits, union_in};

/// Vectors that stand together, and one to compare each of them with, padded with clear bits.
pub(crate) trait Column {
    /// How many vectors there are.
    ghost count: { Self → ℕ };
    /// The bits of the vector to compare with.
    ghost asked: { Self → List Bool };
    /// The bits of each vector.
    ghost bits: { Self → ℕ → List Bool };

    /// The bits that differ.
    fn differing(&self, i: u32) -> u32
        requires { i < count self.now }
        ensures { result ≡ hamming_of (asked self.now) (bits self.now i) };

    /// The bits that are set in at least one of the two vectors.
    fn united(&self, i: u32) -> u32
        requires { i < count self.now }
        ensures { result ≡ union_of (asked self.now) (bits self.now i) };
}

/// Vectors of `W` words.
#[derive(Drop)]
pub(crate) struct Fixed<'a, const W: usize> {
    pub(crate) rows: &'a [[u64; W]],
    pub(crate) query: &'a [u64; W],
    ghost few: { W ≤ 64 },
}

impl<const W: usize> Column for Fixed<'_, W> {
    ghost count = { λ c. length c.rows.now };

    ghost asked = { λ c. bits_in 64 c.query.now };

    ghost bits = { λ c i. bits_in 64 (get_or c.rows.now i []) };

    fn differing(&self, i: u32) -> u32 {
        differing_in::<W>(self.query, &self.rows[i as usize])
    }

    fn united(&self, i: u32) -> u32 {
        union_in::<W>(self.query, &self.rows[i as usize])
    }
}

/// Vectors of as many words each as the query's has.
#[derive(Drop)]
pub(crate) struct Wide<'a> {
    pub(crate) words: &'a [u64],
    pub(crate) query: &'a [u64],
    pub(crate) count: u32,
    ghost few: { length query.now ≤ 64 },
    ghost fits: { count * length query.now ≤ length words.now },
}

impl Column for Wide<'_> {
    ghost count = { λ c. c.count };

    ghost asked = { λ c. bits_in 64 c.query.now };

    ghost bits = { λ c i. bits_in 64 (take (length c.query.now) (drop (i * length c.query.now) c.words.now)) };

    fn differing(&self, i: u32) -> u32 {
        differing_bits(self.query, window(self.words, self.query.len(), i))
    }

    fn united(&self, i: u32) -> u32 {
        union_bits(self.query, window(self.words, self.query.len(), i))
    }
}

// The words of the vector at a place.
fn window(words: &[u64], width: usize, i: u32) -> &[u64]
    requires few { width ≤ 64 }
    requires fits { i * width + width ≤ length words.now }
    ensures { result.now ≡ take width (drop (i * width) words.now) }
{
    let from = i as usize * width;
    &words[from..from + width]
}
