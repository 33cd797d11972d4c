//! The distance of two vectors, counted bit by bit.

ghost use Rattle.std.specs.Prelude.{◌≡◌, ◌≤◌, cond, length};
ghost use Rattle.row_types.specs.Bits.{bits_of, bits_in, count_pairs};
ghost use Rattle.row_types.specs.Hits.{fraction_of, distance_of};
ghost use Rattle.log_model.specs.Counts.{passes};

use row_types::{BitVector, Distance, Metric};

/// What is asked of the two bits at a position.
#[derive(Debug, Clone, Copy)]
pub enum Question {
    Differ,
    Either,
    Both,
}

/// 1 where two bits pass, and else 0.
fn count_bits(question: Question, x: bool, y: bool) -> u32
    ensures counted { result ≡ cond (passes question x y) 1 0 }
    ensures most { result ≤ 1 }
{
    let passes = match question {
        Question::Differ => x != y,
        Question::Either => x || y,
        Question::Both => x && y,
    };
    u32::from(passes)
}

/// How many of the 64 positions of two words pass.
fn count_word(question: Question, x: u64, y: u64) -> u32
    ensures bits { result ≡ count_pairs (passes question) (bits_of 64 x) (bits_of 64 y) }
    ensures most { result ≤ 64 }
{
    let mut total = 0;
    let mut left = x;
    let mut right = y;
    'bits: for position in 0u32..64 {
        total += count_bits(question, left % 2 == 1, right % 2 == 1);
        left /= 2;
        right /= 2;
    }
    total
}

/// How many positions of two rows of words pass.
fn count_words(question: Question, xs: &[u64], ys: &[u64]) -> u32
    requires alike { length xs.now ≡ length ys.now }
    requires few { length xs.now ≤ 64 }
    ensures { result ≡ count_pairs (passes question) (bits_in 64 xs.now) (bits_in 64 ys.now) }
{
    let mut total = 0;
    'words: for i in 0..xs.len() {
        total += count_word(question, xs[i], ys[i]);
    }
    total
}

/// How many positions of two vectors pass.
fn count(question: Question, a: &BitVector, b: &BitVector) -> u32
    requires { length a.now ≡ length b.now }
    ensures { result ≡ count_pairs (passes question) a.now b.now }
{
    count_words(question, a.words(), b.words())
}

/// The share of the union that is not common, where there is a union.
fn fraction(union: u32, common: u32) -> Distance
    ensures { result ≡ fraction_of union common }
{
    if union == 0 {
        Distance::Jaccard { num: 0, den: 1 }
    } else {
        Distance::Jaccard {
            num: union.saturating_sub(common),
            den: union,
        }
    }
}

/// The distance of two vectors by a metric.
pub fn distance(metric: Metric, a: &BitVector, b: &BitVector) -> Distance
    requires { length a.now ≡ length b.now }
    ensures { result ≡ distance_of metric a.now b.now }
{
    match metric {
        Metric::Hamming => Distance::Hamming(count(Question::Differ, a, b)),
        Metric::Jaccard => fraction(count(Question::Either, a, b), count(Question::Both, a, b)),
    }
}
