//! Comparing what was got with what is wanted.

ghost use Rattle.std.specs.Prelude.{◌≡◌, ◌≢◌, take, slice_get, MatchOption};
ghost use Rattle.query_node.specs.Fetching.{IsFirstDifference};

/// Where bytes first differ, and what stands there on both sides, `None` behind an end.
#[derive(Clone, Copy)]
pub(crate) struct Difference {
    pub(crate) at: usize,
    pub(crate) want: Option<u8>,
    pub(crate) got: Option<u8>,
}

/// The first place at which two texts of bytes differ.
pub(crate) fn first_difference(wanted: &[u8], found: &[u8]) -> Option<Difference>
    ensures { MatchOption result (wanted.now ≡ found.now) (λ d. IsFirstDifference wanted.now found.now d.at d.want d.got) }
{
    if wanted == found {
        return None;
    }
    let at = shared_front(wanted, found);
    Some(Difference {
        at,
        want: wanted.get(at).copied(),
        got: found.get(at).copied(),
    })
}

// How many bytes from the first on are the same.
fn shared_front(wanted: &[u8], found: &[u8]) -> usize
    requires { wanted.now ≢ found.now }
    ensures same { take result wanted.now ≡ take result found.now }
    ensures differ { slice_get wanted.now result ≢ slice_get found.now result }
{
    let shared = wanted.len().min(found.len());
    for at in 0..shared {
        if wanted[at] != found[at] {
            return at;
        }
    }
    shared
}
