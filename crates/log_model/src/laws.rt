//! What was written at a timestamp stays as it was, however the log goes on.

ghost use Rattle.std.specs.Prelude.{◌≡◌, ℕ, ◌++◌, List, take, drop};
ghost use Rattle.hybrid_time.specs.declared.times.Timestamp.{Timestamp};
ghost use Rattle.log_model.specs.declared.logs.Entry.{Entry};
ghost use Rattle.log_model.specs.declared.logs.Write.{Write};
ghost use Rattle.log_model.specs.declared.queries.Plan.{Plan};
ghost use Rattle.log_model.specs.declared.queries.Query.{Query};
ghost use Rattle.log_model.specs.Logs.{IsLog, IsWrite, IsFrom, IsAbove, IsBelow, entries_at, up_to, live, was_live};
ghost use Rattle.log_model.specs.Scans.{scan};

/// Entries above a timestamp change neither the live rows nor the hits of a search there, and
/// entries that are not below it don't change what a write there meets. This call does nothing.
pub fn stability()
    ensures rows { (log more : List Entry) (ts : ℕ) → IsAbove ts more → live (log ++ more) ts ≡ live log ts }
    ensures hits { (log more : List Entry) (ts : ℕ) (plan : Plan) (query : Query) → IsAbove ts more →
        scan (log ++ more) ts plan query ≡ scan log ts plan query }
    ensures replies { (log more : List Entry) (ts : ℕ) (write : Write) → IsFrom ts more → was_live (log ++ more) ts write ≡ was_live log ts write }
{}

/// A log goes on with changes of different keys at a timestamp above its own, and the entries up to a
/// timestamp are its first ones. This call does nothing.
pub fn order()
    ensures goes_on { (log : List Entry) (ts : Timestamp) (changes : List Write) → IsLog log → IsBelow ts.0 log → IsWrite changes →
        IsLog (log ++ entries_at ts changes) }
    ensures first { (log : List Entry) (ts : ℕ) → IsLog log → (n : ℕ) × ((up_to log ts ≡ take n log) × IsAbove ts (drop n log)) }
{}
