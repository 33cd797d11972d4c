//! The laws. Their calls do nothing.
ghost use Rattle.std.specs.Prelude.{◌≡◌, ℕ, ◌+◌, ◌^◌, List, [], ◌∷◌, ◌++◌, length, max, Option};
ghost use Rattle.turn_facts.specs.Prefixes.{IsAt};
ghost use Rattle.turn_table.specs.Seats.{Table, SeatView};
ghost use Rattle.seat_walks.specs.Walks.{Turned, Step, Draw, Lift, Took, Walks, Walked};
ghost use Rattle.seat_walks.specs.Gathers.{IsBack, Parted, Gathered};
ghost use Rattle.seat_walks.specs.Tells.{Drew, TurnTaken, Splits, Joins};
ghost use Rattle.seat_walks.specs.Closes.{IsLast, Went, Closed};

/// What the steps of a seat add up to.
pub fn steps_add_up<N, B>()
    ensures { (number : N → ℕ) (time : N → Option ℕ) (s e : SeatView N B) (xs : List (Step N))
        → Walks number time s xs e → Walked number time s xs e }
{}

/// Steps go on where others have ended, and a list of steps may be cut anywhere.
pub fn steps_go_on<N, B>()
    ensures joined { (number : N → ℕ) (time : N → Option ℕ) (s m e : SeatView N B) (xs ys : List (Step N))
        → Walks number time s xs m → Walks number time m ys e → Walks number time s (xs ++ ys) e }
    ensures cut { (number : N → ℕ) (time : N → Option ℕ) (s e : SeatView N B) (xs ys : List (Step N))
        → Walks number time s (xs ++ ys) e → (m : SeatView N B) × Walks number time s xs m × Walks number time m ys e }
{}

/// From what the calls of a table tell to a step: a draw, a lift, and a turn with what was done under it.
pub fn calls_are_steps<N, B>()
    ensures draw { (number : N → ℕ) (time : N → Option ℕ) (s e : SeatView N B) (x : ℕ)
        → Drew time s e x → Walks number time s (Draw x ∷ []) e }
    ensures lift { (number : N → ℕ) (time : N → Option ℕ) (s e : SeatView N B) (x : ℕ)
        → e ≡ record s { least = max s.least x } → Walks number time s (Lift x ∷ []) e }
    ensures turn { (number : N → ℕ) (time : N → Option ℕ) (old inside put new : SeatView N B) (t : Turned N)
        → TurnTaken number time old inside put new t → Walks number time old (Took t ∷ []) new }
{}

/// Seats are split off one by one.
pub fn seats_are_split_off<N, B>()
    ensures none { (s : SeatView N B) → Parted s [] s }
    ensures more { (s m e p : SeatView N B) (starts : List (SeatView N B)) (n : ℕ)
        → Parted s starts m → Splits m e p n → Parted s (starts ++ p ∷ []) e }
{}

/// Seats are joined one by one.
pub fn seats_are_joined<N, B>()
    ensures none { (number : N → ℕ) (s : SeatView N B) → Gathered number s [] s }
    ensures more { (number : N → ℕ) (t : Table B) (s m e p : SeatView N B) (parts : List (SeatView N B))
        → Gathered number s parts m → IsBack t (length s.seen) p → Joins number m e p → Gathered number s (parts ++ p ∷ []) e }
{}

/// Seats that took steps may be joined, and the seat that took in all of them may end its table.
pub fn seats_come_back<N, B>()
    ensures join { (number : N → ℕ) (time : N → Option ℕ) (t : Table B) (old : List (List N)) (s : SeatView N B) (starts ends : List (SeatView N B))
        → Went number time t old s starts ends → (i : ℕ) (p : SeatView N B) → IsAt ends i p → IsBack t (length old) p }
    ensures close { (number : N → ℕ) (time : N → Option ℕ) (t : Table B) (old : List (List N)) (s e : SeatView N B) (starts ends : List (SeatView N B))
        → Went number time t old s starts ends → Gathered number s ends e → e.allowance + (length e.drawn + length e.joined) ≡ 2 ^ 40 }
{}

/// A table that has ended is told from the seats that took its turns.
pub fn a_table_tells_all<N, B>()
    ensures { (number : N → ℕ) (time : N → Option ℕ) (t : Table B) (old : List (List N)) (s e : SeatView N B) (starts ends : List (SeatView N B))
        → Went number time t old s starts ends → Gathered number s ends e
        → (new : List (List N)) (last : ℕ) → IsLast number time e new last → Closed number time t.first last old new starts ends }
{}
