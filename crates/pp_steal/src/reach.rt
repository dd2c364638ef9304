//! How a lane comes by its next piece.
ghost use Rattle.std.specs.Prelude.{◌≡◌, ◌≢◌, ℕ, ◌<◌, ◌≤◌, List, IfSome, IfNone};
ghost use Rattle.pp_steal.specs.Lanes.{Make};
ghost use Rattle.pp_steal.specs.Reaching.{GaveOrRose, Gave, NoneFell, AllRose, CameInTurn};

/// A lane that can take pieces of its own deque and of the other lanes' deques. Lanes are numbered from 0. A count that
/// is at its last value, 2^64 - 1, is said to rise though it stays. No call takes memory.
pub trait Reach {
    /// How many lanes there are.
    ghost lanes: { Self → ℕ };

    /// Which of them this one is.
    ghost own: { Self → ℕ };

    /// Which make of lanes it is of.
    ghost make: { Self → Make };

    /// The pieces that it took, in order.
    ghost taken: { Self → List ℕ };

    /// How often its own deque gave nothing.
    ghost empties: { Self → ℕ };

    /// How often the deque of each other lane gave nothing.
    ghost misses: { Self → ℕ → ℕ };

    /// The number of lanes.
    fn lanes(&self) -> u32
        ensures { result ≡ lanes self.now };

    /// Its own number.
    fn own(&self) -> u32
        ensures is { result ≡ own self.now }
        ensures below { result < lanes self.now };

    /// A piece of its own deque. With `None` the count of that deque rose.
    fn pop(&mut self) -> Option<u32>
        ensures same_lanes { lanes self.new ≡ lanes self.old }
        ensures same_own { own self.new ≡ own self.old }
        ensures same_make { make self.new ≡ make self.old }
        ensures misses { (lane : ℕ) → misses self.new lane ≡ misses self.old lane }
        ensures answer { GaveOrRose (taken self.old) (taken self.new)
            (empties self.old) (empties self.new) result };

    /// A piece of the deque of another lane. With `None` the count of that lane rose.
    fn steal(&mut self, from: u32) -> Option<u32>
        requires below { from < lanes self.old }
        requires other { from ≢ own self.old }
        ensures same_lanes { lanes self.new ≡ lanes self.old }
        ensures same_own { own self.new ≡ own self.old }
        ensures same_make { make self.new ≡ make self.old }
        ensures empties { empties self.new ≡ empties self.old }
        ensures others { (lane : ℕ) → lane ≢ from → misses self.new lane ≡ misses self.old lane }
        ensures answer { GaveOrRose (taken self.old) (taken self.new)
            (misses self.old from) (misses self.new from) result };
}

/// A piece of its own deque, or else of the first other lane that gives one, from its right neighbour round. With
/// `None` the count of its own deque rose, and that of each other lane. With `Some` the counts rose of the deques that
/// were asked before, and no others. No memory.
pub fn sweep<R: Reach>(reach: &mut R) -> Option<u32>
    ensures same_lanes { R.lanes reach.new ≡ R.lanes reach.old }
    ensures same_own { R.own reach.new ≡ R.own reach.old }
    ensures same_make { R.make reach.new ≡ R.make reach.old }
    ensures counts { NoneFell (R.empties reach.old) (R.misses reach.old)
        (R.empties reach.new) (R.misses reach.new) }
    ensures some { IfSome result (Gave (R.taken reach.old) (R.taken reach.new)) }
    ensures round { IfSome result (λ _. CameInTurn (R.lanes reach.old) (R.own reach.old)
        (R.empties reach.old) (R.misses reach.old) (R.empties reach.new) (R.misses reach.new)) }
    ensures none { IfNone result (R.taken reach.new ≡ R.taken reach.old) }
    ensures tried { IfNone result (AllRose (R.lanes reach.old) (R.own reach.old)
        (R.empties reach.old) (R.misses reach.old) (R.empties reach.new) (R.misses reach.new)) }
{
    if let Some(piece) = reach.pop() {
        return Some(piece);
    }
    let lanes = reach.lanes();
    let own = reach.own();
    let after = lanes - own;
    for step in 1..lanes {
        let from = if step < after {
            own + step
        } else {
            step - after
        };
        if let Some(piece) = reach.steal(from) {
            return Some(piece);
        }
    }
    None
}
