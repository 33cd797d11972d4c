//! How seats are made and joined.
ghost use Rattle.std.specs.Prelude.{◌≡◌};
ghost use Rattle.turn_lock.specs.Client.{Forks, Merges};
ghost use Rattle.turn_lock.specs.Passes.{known, IsPassOf, IsStill, IsAtRest};

use crate::locks::TurnLock;
use crate::plays::{Pair, Twin};
use crate::protocol::{Join, Protocol, Split};
use crate::tickets::Pass;

impl<S, C, K, P: Protocol<S, C, K>> TurnLock<S, C, K, P> {
    /// Makes a seat, with a part of what this one knows and no ticket.
    pub fn split_as<M: Split<C>>(&self, pass: &mut Pass<S, C>) -> Pass<S, C>
        requires lock { IsPassOf self.now pass.old }
        requires rule { Forks P.holds pass.old.id (known pass.old) (M.left (known pass.old)) (M.right (known pass.old)) }
        ensures pass { IsStill pass.old pass.new }
        ensures other { IsPassOf self.now result × IsAtRest result }
        ensures rule { (known pass.new ≡ M.left (known pass.old)) × (known result ≡ M.right (known pass.old)) }
    {
        self.table.shared.split_seat::<Twin<M>>(pass)
    }

    /// Takes in what another seat knows. That seat has no ticket, and is gone.
    pub fn join_as<M: Join<C>>(&self, pass: &mut Pass<S, C>, other: Pass<S, C>)
        requires lock { IsPassOf self.now pass.old × IsPassOf self.now other }
        requires rest { IsAtRest other }
        requires rule { Merges P.holds pass.old.id (known pass.old) other.id (known other) (M.both (known pass.old) (known other)) M.spent }
        ensures pass { IsStill pass.old pass.new }
        ensures rule { known pass.new ≡ M.both (known pass.old) (known other) }
    {
        self.table.shared.join_seat::<Pair<M>>(pass, other);
    }
}
