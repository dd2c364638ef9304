//! The law of the pool's core.
ghost use Rattle.pp_steal.specs.Core.{EachStateIsSound, EachPieceOnce, EachTakenOnce};

/// A law, and no work: the pool as a machine over lists of steps (`specs/Core.antt`), in which no thread occurs.
///
/// Whatever steps lead from empty deques to some state, it is sound. After dealing, items and taken lists together hold
/// each piece once. Where all deques are empty, the taken lists alone do. It is proved by the lemmas by which
/// the calls of `Lane` on running deques are.
pub fn pool_law()
    ensures sound { EachStateIsSound }
    ensures once { EachPieceOnce }
    ensures taken { EachTakenOnce }
{}
