//! The rule of a deque, and what each pass of it knows.
use crossbeam_deque::protocol::{Join, Outcome, Protocol, Split};
use std::collections::LinkedList;

/// Whose view it is. These are words of contracts, and no value of them is made.
pub enum Role {
    /// The owner's, while there is no other pass.
    Owner,
    /// The owner's, once its pass was split: it deals no more.
    Marked,
    /// That of another pass, which steals.
    Guest,
    /// That of a pass that was joined into another.
    Spent,
}

/// What a pass knows: the pieces dealt to the deque, and those that it took. No value of it is made.
pub struct View {
    /// Whose view it is.
    pub role: Role,
    /// The numbers of the pieces that were dealt to the deque so far, which rise. A spent view needs none.
    pub dealt: LinkedList<u32>,
    /// The numbers of the pieces that this pass took, in the order in which it took them.
    pub taken: LinkedList<u32>,
}

/// The rule of each deque: every piece that was dealt is in the deque, or was taken once.
pub struct OnceEach;

impl Protocol<u32, View> for OnceEach {
    ghost use Rattle.std.specs.Prelude.{[]};
    ghost use Rattle.pp_steal.specs.declared.view.Role.TheVariants.{Owner};
    ghost use Rattle.pp_steal.specs.Pool.{a_view, spent, Sound};

    ghost holds = { Sound };

    ghost first = { a_view Owner [] [] };

    ghost guest = { spent };
}

/// The owner deals a piece.
pub struct Dealt;

impl Outcome<u32, View> for Dealt {
    ghost use Rattle.pp_steal.specs.Pool.{Deals};

    ghost then = { Deals };
}

/// A pass takes a piece, or finds none: either way it learns that it took only dealt pieces, none twice.
pub struct Take;

impl Outcome<u32, View> for Take {
    ghost use Rattle.pp_steal.specs.Pool.{TakesPieces, TookDealt};

    ghost then = { TakesPieces };

    ghost empty = { TookDealt };
}

/// A pass is split in two, or two are joined.
pub struct Hand;

impl Split<View> for Hand {
    ghost use Rattle.pp_steal.specs.Pool.{mark, newcomer};

    ghost left = { mark };

    ghost right = { newcomer };
}

impl Join<View> for Hand {
    ghost use Rattle.pp_steal.specs.Pool.{joined_view, spent};

    ghost both = { joined_view };

    ghost spent = { spent };
}
