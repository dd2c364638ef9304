//! Lists that several threads work on, and lanes over ruled deques, each of which gives a piece to one lane or leaves it.
//!
//! `piecewise` is the file to begin with: work on a list that is cut into pieces (`piece`), and `Resources`, which calls on
//! several workers are passed on. `run_pieces` (`run`) runs a job (`job`) of numbered pieces, each lane on a thread of its
//! own where one can be made (`station`). It gives the outcomes in the order of the pieces (`outcomes`). `for_each_on`
//! (`spread`) deals no pieces: it gives each thread a part of a list.
//!
//! Below lies the pool. `Lanes::make` (`make`) deals numbered pieces to the deques of some lanes (`deal`, `room`). A lane
//! (`lane`, `chair`) takes pieces of its own deque, and when that gives none, of the others' (`reach`). `close` (`given`)
//! then tells what each lane took and what is left.
//!
//! The deques are those of `crossbeam_deque` under the rule `Sound` of `specs/Pool.antt` (`view`). It says of each deque at
//! each moment that every piece dealt to it is still in it or was taken by one pass. `pool_law` (`law`) states what follows
//! of that rule without any thread, over all lists of steps.
#![tactic(auto)]

mod chair;
mod deal;
mod given;
mod job;
mod lane;
mod law;
mod make;
mod outcomes;
mod piece;
mod piecewise;
mod reach;
mod resources;
mod room;
mod run;
mod spread;
mod station;
mod view;

pub use deal::Deal;
pub use given::{Given, close};
pub use job::Job;
pub use lane::Lane;
pub use law::pool_law;
pub use make::Lanes;
pub use piece::{PIECE, piece_of, pieces_of};
pub use piecewise::{Piecewise, run_piecewise};
pub use reach::{Reach, sweep};
pub use resources::Resources;
pub use run::run_pieces;
pub use spread::for_each_on;
