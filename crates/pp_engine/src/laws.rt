//! What holds of any words.
ghost use Rattle.std.specs.Prelude.{◌≡◌, ℕ, List};
ghost use Rattle.pp_options.specs.Words as options;
ghost use Rattle.pp_engine.specs.Words.{planned, said_by};

/// The plan of a session asks for what its words do, and the fault that it tells is their first one.
pub fn words_ask_for_a_plan()
    ensures { (words : List (List ℕ)) → said_by (planned words) ≡ options.words words }
{}
