//! How the records of a file follow one another. The function does nothing: its clauses are the law.
ghost use Rattle.std.specs.Prelude.{◌≡◌, ◌+◌, ℕ, List, [], Some, None, Ok, Err, length};
ghost use Rattle.pp_legacy.specs.Records.{StackRecord, in_front, record_at, entries_from};

use crate::LegacyFault;
use crate::records::Cursor;

/// What `entries_from` means: the record at the cursor and then those behind it, up to the trailer or the first fault.
pub fn records_are_read_in_turn()
    ensures fault { (ws : List ℕ) (nanos : ℕ) (at : Cursor) (fault : LegacyFault)
        → record_at ws nanos at ≡ Err fault → entries_from ws nanos at ≡ Err fault }
    ensures trailer { (ws : List ℕ) (nanos : ℕ) (at : Cursor)
        → record_at ws nanos at ≡ Ok None
        → entries_from ws nanos at ≡ Ok (record { entries = []; text = at.word + 3 }) }
    ensures entry { (ws : List ℕ) (nanos : ℕ) (at next : Cursor) (entry : StackRecord)
        → record_at ws nanos at ≡ Ok (Some (entry, next))
        → entries_from ws nanos at ≡ in_front entry (entries_from ws nanos next) }

    // A record is its count, its depth and its addresses.
    ensures behind { (ws : List ℕ) (nanos : ℕ) (at next : Cursor) (entry : StackRecord)
        → record_at ws nanos at ≡ Ok (Some (entry, next))
        → at.word + 2 + length entry.stack ≡ next.word }
{}
