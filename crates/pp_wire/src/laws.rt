//! The fields of bytes are found one after another, and what was written is read again, whatever follows it. These
//! functions do nothing: their clauses are the laws.

ghost use Rattle.std.specs.Prelude.{◌≡◌, ◌≢◌, ◌+◌, ◌-◌, ◌≤◌, ◌<◌, ◌^◌, [], ◌++◌, ℕ, List, None, Some, Ok, Err, length};
ghost use Rattle.std.specs.Prelude.{IfSome, IfOk};
ghost use Rattle.std.specs.List.{flat_map, AllByRecursion};
ghost use Rattle.pp_wire.specs.Reading.{EndsWith};
ghost use Rattle.pp_wire.specs.Varint.{varint};
ghost use Rattle.pp_wire.specs.Walk.{more};
ghost use Rattle.pp_wire.specs.Fields.{Varint, Bytes, Item, field_at, fields, numbers};
ghost use Rattle.pp_wire.specs.Spelling.{varint_bytes, tag_bytes, number_field, bytes_field};

use crate::WireKind;

/// What `fields` means: none in no bytes, else the field at the front and then the fields of the bytes behind it, until
/// one is faulty.
pub fn fields_are_read_in_turn()
    // In no bytes there is no field and no fault.
    ensures none { (base : ℕ) → fields [] base ≡ record { items = []; fault = None } }

    // A fault at the front is the end, at the place of the front.
    ensures fault { (bytes : List ℕ) (base : ℕ) (kind : WireKind)
        → 0 < length bytes → field_at bytes base ≡ Err kind
        → fields bytes base
        ≡ record { items = []; fault = Some (record { kind = kind; at = base }) } }

    // A field at the front comes first. The place of the rest is greater by its length.
    ensures field { (bytes rest : List ℕ) (base : ℕ) (item : Item)
        → field_at bytes base ≡ Ok (item, rest)
        → fields bytes base ≡ more item (fields rest (base + (length bytes - length rest))) }

    // It has the place of the front and at least one byte, and the rest is what lies behind it.
    ensures place { (bytes : List ℕ) (base : ℕ) → IfOk (field_at bytes base) (λ x. x.0.at ≡ base) }
    ensures shorter { (bytes : List ℕ) (base : ℕ)
        → IfOk (field_at bytes base) (λ x. length x.1 < length bytes) }
    ensures behind { (bytes : List ℕ) (base : ℕ)
        → IfOk (field_at bytes base) (λ x. EndsWith bytes x.1) }

    // Which kind a known field has to be of is no matter of the walk.
    ensures no_wrong_kind { (bytes : List ℕ) (base : ℕ)
        → IfSome (fields bytes base).fault (λ fault. fault.kind ≢ WireKind.WrongKind) }
{}

/// What `numbers` means: none in no bytes, else the varint at the front and then the numbers of the bytes behind it,
/// until one is faulty. Each fault has the place of the payload's field.
pub fn numbers_are_read_in_turn()
    ensures none { (at : ℕ) → numbers [] at ≡ record { items = []; fault = None } }
    ensures fault { (bytes : List ℕ) (at : ℕ) (kind : WireKind)
        → 0 < length bytes → varint bytes ≡ Err kind
        → numbers bytes at ≡ record { items = []; fault = Some (record { kind = kind; at = at }) } }
    ensures number { (bytes rest : List ℕ) (at n : ℕ)
        → varint bytes ≡ Ok (n, rest) → numbers bytes at ≡ more n (numbers rest at) }
{}

/// A number's field comes first, and then the fields of what follows.
pub fn number_is_read()
    ensures { (number n : ℕ) (rest : List ℕ) (base : ℕ)
        → 1 ≤ number → number < 2 ^ 29 → 0 < n → n < 2 ^ 64
        → fields (number_field number n ++ rest) base
        ≡ more (record { number = number; content = Varint n; at = base })
        (fields rest (base + length (number_field number n))) }
{}

/// A run's field comes first, and then the fields of what follows.
pub fn bytes_are_read()
    ensures { (number : ℕ) (bytes rest : List ℕ) (base : ℕ)
        → 1 ≤ number → number < 2 ^ 29 → length bytes < 2 ^ 64
        → let payload = base + length (tag_bytes number 2 ++ varint_bytes (length bytes)) in
        fields (bytes_field number bytes ++ rest) base
        ≡ more (record { number = number; content = Bytes bytes payload; at = base })
        (fields rest (base + length (bytes_field number bytes))) }
{}

/// The numbers of a packed payload are the list.
pub fn packed_is_read()
    ensures { (list : List ℕ) (at : ℕ) → AllByRecursion (λ n. n < 2 ^ 64) list
        → numbers (flat_map varint_bytes list) at ≡ record { items = list; fault = None } }
{}

/// No bytes that are read as a number, from the front of some bytes, are fewer than its shortest varint.
pub fn no_varint_is_shorter()
    ensures { (bytes rest : List ℕ) (n : ℕ) → AllByRecursion (λ b. b < 256) bytes
        → varint bytes ≡ Ok (n, rest) → length (varint_bytes n) + length rest ≤ length bytes }
{}
