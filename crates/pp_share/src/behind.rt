//! A table that goes behind others of its kind.
ghost use Rattle.std.specs.Prelude.{◌≡◌, ◌+◌, ◌^◌, ◌<◌};
ghost use Rattle.pp_share.specs.Behind.{behind_id};

/// A table of `len` entries that goes behind `after` others.
#[derive(Clone, Copy, Debug)]
pub struct Behind {
    /// How many entries stand before the table.
    pub after: u64,
    /// How many entries the table has itself.
    pub len: u64,
    pub ghost small: { after + len < 2 ^ 62 },
}

impl Behind {
    /// The table behind the others.
    pub fn new(after: usize, len: usize) -> Behind
        requires { after + len < 2 ^ 62 }
        ensures after { result.after ≡ after }
        ensures len { result.len ≡ len }
    {
        Behind {
            after: after as u64,
            len: len as u64,
        }
    }

    /// The id in the joined table of the entry at the place `id` - 1, and 0 where there is none.
    pub fn id(&self, id: u64) -> u64
        ensures { result ≡ behind_id self.now.after self.now.len id }
    {
        if id == 0 || id > self.len {
            0
        } else {
            self.after + id
        }
    }
}
