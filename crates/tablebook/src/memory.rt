// The caller's memory: a list of rows, and a list of places in it.
ghost use Rattle.std.specs.Prelude.{◌≡◌, ◌+◌, ◌<◌, ◌≤◌, length, take, slice_index_or, slice_set};
ghost use Rattle.rows.specs.Accounts.{is_of as is_of_account};
ghost use Rattle.rows.specs.declared.fields.Fields.{Fields as FieldsOf};
ghost use Rattle.placing.specs.Places.{accounts as accounts_of, index_of, last_place};
ghost use Rattle.tablebook.specs.Held.{InStep, placed};

use rows::{Account, Fields, is_of};

// The first places are those of the accounts of the kept rows. Both lists are the caller's memory, by a rule of the
// project, so how much of them is in use is kept beside them.
#[derive(Drop)]
pub struct Memory<'a> {
    pub rows: &'a mut [Fields],
    pub places: &'a mut [u32],
    // the number of kept rows, which stand first
    pub kept: u32,
    // the number of accounts that have a place
    pub accounts: usize,
    ghost backed: { (kept ≤ length rows.now) × (kept ≤ length places.now) },
    ghost step: { InStep (take kept rows.now) accounts places.now },
}

// The place of the last statement row of an account among rows.
fn last(rows: &[Fields], account: &Account) -> Option<usize>
    ensures { result ≡ last_place account.now rows.now }
{
    rows.iter().rposition(|row| is_of(row, account))
}

// Whether a statement row of an account stands at a place.
fn is_at(rows: &[Fields], place: u32, account: &Account) -> bool
    requires { place < length rows.now }
    ensures { (d : FieldsOf) → result ≡ is_of_account account.now (slice_index_or rows.now place d) }
{
    is_of(&rows[place as usize], account)
}

impl<'a> Memory<'a> {
    // Where an account stands among the accounts of the kept rows.
    fn find(&self, account: &Account) -> Option<usize>
        ensures { result ≡ index_of account.now (accounts_of (take self.now.kept self.now.rows.now)) }
    {
        self.places[..self.accounts]
            .iter()
            .position(|&place| is_at(self.rows, place, account))
    }

    // The place of the last statement row of an account among the kept rows.
    pub fn latest_kept(&self, account: &Account) -> Option<usize>
        ensures { result ≡ last_place account.now (take self.now.kept self.now.rows.now) }
    {
        self.find(account).map(|j| self.places[j] as usize)
    }

    // The same among the first `end` rows.
    pub fn latest(&self, end: usize, account: &Account) -> Option<usize>
        requires { (self.now.kept ≤ end) × (end ≤ length self.now.rows.now) }
        ensures { result ≡ last_place account.now (take end self.now.rows.now) }
    {
        let kept = self.kept as usize;
        // its contract is written out, since the check infers none of a closure that calls `latest_kept`
        let before = ||
            ensures { result ≡ last_place account.entry.now (take self.entry.now.kept self.entry.now.rows.now) }
        { self.latest_kept(account) };
        last(&self.rows[kept..end], account)
            .map(|i| kept + i)
            .or_else(before)
    }

    // Writes a row behind the kept ones.
    pub fn write(&mut self, at: usize, fields: Fields)
        requires { (self.old.kept ≤ at) × (at < length self.old.rows.now) }
        ensures rows { self.new.rows.now ≡ slice_set self.old.rows.now at fields }
        ensures places { self.new.places.now ≡ self.old.places.now }
        ensures kept { self.new.kept ≡ self.old.kept }
    {
        self.rows[at] = fields;
    }

    // Keeps the row behind the kept ones, and places it.
    fn keep_next(&mut self)
        requires { (self.old.kept < length self.old.rows.now) × ((self.old.kept < length self.old.places.now) × (self.old.kept < 100000)) }
        ensures kept { self.new.kept ≡ self.old.kept + 1 }
        ensures rows { self.new.rows.now ≡ self.old.rows.now }
        ensures grows { self.old.accounts ≤ self.new.accounts }
        ensures size { length self.new.places.now ≡ length self.old.places.now }
        ensures places { self.new.places.now ≡ placed (take (self.old.kept + 1) self.old.rows.now) self.old.places.now }
    {
        if let Fields::Statement(statement) = self.rows[self.kept as usize] {
            // an account without a place gets the next one
            let j = self.find(&statement.account).unwrap_or(self.accounts);
            self.places[j] = self.kept;
            self.accounts = self.accounts.max(j + 1);
        }
        self.kept += 1;
    }

    // Keeps the first `end` rows, and places them.
    pub fn keep(&mut self, end: u32)
        requires { (self.old.kept ≤ end) × ((end ≤ length self.old.rows.now) × ((end ≤ length self.old.places.now) × (end ≤ 100000))) }
        ensures kept { self.new.kept ≡ end }
        ensures rows { self.new.rows.now ≡ self.old.rows.now }
        ensures places { self.new.places.now ≡ placed (take end self.old.rows.now) self.old.places.now }
    {
        for _ in self.kept..end {
            self.keep_next();
        }
    }
}
