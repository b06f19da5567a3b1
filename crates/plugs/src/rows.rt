//! The rows of a table, and the sixteen words in which they lie.
ghost use Rattle.std.specs.Prelude.{◌≡◌, ◌≤◌, ◌↔◌, [], IsTrue, length, slice_index};
ghost use Rattle.plugs.specs.Tables.{plug_of, IsFull, Maps, Unmaps, row_word, text_of};
ghost use Rattle.plugs.specs.Parts.{IsFirstFrom, IsBetween, IsText, ReadsPlug, row_at, rows_in};

use arrayvec::ArrayVec;
use std::marker::Model;

/// How many rows a table has at most. The word before them says how many there are.
const MOST_ROWS: usize = 15;

/// What a key is multiplied by in its word: the plug lies below.
const ABOVE: u64 = 1 << 32;

/// A key and its plug.
#[derive(Clone, Copy, Debug, Default, PartialEq, Eq)]
pub struct Row {
    pub key: u32,
    pub plug: u32,
}

impl Row {
    fn word(&self) -> u64
        ensures { result ≡ row_word self.now }
    {
        u64::from(self.key) * ABOVE + u64::from(self.plug)
    }

    fn of_word(word: u64) -> Row
        ensures { result ≡ row_at word }
    {
        Row {
            key: (word / ABOVE) as u32,
            plug: (word % ABOVE) as u32,
        }
    }
}

/// The rows of a table, by rising key. Contracts see the list of them.
#[derive(Drop)]
pub struct Rows {
    rows: ArrayVec<Row, MOST_ROWS>,
}

impl Model for Rows {
    ghost use Rattle.std.specs.Prelude.{List};
    ghost use Rattle.plugs.specs.declared.rows.Row.{Row};

    ghost Value = { List Row };

    ghost use Rattle.plugs.specs.Insides.{list_of, AreRows};

    ghost view = { list_of };

    ghost invariant = { AreRows };
}

impl Rows {
    pub fn new() -> Rows
        ensures { result ≡ [] }
    {
        Rows {
            rows: ArrayVec::new(),
        }
    }

    /// Whether a row of this key would be one too many.
    pub fn are_full_for(&self, key: u32) -> bool
        ensures { IsTrue result ↔ IsFull key self.now }
    {
        self.rows.is_full() && self.get(key).is_none()
    }

    /// The plug of the key.
    pub fn get(&self, key: u32) -> Option<u32>
        ensures { result ≡ plug_of self.now key }
    {
        for row in self.rows.as_slice() {
            if row.key == key {
                return Some(row.plug);
            }
        }
        None
    }

    /// The key has this plug from then on.
    pub fn insert(&mut self, key: u32, plug: u32)
        requires { ¬ IsFull key self.old }
        ensures { Maps key plug self.old self.new }
    {
        let place = self.take_out(key);
        self.rows.insert(place, Row { key, plug });
    }

    /// The key has no plug from then on.
    pub fn remove(&mut self, key: u32)
        ensures { Unmaps key self.old self.new }
    {
        let _place = self.take_out(key);
    }

    /// Takes the row of the key out, where there is one. The answer is the place at which such a row belongs.
    fn take_out(&mut self, key: u32) -> usize
        ensures unmaps { Unmaps key self.old self.new }
        ensures between { IsBetween result key self.new }
        ensures room { length self.new ≡ 15 → IsFull key self.old }
    {
        let place = place_of(self.rows.as_slice(), key);
        if place < self.rows.len() && self.rows[place].key == key {
            self.rows.remove(place);
        }
        place
    }

    /// The words of the table.
    pub fn text(&self) -> [u64; 16]
        ensures { result ≡ text_of self.now }
    {
        let rows = self.rows.as_slice();
        let mut words = [0; 16];
        words[0] = rows.len() as u64;
        for place in 0..rows.len() {
            words[place + 1] = rows[place].word();
        }
        words
    }
}

/// The place of the first row whose key is not below this one.
fn place_of(rows: &[Row], key: u32) -> usize
    ensures { IsFirstFrom result key rows.now }
{
    for place in 0..rows.len() {
        if rows[place].key >= key {
            return place;
        }
    }
    rows.len()
}

/// The plug of the key in the table that has these words, and none where they are those of no table. The words are read
/// where they lie: each of them is the word of one row, so all that may be wrong is how many they are, their order, and
/// what stands behind them.
#[inline(always)]
pub fn plug_in(words: &[u64; 16], key: u32) -> Option<u32>
    ensures { ReadsPlug words.now key result }
{
    if !is_text(words) {
        return None;
    }
    look_in(words, key)
}

/// Whether these are the words of a table.
#[inline(always)]
fn is_text(words: &[u64; 16]) -> bool
    ensures { IsTrue result ↔ IsText words.now }
{
    if words[0] > MOST_ROWS as u64 {
        return false;
    }
    let count = words[0] as usize;
    for place in 1..count {
        if words[place] / ABOVE >= words[place + 1] / ABOVE {
            return false;
        }
    }
    for place in count + 1..16 {
        if words[place] != 0 {
            return false;
        }
    }
    true
}

/// The plug of the key in the rows that the words behind the first one are: as many as that says.
#[inline(always)]
fn look_in(words: &[u64; 16], key: u32) -> Option<u32>
    requires { slice_index words.now 0 ≤ 15 }
    ensures { result ≡ plug_of (rows_in words.now) key }
{
    for word in &words[1..=words[0] as usize] {
        let Row { key: own, plug } = Row::of_word(*word);
        if own == key {
            return Some(plug);
        }
    }
    None
}
