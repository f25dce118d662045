// Rows: what a row of any table is, and what is done with rows whichever their table is.
ghost use Rattle.std.specs.Prelude.{◌≡◌, ◌+◌, ◌*◌, ◌≤◌, ◌<◌, ℕ, List, Bool, length};
ghost use Rattle.storage_bytes.specs.declared.layout.Region.{Region as Place};
ghost use Rattle.storage_bytes.specs.Words.{put_bytes};
ghost use Rattle.storage_bytes.specs.Lists.{tabulate, every};
ghost use Rattle.storage_bytes.specs.Layout.{history_length};

use storage_bytes::layout::{History, Region};

// A row, with where its table lies, and how it is written there. A table is lent as a slice: Rattle refuses an array whose length
// is a trait's constant, and a const parameter of the trait would stand beside the row's type in each bound. A row's place is
// asked to be below the table's count: loops over places would make a type of places at each step.
pub trait Row: Copy {
    ghost TABLE: { Place };

    // How many bytes a row takes, and how many rows there is room for.
    ghost width: { ℕ };

    ghost count: { ℕ };

    ghost bytes: { Self → List ℕ };

    // It takes all its bytes.
    ghost whole: { Self → Type 0 };

    const TABLE: Region;

    fn put(self, table: &mut [u8], k: usize)
        requires whole { whole self }
        requires within { (k < count) × (length table.old ≡ TABLE.length) }
        ensures { table.new ≡ put_bytes table.old (k * width) (bytes self) };

    ghost inside: { TABLE.start + TABLE.length ≤ history_length };

    ghost filled: { TABLE.length ≡ count * width };

    ghost wide: { (x : Self) → whole x → length (bytes x) ≡ width };
}

// A row that is also read as a whole.
pub trait StoredRow: Row {
    // A row in the model's words: the code's own, and the one stored at a place of the table.
    ghost Value: { Type 0 };

    ghost value: { Self → Value };

    ghost stored: { List ℕ → ℕ → Value };

    fn at(table: &[u8], k: usize) -> Self
        requires { (k < Self.count) × (length table.now ≡ Self.TABLE.length) }
        ensures { value result ≡ stored table.now k };
}

// A row written in the whole history, of which only its table is lent, on the spot: a function that lends a region to be written was
// tried, and its `Lends` did not prove for a range.
pub fn set<R: Row>(history: &mut History, k: usize, row: R)
    requires whole { R.whole row }
    requires within { k < R.count }
    ensures { history.new ≡ put_bytes history.old (R.TABLE.start + k * R.width) (R.bytes row) }
{
    let a = R::TABLE.start;
    let e = a + R::TABLE.length;
    row.put(&mut history[a..e], k);
}

// Each of the first m rows passes the test.
pub fn all_rows<R: StoredRow, F: Fn(R) -> bool>(table: &[u8], m: usize, test: F) -> bool
    requires callable { F.IsAlwaysCallable test }
    requires within { (m ≤ R.count) × (length table.now ≡ R.TABLE.length) }
    ensures { (p : R.Value → Bool) → ((x : R) (b : Bool) → F.post test x b → b ≡ p (R.value x)) → result ≡ every p (tabulate (R.stored table.now) 0 m) }
{
    for k in 0..m {
        if !test(R::at(table, k)) {
            return false;
        }
    }
    true
}
