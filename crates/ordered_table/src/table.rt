// The table: lines that are lent, and how many of them hold a row.
ghost use Rattle.std.specs.Prelude.{◌≡◌, ◌≤◌, true, length, take};
ghost use Rattle.ordered_table.specs.Order.{rising};

use crate::key::Key;
use crate::row::Row;
use crate::seek::seek;
use crate::shift::{insert_at, remove_at};

// The rows stand on the first lines, in rising order of their keys.
#[derive(Drop)]
pub struct Table<'a, K: Key, E> {
    lines: &'a mut [Row<K, E>],
    used: usize,
    ghost within: { used ≤ length lines.now },
    ghost rises: { rising K.below (take used lines.now) ≡ true },
}

// A key without a row finds no free line.
#[derive(Clone, Copy, Debug, PartialEq, Eq)]
pub struct TableFull;

impl<'a, K: Key, E: Copy> Table<'a, K, E> {
    ghost use Rattle.std.specs.Prelude.{◌||◌, [], ◌++◌, drop, is_ok, is_some, if◌then◌else◌, Some, None, nat_lt};
    ghost use Rattle.ordered_table.specs.Rows.{found, placed, without, row_of};
    ghost use Rattle.ordered_table.specs.Order.{FoundAt, MapSet};
    ghost use Rattle.ordered_table.specs.Contents.{rows, lines as all_lines, room};

    // A table without rows; the lines may hold anything and stay as they are.
    pub fn new(lines: &'a mut [Row<K, E>]) -> Table<'a, K, E>
        ensures rows { rows result ≡ [] }
        ensures lines { all_lines result ≡ lines.old }
        ensures lender { result.lines.ghost_name ≡ lines.entry.ghost_name }
    {
        Table { lines, used: 0 }
    }

    pub fn len(&self) -> usize
        ensures { result ≡ length (rows self.now) }
    {
        self.used
    }

    // For how many rows there are lines.
    pub fn room(&self) -> usize
        ensures { result ≡ room self.now }
    {
        self.lines.len()
    }

    fn rows(&self) -> &[Row<K, E>]
        ensures { result.now ≡ rows self.now }
    {
        &self.lines[..self.used]
    }

    // The entry of a key.
    pub fn find(&self, key: K) -> Option<E>
        ensures answer { result ≡ found K.below key (rows self.now) }
        ensures map { FoundAt K.below key (rows self.now) result }
    {
        let rows = self.rows();
        let place = seek(rows, key).ok()?;
        Some(rows[place].entry)
    }

    // Puts an entry in its key's place, instead of that key's entry if it has one.
    pub fn put(&mut self, key: K, entry: E) -> Result<(), TableFull>
        ensures answer { is_ok result ≡ (is_some (found K.below key (rows self.old)) || nat_lt (length (rows self.old)) (room self.old)) }
        ensures rows { rows self.new ≡ (if is_ok result then placed K.below (record { key = key; entry = entry }) (rows self.old) else rows self.old) }
        ensures lines { all_lines self.new ≡ rows self.new ++ drop (length (rows self.new)) (all_lines self.old) }
        ensures room { room self.new ≡ room self.old }
        ensures lender { self.new.lines.ghost_name ≡ self.old.lines.ghost_name }
        ensures map { is_ok result ≡ true → MapSet K.below key (Some entry) (rows self.old) (rows self.new) }
    {
        match seek(self.rows(), key) {
            Ok(place) => self.lines[place] = Row { key, entry },
            Err(place) => {
                if self.used == self.room() {
                    return Err(TableFull);
                }
                insert_at(self.lines, place, self.used, Row { key, entry });
                self.used += 1;
            }
        }
        Ok(())
    }

    // Takes a key's row out, which is left on the line that becomes free, and answers its entry.
    pub fn remove(&mut self, key: K) -> Option<E>
        ensures answer { result ≡ found K.below key (rows self.old) }
        ensures rows { rows self.new ≡ without K.below key (rows self.old) }
        ensures lines { all_lines self.new ≡ rows self.new ++ (row_of K.below key (rows self.old) ++ drop (length (rows self.old)) (all_lines self.old)) }
        ensures room { room self.new ≡ room self.old }
        ensures lender { self.new.lines.ghost_name ≡ self.old.lines.ghost_name }
        ensures map { MapSet K.below key None (rows self.old) (rows self.new) }
    {
        let place = seek(self.rows(), key).ok()?;
        let entry = self.lines[place].entry;
        let used = self.used;
        self.used = used - 1;
        remove_at(self.lines, place, used);
        Some(entry)
    }
}
