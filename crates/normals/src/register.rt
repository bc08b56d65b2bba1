// A register of climate normals, a record for each station and month, over lines that the caller lends.
ghost use Rattle.std.specs.Prelude.{◌≡◌, true, false, ◌++◌, length, drop, pos, is_ok};
ghost use Rattle.station.specs.Refusals.{Answered, unless};
ghost use Rattle.ordered_table.specs.Contents.{rows, lines as all_lines, room};
ghost use Rattle.normals.specs.Register.{Blank, Filed, holdings, nothing_held, unchecked, looked_up, record_refusal, store_refusal, stored};

use crate::checked::CheckedNormals;
use crate::key::StationMonth;
use crate::record::Normals;
use ordered_table::row::Row;
use ordered_table::table::Table;
use station::refusal::Refusal;

#[derive(Drop)]
pub struct Register<'a> {
    table: Table<'a, StationMonth, CheckedNormals>,
}

impl<'a> Register<'a> {
    // A register without records; the lines may hold anything and stay as they are.
    pub fn new(lines: &'a mut [Row<StationMonth, CheckedNormals>]) -> Register<'a>
        ensures holds { holdings result.table ≡ nothing_held (length lines.old) }
        ensures lines { all_lines result.table ≡ lines.old }
        ensures lender { result.table.lines.ghost_name ≡ lines.entry.ghost_name }
    {
        Register {
            table: Table::new(lines),
        }
    }

    // How many records there may be: one for each line.
    pub fn ceiling(&self) -> usize
        ensures answer { result ≡ (holdings self.now.table).ceiling }
        ensures same { self.exit.now ≡ self.entry.now }
    {
        self.table.room()
    }

    // How many records there are.
    pub fn len(&self) -> usize
        ensures answer { result ≡ (holdings self.now.table).count }
        ensures same { self.exit.now ≡ self.entry.now }
    {
        self.table.len()
    }

    pub fn look_up(&self, station: i32, month: i32) -> Result<Option<CheckedNormals>, Refusal>
        ensures answer { unchecked result ≡ looked_up (holdings self.now.table) station month }
        ensures same { self.exit.now ≡ self.entry.now }
    {
        let wanted = StationMonth::check(station, month)?;
        Ok(self.table.find(wanted))
    }

    // Files normals under their station and month, instead of any that are filed there.
    pub fn store(&mut self, station: i32, month: i32, normals: Normals) -> Result<(), Refusal>
        ensures answer { result ≡ unless (store_refusal (holdings self.old.table) station month normals) tt }
        ensures after { holdings self.new.table ≡ stored (holdings self.old.table) station month normals }
        ensures filed { is_ok result ≡ true → Filed station month normals (holdings self.old.table) (holdings self.new.table) }
        ensures lines { all_lines self.new.table ≡ rows self.new.table ++ drop (length (rows self.new.table)) (all_lines self.old.table) }
        ensures declined { is_ok result ≡ false → all_lines self.new.table ≡ all_lines self.old.table }
        ensures lender { self.new.table.lines.ghost_name ≡ self.old.table.lines.ghost_name }
    {
        let row = check_row(station, month, normals)?;
        self.table
            .put(row.key, row.entry)
            .map_err(|_| Refusal::Full)
    }
}

// The station and month are checked first, then the normals.
fn check_row(
    station: i32,
    month: i32,
    normals: Normals,
) -> Result<Row<StationMonth, CheckedNormals>, Refusal>
    ensures { Answered (record_refusal station month normals) result (λ w. (pos w.key.station ≡ station) × (pos w.key.month ≡ month) × (w.entry.normals ≡ normals)) }
{
    let key = StationMonth::check(station, month)?;
    let entry = CheckedNormals::check(normals)?;
    Ok(Row { key, entry })
}

// A line to fill memory with before it is lent to a register.
pub fn blank_line() -> Row<StationMonth, CheckedNormals>
    ensures { Blank result }
{
    Row {
        key: StationMonth::first(),
        entry: CheckedNormals::blank(),
    }
}
