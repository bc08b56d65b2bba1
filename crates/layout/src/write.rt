// The text of a section, written into a draft.
ghost use Rattle.std.specs.Prelude.{◌≡◌, ◌≤◌, ◌++◌, length};
ghost use Rattle.std.specs.List.{list_all};
ghost use Rattle.text.specs.Drafts.{kept, text_of};
ghost use Rattle.layout.specs.Lawful.{is_left_out};
ghost use Rattle.layout.specs.Texts.{field_text, fields_text, group_text, groups_text, section_text, most_bytes};

use crate::field::Field;
use crate::row::{Group, Row};
use crate::section::Section;
use crate::split::split;
use text::draft::Draft;

const SPACE: u8 = b' ';

fn put_field(draft: &mut Draft, row: Row, cell: Field<u32>)
    ensures { text_of draft.new ≡ kept (text_of draft.old ++ field_text row cell) }
{
    match cell {
        Field::Shown(number) => draft.put_digits(row.width, number),
        Field::Barred => draft.put_bars(row.width),
        Field::LeftOut => {}
    }
}

fn put_fields(draft: &mut Draft, rows: &[Row], cells: &[Field<u32>])
    ensures { text_of draft.new ≡ kept (text_of draft.old ++ fields_text rows.now cells.now) }
{
    for (row, cell) in rows.iter().zip(cells) {
        put_field(draft, *row, *cell);
    }
}

// Whether every field is left out.
pub fn are_left_out(cells: &[Field<u32>]) -> bool
    ensures { result ≡ list_all is_left_out cells.now }
{
    cells.iter().all(|cell| matches!(cell, Field::LeftOut))
}

fn put_group(draft: &mut Draft, group: Group, rows: &[Row], cells: &[Field<u32>])
    ensures { text_of draft.new ≡ kept (text_of draft.old ++ group_text group rows.now cells.now) }
{
    if are_left_out(cells) {
        return;
    }
    draft.push(SPACE);
    draft.put_digits(1, u32::from(group.digit));
    put_fields(draft, rows, cells)
}

fn put_groups(draft: &mut Draft, groups: &[Group], rows: &[Row], cells: &[Field<u32>])
    ensures { text_of draft.new ≡ kept (text_of draft.old ++ groups_text groups.now rows.now cells.now) }
{
    let mut rows_left = rows;
    let mut cells_left = cells;
    for group in groups {
        let (rows_here, rows_behind) = split(rows_left, group.count);
        let (cells_here, cells_behind) = split(cells_left, group.count);
        put_group(draft, *group, rows_here, cells_here);
        rows_left = rows_behind;
        cells_left = cells_behind;
    }
}

// Writes the section's number and its groups, or nothing where all its fields are left out.
pub fn put_section(draft: &mut Draft, section: Section, cells: &[Field<u32>])
    ensures text { text_of draft.new ≡ kept (text_of draft.old ++ section_text section cells.now) }
    ensures room { length (section_text section cells.now) ≤ most_bytes section }
{
    if are_left_out(cells) {
        return;
    }
    draft.push(SPACE);
    draft.push_all(section.number());
    put_groups(draft, section.groups(), section.rows(), cells)
}
