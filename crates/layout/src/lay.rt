// A section's fields, from the figures that there are.
ghost use Rattle.std.specs.Prelude.{◌≡◌, length, if◌then◌else◌, nat_eq};
ghost use Rattle.std.specs.List.{list_all};
ghost use Rattle.layout.specs.Laid.{is_absent, is_zero, is_silent, cell_of, settled, laid, laid_out, LaidLawful};

use crate::field::Field;
use crate::row::Group;
use crate::section::Section;
use crate::split::split;

fn are_absent(figures: &[Option<u32>]) -> bool
    ensures { result ≡ list_all is_absent figures.now }
{
    figures.iter().all(Option::is_none)
}

fn are_zero(figures: &[Option<u32>]) -> bool
    ensures { result ≡ list_all is_zero figures.now }
{
    figures.iter().all(|figure| *figure == Some(0))
}

fn is_silent(group: Group, figures: &[Option<u32>]) -> bool
    ensures { result ≡ is_silent group figures.now }
{
    are_absent(figures) || (group.noughts && are_zero(figures))
}

fn cell_of(silent: bool, figure: Option<u32>) -> Field<u32>
    ensures { result ≡ cell_of silent figure }
{
    if silent {
        return Field::LeftOut;
    }
    figure.map_or(Field::Barred, Field::Shown)
}

// Writes the fields of a group over as many cells.
fn settle(silent: bool, figures: &[Option<u32>], cells: &mut [Field<u32>])
    requires { length figures.now ≡ length cells.old }
    ensures { cells.new ≡ settled silent figures.now }
{
    for (i, figure) in figures.iter().enumerate() {
        cells[i] = cell_of(silent, *figure);
    }
}

// Writes the fields of a section from its figures over as many cells: a bar where there is no figure, and a group left out where it
// would tell nothing. Where there are not as many cells as figures, nothing is written.
pub fn lay_out(section: Section, figures: &[Option<u32>], cells: &mut [Field<u32>])
    ensures cells { cells.new ≡ (if nat_eq (length figures.now) (length cells.old) then laid_out section figures.now else cells.old) }
    ensures lawful { LaidLawful section figures.now }
{
    if figures.len() == cells.len() {
        lay(section.groups(), figures, cells);
    }
}

fn lay(groups: &[Group], figures: &[Option<u32>], cells: &mut [Field<u32>])
    requires { length figures.now ≡ length cells.old }
    ensures { cells.new ≡ laid groups.now figures.now }
{
    match groups {
        [] => settle(true, figures, cells),
        [group, groups_behind @ ..] => {
            let (here, behind) = split(figures, group.count);
            let (cells_here, cells_behind) = cells.split_at_mut(here.len());
            settle(is_silent(*group, here), here, cells_here);
            lay(groups_behind, behind, cells_behind);
        }
    }
}
