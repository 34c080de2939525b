ghost use Rattle.std.specs.Prelude.{◌≡◌, ◌++◌};
ghost use Rattle.std.specs.List.{list_all};
ghost use Rattle.ss_elem.specs.Rows.{has_two_values};
ghost use Rattle.ss_image.specs.Images.{form_of, row_len};

use ss_elem::Event;

/// How the rows of a join's image are written, all of them alike.
#[derive(Clone, Copy, Debug, PartialEq, Eq)]
pub enum RowForm {
    /// In 48 bytes, with the first two values: the other two are 0 in every row.
    Narrow,
    /// In 64 bytes, with all four values.
    Wide,
}

impl RowForm {
    /// The form of the image of a join that remembers these rows.
    pub fn of_sides(left: &[Event], right: &[Event]) -> RowForm
        ensures { result ≡ form_of (left.now ++ right.now) }
    {
        if have_two_values(left) && have_two_values(right) {
            RowForm::Narrow
        } else {
            RowForm::Wide
        }
    }

    /// How many bytes a row has.
    pub fn row_len(self) -> usize
        ensures { result ≡ row_len self }
    {
        match self {
            RowForm::Narrow => 48,
            RowForm::Wide => 64,
        }
    }
}

fn have_two_values(rows: &[Event]) -> bool
    ensures { result ≡ list_all has_two_values rows.now }
{
    rows.iter().all(|row| row.has_two_values())
}
