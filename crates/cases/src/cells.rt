//! Rows of a table: their cells, and the places of the cells in fields.
use std::alloc::{AllocError, Global};

/// What stands between two cells of a row.
const BETWEEN: &str = " => ";

/// The cells of a row.
pub(crate) fn cells_of<'a>(alloc: Global, row: &'a str) -> Result<Vec<&'a str>, AllocError> {
    let mut cells = Vec::new(alloc);
    for cell in row.split(BETWEEN) {
        cells.push(cell)?;
    }
    Ok(cells)
}

/// The text with the cells in place of `\1`, `\2` and so on. A cell that a row hasn't is empty. Other escapes stay.
pub(crate) fn with_cells(alloc: Global, text: &str, cells: &[&str]) -> Result<String, AllocError> {
    let mut out = String::new(alloc);
    let mut escaped = false;
    for c in text.chars() {
        if escaped {
            match cell_at(c, cells) {
                Some(cell) => out.push_str(cell)?,
                None => {
                    out.push('\\')?;
                    out.push(c)?;
                }
            }
            escaped = false;
        } else if c == '\\' {
            escaped = true;
        } else {
            out.push(c)?;
        }
    }
    if escaped {
        out.push('\\')?;
    }
    Ok(out)
}

/// The cell of this digit.
fn cell_at<'a>(digit: char, cells: &[&'a str]) -> Option<&'a str> {
    let number = digit.to_digit(10)?;
    let place = number.checked_sub(1)?;
    match cells.get(place as usize) {
        Some(cell) => Some(cell),
        None => Some(""),
    }
}
