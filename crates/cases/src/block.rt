//! Blocks of a file of cases, as they stand there.
use crate::case::{Case, Field, copies};
use crate::cells::{cells_of, with_cells};
use crate::fault::CasesFault;
use std::alloc::{AllocError, Global};

/// What a block is for.
#[derive(Clone, Copy, PartialEq, Eq)]
pub(crate) enum Kind {
    /// Fields that cases may share.
    Given,
    Case,
    /// A case for each row.
    Table,
}

/// A block: a name and fields.
#[derive(Drop)]
pub(crate) struct Block {
    pub(crate) kind: Kind,
    pub(crate) name: String,
    pub(crate) fields: Vec<Field>,
}

impl Block {
    /// Appends the cases that the block says.
    pub(crate) fn put_cases(&self, alloc: Global, cases: &mut Vec<Case>) -> Result<(), CasesFault> {
        match self.kind {
            Kind::Given => Ok(()),
            Kind::Case => {
                cases.push(Case {
                    name: String::from_str(alloc, self.name.as_str())?,
                    fields: copies(alloc, self.fields.as_slice())?,
                })?;
                Ok(())
            }
            Kind::Table => self.put_rows(alloc, cases),
        }
    }

    /// Appends a case for each line of the fields `rows`.
    fn put_rows(&self, alloc: Global, cases: &mut Vec<Case>) -> Result<(), CasesFault> {
        for field in self.fields.iter() {
            if field.word.as_str() == "rows" {
                for row in field.lines.as_str().lines() {
                    cases.push(self.case_of_row(alloc, row)?)?;
                }
            }
        }
        Ok(())
    }

    /// The case of a row: the other fields, with the row's cells in their places.
    fn case_of_row(&self, alloc: Global, row: &str) -> Result<Case, CasesFault> {
        let cells = cells_of(alloc, row)?;
        let mut fields = Vec::new(alloc);
        for field in self.fields.iter() {
            if field.word.as_str() != "rows" {
                fields.push(field_with(alloc, field, cells.as_slice())?)?;
            }
        }
        let mut name = String::from_str(alloc, self.name.as_str())?;
        name.push_str(": ")?;
        name.push_str(row)?;
        Ok(Case { name, fields })
    }
}

/// The field with these cells in their places.
fn field_with(alloc: Global, field: &Field, cells: &[&str]) -> Result<Field, AllocError> {
    let head = format!(in alloc; "{} {}", field.word, field.rest)?;
    let head = with_cells(alloc, head.as_str(), cells)?;
    let (word, rest) = head.as_str().split_once(" ").unwrap_or(("", ""));
    let mut made = Field::new(alloc, field.line, word, rest)?;
    made.lines = with_cells(alloc, field.lines.as_str(), cells)?;
    Ok(made)
}
