//! Lines of elements.
use ss_elem::{Element, LineBuf, line};
use std::alloc::Global;
use std::test::Fail;

/// The lines of a list.
pub(crate) fn lines_of(alloc: Global, list: &[Element]) -> Result<Vec<u8>, Fail> {
    let mut lines = Vec::new(alloc);
    let mut buffer = LineBuf::new();
    for x in list {
        line(x, &mut buffer);
        lines.extend_from_slice(buffer.as_slice())?;
    }
    Ok(lines)
}
