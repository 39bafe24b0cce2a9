//! Columns for tests.
use hibitset::{Index, MAX_EID};
use hibitset_store::Column;
use std::alloc::{AllocError, Global};

/// The column of these indices and values, those out of range left out.
pub fn column_of(alloc: Global, rows: &[(Index, u32)]) -> Result<Column<u32>, AllocError> {
    let mut column = Column::new(alloc);
    for (id, value) in rows {
        if (*id as usize) < MAX_EID && column.insert(*id, *value).is_err() {
            return Err(AllocError);
        }
    }
    Ok(column)
}
