//! Statements of a text, run.
use sqlite::types::ValueRef;
use sqlite::{Alter, Connection, Error};

/// Runs the statements of a text.
pub(crate) fn lay<S: Alter + Drop>(conn: &mut Connection<S>, text: &str) -> Result<(), Error> {
    for part in text.split('@') {
        let (sql, bytes) = part.split_once('\n').unwrap_or((part, ""));
        if bytes.is_empty() {
            conn.execute_batch(sql)?;
        } else {
            conn.execute(sql, &[ValueRef::Blob(bytes.as_bytes())])?;
        }
    }
    Ok(())
}
