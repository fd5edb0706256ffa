//! Texts and files.
use std::fs;
use std::test::Fail;

/// The text of a file of `data/`. A line of the file that ends in `\` goes on in the next one: the
/// text has neither the `\` nor the end of the line. No text is empty, so that none can be played
/// in which there is nothing to play.
pub(crate) fn text_of(rt: &HostRuntime, file: &str) -> Result<String, Fail> {
    let text = fs::read_to_string(rt, file)?.replace(rt.alloc(), "\\\n", "")?;
    if text.is_empty() {
        return Err(Fail::new(format_args!("{file} is empty")));
    }
    Ok(text)
}

/// 943 of one line, BOLT of lot L1, from ZZ ACME under control number 1: 255 bytes.
pub(crate) fn advice(rt: &HostRuntime) -> Result<String, Fail> {
    text_of(rt, "interchanges/advice.x12")
}

/// Its answer under number 1 on 2025-03-04 at 09:15, and LF: 266 bytes.
pub(crate) fn answer(rt: &HostRuntime) -> Result<String, Fail> {
    text_of(rt, "interchanges/answer.x12")
}

/// Writes the advice into a file.
pub(crate) fn write_advice(rt: &HostRuntime, file: &str) -> Result<(), Fail> {
    fs::write(rt, file, advice(rt)?.as_str())?;
    Ok(())
}

/// Whether the file holds this text.
pub(crate) fn has_text(rt: &HostRuntime, file: &str, text: &str) -> Result<bool, Fail> {
    Ok(fs::read(rt, file)?.as_slice() == text.as_bytes())
}

/// Removes a file, if it is there.
pub(crate) fn remove(rt: &HostRuntime, file: &str) -> Result<(), Fail> {
    if fs::exists(rt, file)? {
        fs::remove_file(rt, file)?;
    }
    Ok(())
}

/// Removes the file of a book and its log, where they are left of what was played before.
pub(crate) fn remove_book(rt: &HostRuntime, book: &str, log: &str) -> Result<(), Fail> {
    remove(rt, book)?;
    remove(rt, log)
}

/// Lays a copy of the book that was left (left.rt), and of its log.
pub(crate) fn lay_left(rt: &HostRuntime) -> Result<(), Fail> {
    fs::copy(rt, "left.book", "case.book")?;
    fs::copy(rt, "left.book-wal", "case.book-wal")?;
    Ok(())
}
