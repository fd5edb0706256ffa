//! Sections of texts: each begins with `@`, a word and what belongs to it in the rest of the line, and ends where the next one begins.

/// What stands after a section's word in its line, and what stands below that; nothing where the text has no such section.
pub fn section_of<'a>(case: &'a str, word: &str) -> (&'a str, &'a str) {
    for section in case.split('@') {
        let (head, body) = section.split_once('\n').unwrap_or((section, ""));
        let (first, rest) = head.split_once(' ').unwrap_or((head, ""));
        if first == word {
            return (rest, body);
        }
    }
    ("", "")
}
