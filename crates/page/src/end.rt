//! The page after its script. Made by bench/page_source.py from crates/page/page/index.html: edit
//! that.

/// The page after its script.
pub const END: &[u8] = b"</script>\n\
</body>\n\
</html>\n\
";
