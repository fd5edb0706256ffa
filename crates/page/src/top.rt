//! The page before its style. Made by bench/page_source.py from crates/page/page/index.html: edit
//! that.

/// The page before its style.
pub const TOP: &[u8] = b"<!DOCTYPE html>\n\
<html lang=\"en\">\n\
<head>\n\
<meta charset=\"utf-8\">\n\
<meta name=\"viewport\" content=\"width=device-width, initial-scale=1\">\n\
<meta name=\"color-scheme\" content=\"light dark\">\n\
<title>whx12</title>\n\
<link rel=\"icon\" href=\"data:,\">\n\
<style>\n\
";
