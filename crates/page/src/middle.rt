//! The page between its style and its script. Made by bench/page_source.py from
//! crates/page/page/index.html: edit that.

/// The page between its style and its script.
pub const MIDDLE: &[u8] = b"</style>\n\
</head>\n\
<body>\n\
<a class=\"skip\" href=\"#view\">Skip to the view</a>\n\
<header class=\"top\">\n\
<p class=\"brand\"><svg viewBox=\"0 0 24 24\" aria-hidden=\"true\"><path d=\"M2 10 12 4l10\n\
6v10h-3v-8H5v8H2zM7 14h4v2H7zm0 4h4v2H7zm6-4h4v2h-4zm0 4h4v2h-4z\"></path></svg>whx12</p>\n\
<nav class=\"tabs\" aria-label=\"Views\">\n\
<a href=\"#today\" data-view=\"today\">Today</a>\n\
<a href=\"#depositor\" data-view=\"depositor\">Depositor</a>\n\
<a href=\"#receiving\" data-view=\"receiving\">Receiving</a>\n\
<a href=\"#picking\" data-view=\"picking\">Picking</a>\n\
<a href=\"#recount\" data-view=\"recount\">Recount</a>\n\
</nav>\n\
<div class=\"desk\">\n\
<p id=\"reach\" class=\"reach\" role=\"status\"></p>\n\
<label class=\"clerk\">Clerk <input id=\"clerk\" maxlength=\"4\" size=\"4\" autocomplete=\"off\"\n\
autocapitalize=\"characters\" spellcheck=\"false\" placeholder=\"AB\"\n\
aria-describedby=\"clerk-hint\"></label>\n\
<span id=\"clerk-hint\" class=\"unseen\">Your initials: up to four letters or digits</span>\n\
</div>\n\
</header>\n\
<section id=\"waiting\" class=\"waiting\" aria-label=\"Acts without an answer\" hidden></section>\n\
<main id=\"view\" tabindex=\"-1\" aria-busy=\"true\">\n\
<noscript><p class=\"note bad\">This page needs JavaScript.</p></noscript>\n\
</main>\n\
<dialog id=\"review\" class=\"review\" aria-labelledby=\"review-title\"></dialog>\n\
<div id=\"sheet\" class=\"sheet\"></div>\n\
<p id=\"said\" class=\"unseen\" role=\"status\" aria-live=\"polite\"></p>\n\
<script>\n\
";
