//! The script, part 15. Made by bench/page_source.py from crates/page/page/script/15-main.js: edit
//! that.

/// The script, part 15.
pub const SCRIPT_15: &[u8] = b"const VIEWS = {\n\
today: todayView, depositor: depositorView, receiving: receivingView, picking: pickingView,\n\
recount: recountView,\n\
};\n\
const ASK_EVERY = 20000;\n\
let shownView = 0;\n\
function whereTo() {\n\
const [name, who = \"\", number = \"\"] = location.hash.slice(1).split(\"/\");\n\
return Object.hasOwn(VIEWS, name) ? { name, who, number }\n\
: { name: \"today\", who: \"\", number: \"\" };\n\
}\n\
function markTab(name) {\n\
for (const tab of document.querySelectorAll(\".tabs a\")) {\n\
const isIt = tab.getAttribute(\"data-view\") === name;\n\
if (isIt) tab.setAttribute(\"aria-current\", \"page\");\n\
else tab.removeAttribute(\"aria-current\");\n\
}\n\
document.title = `${name[0].toUpperCase()}${name.slice(1)} \\u00b7 whx12`;\n\
}\n\
async function showView() {\n\
const mine = ++shownView;\n\
const main = byId(\"view\");\n\
const { name, who, number } = whereTo();\n\
markTab(name);\n\
show(byId(\"sheet\"));\n\
main.setAttribute(\"aria-busy\", \"true\");\n\
if (main.dataset.view !== name) show(main, hint(\"Loading ..\"));\n\
main.dataset.view = name;\n\
try {\n\
await VIEWS[name]({ main, isCurrent: () => mine === shownView }, who, number);\n\
} catch (error) {\n\
if (mine !== shownView) return;\n\
show(main, el(\"h1\", number || who || name), errorNote(error),\n\
el(\"p.row\", button(\"Try again\", () => void showView()),\n\
linkTo([name], \"Back to the list\", \"button\")));\n\
}\n\
if (mine === shownView) main.setAttribute(\"aria-busy\", \"false\");\n\
}\n\
async function askHealth() {\n\
if (!document.hidden) await ask(\"/health\", {}, WAIT_TO_READ).catch(() => {});\n\
setTimeout(() => void askHealth(), ASK_EVERY);\n\
}\n\
addEventListener(\"hashchange\", () => void showView());\n\
document.querySelector(\".skip\")?.addEventListener(\"click\", (event) => {\n\
event.preventDefault();\n\
byId(\"view\").focus();\n\
});\n\
startActs();\n\
void showView();\n\
void askHealth();\n\
";
