//! The script, part 5. Made by bench/page_source.py from crates/page/page/script/05-review.js: edit
//! that.

/// The script, part 5.
pub const SCRIPT_5: &[u8] =
    b"const GRAVE = [\"missing\", \"not announced\", \"not picked\", \"below reserved\"];\n\
function hasClerk() {\n\
if (clerk() !== \"\") return true;\n\
const field = byId(\"clerk\");\n\
field.classList.add(\"missing\");\n\
byId(\"clerk-hint\").classList.remove(\"unseen\");\n\
field.focus();\n\
return false;\n\
}\n\
function review(plan) {\n\
if (!hasClerk()) return;\n\
const dialog = byId(\"review\");\n\
const ticket = newTicket();\n\
const body = sheetOf(plan.lines);\n\
const open = openActLike(plan);\n\
const tried = el(\"div.tried\");\n\
const send = button(`Send the ${plan.kind}`, () => sendPlan(plan, ticket, body), {\n\
class: \"main\", disabled: true,\n\
});\n\
const boxes = plan.questions.filter(Boolean).map((words) => el(\"label.question\",\n\
el(\"input\", { type: \"checkbox\", on: { change: () => admit() } }), el(\"span\", words)));\n\
let isGood = false;\n\
const admit = () => {\n\
send.disabled = !isGood || boxes.some((box) => !box.querySelector(\"input\").checked);\n\
};\n\
show(dialog, reviewHead(plan, ticket), differenceTable(plan), boxes,\n\
open ? note(\"bad\", `Ticket ${open.ticket} of the same has no answer yet: wait for it.`) : \
tried,\n\
el(\"p.row.end\", button(\"Back\", () => dialog.close()), send));\n\
dialog.showModal();\n\
dialog.querySelector(\"h2\").focus();\n\
if (open) return;\n\
void tryPlan(plan, ticket, body, tried).then((would) => {\n\
isGood = would;\n\
admit();\n\
});\n\
}\n\
function reviewHead(plan, ticket) {\n\
const pieces = total(plan.lines, (line) => line.quantity);\n\
const size = `${several(plan.lines.length, \"line\")}, ${several(pieces, \"piece\")}`;\n\
return el(\"header\",\n\
el(\"h2\", { id: \"review-title\", tabindex: \"-1\" }, actWords(plan)),\n\
el(\"p.ticket\", \"Ticket \", el(\"code\", ticket), ` \\u00b7 ${size}`));\n\
}\n\
function differenceTable({ heads, differences, same }) {\n\
if (differences.length === 0) return note(\"good\", same);\n\
const rows = differences.map(({ kind, item, lot, from, to }) => [\n\
[el(\"b\", item), ` ${lot} `, chip(GRAVE.includes(kind) ? \"bad\" : \"warn\", kind)], from, to]);\n\
return el(\"div.wide\", plainTable([\"What differs\", ...heads], rows, [1, 2]));\n\
}\n\
async function tryPlan(plan, ticket, body, place) {\n\
show(place, hint(\"Asking the server what it would answer ..\"));\n\
try {\n\
const { status, text } = await post(actPath({ ...plan, ticket }, \"try\"), body);\n\
if (isDocument({ status, text })) {\n\
const words = documentWords(text).title;\n\
show(place, note(\"good\", el(\"strong\", \"The server would take it: \"), words));\n\
return true;\n\
}\n\
show(place, refusalNote(status, text));\n\
} catch (error) {\n\
show(place, errorNote(error));\n\
}\n\
return false;\n\
}\n\
function sendPlan(plan, ticket, body) {\n\
const act = {\n\
ticket, kind: plan.kind, who: plan.who, subject: plan.subject, body, made: stampOf(new Date()),\n\
order: Date.now(), tries: 0, state: \"open\", isTold: true, fault: \"\", status: 0, text: \"\",\n\
answered: \"\",\n\
};\n\
const place = el(\"div\", { role: \"status\" }, el(\"p\", \"Sending ..\"));\n\
const close = button(\"Close\", () => byId(\"review\").close());\n\
byId(\"review\").addEventListener(\"close\", () => {\n\
if (waiters.delete(ticket)) showWaiting();\n\
}, { once: true });\n\
show(byId(\"review\"), reviewHead(plan, ticket), place, el(\"p.row.end\", close));\n\
byId(\"review\").querySelector(\"h2\").focus();\n\
waiters.set(ticket, (answered) => showOutcome(plan, answered));\n\
void give(act).then(() => {\n\
if (act.state === \"open\") show(place, waitingNote(act, \"\"));\n\
});\n\
}\n\
function showOutcome(plan, act) {\n\
const dialog = byId(\"review\");\n\
const isDone = act.status === 200;\n\
const close = () => {\n\
dialog.close();\n\
if (isDone) plan.done();\n\
};\n\
const told = isDone\n\
? [note(\"good\", el(\"strong\", \"Done. \"), triesWords(act)), documentShown(act.text)]\n\
: [refusalNote(act.status, act.text), triesWords(act)];\n\
const words = isDone ? \"Done\" : \"Back to the lines\";\n\
const after = button(words, close, { class: \"main\" });\n\
show(dialog, reviewHead(plan, act.ticket), told, el(\"p.row.end\", after));\n\
dialog.querySelector(\"h2\").focus();\n\
}\n\
";
