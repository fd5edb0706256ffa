//! The script, part 14. Made by bench/page_source.py from crates/page/page/script/14-recount.js:
//! edit that.

/// The script, part 14.
pub const SCRIPT_14: &[u8] = b"async function recountView(view, who) {\n\
const head = await depositorHead(view, \"recount\", \"Recount\", who);\n\
if (!head) return;\n\
const stock = await stockOf(who);\n\
if (view.isCurrent()) recountLines(view, who, head, stock);\n\
}\n\
function recountLines(view, who, head, stock) {\n\
const plan = { kind: \"recount\", who, subject: \"\" };\n\
const said = el(\"p.hint\", { role: \"status\" });\n\
const lines = lineFields({\n\
plan, have: \"on hand\", digits: 9, told: (typed) => `${several(typed, \"lot\")} recounted`,\n\
fields: stock.map(({ item, lot, onHand, reserved, expiry }) => (\n\
{ item, lot, have: onHand, reserved, expiry })),\n\
look: (typed) => reviewRecount(plan, typed),\n\
});\n\
const narrow = () => {\n\
const text = lines.scan.value.trim().toUpperCase();\n\
let fit = 0;\n\
lines.show((name, typed) => (name.includes(text) && (fit += 1) <= MOST_FIELDS) || typed);\n\
said.textContent = fit > MOST_FIELDS\n\
? `The first ${MOST_FIELDS} of ${several(fit, \"lot\")}: type more to find others.`\n\
: `${several(fit, \"lot\")} fit.`;\n\
};\n\
lines.scan.addEventListener(\"input\", narrow);\n\
narrow();\n\
lines.box.append(said);\n\
show(view.main, head, lines.box, lines.bar);\n\
lines.scan.focus();\n\
}\n\
function reviewRecount(plan, all) {\n\
const typed = all.filter(({ isTyped }) => isTyped);\n\
if (typed.length === 0) return say(\"Give a quantity first\");\n\
const large = typed.filter(({ field: { have }, quantity }) =>\n\
quantity * 2 < have || quantity > have * 2).length;\n\
review({\n\
...plan, lines: givenBy(typed), heads: [\"On hand\", \"Found\"],\n\
differences: differencesOf(typed, ({ have, reserved = 0 }, quantity) => (\n\
quantity < reserved ? \"below reserved\" : quantity > have ? \"more\" : \"less\")),\n\
questions: [\n\
large && `${several(large, \"lot\")} more than halved or doubled: I have counted twice.`,\n\
],\n\
same: \"Nothing differs from what the book has.\",\n\
done: () => dispatchEvent(new HashChangeEvent(\"hashchange\")),\n\
});\n\
}\n\
";
