ghost use Rattle.std.specs.Prelude.{◌≡◌, ◌==◌, ◌++◌, OnOk, OnErr, flat_map, List, true, Ok, Err, IfOk, IfErr, IsPermutation, length, map};
ghost use Rattle.std.specs.List.{list_any};
ghost use Rattle.std.specs.List.Sorted.{IsSorted};
ghost use Rattle.definitions.specs.Rules.{Today};
ghost use Rattle.definitions.specs.Clerk as clerk;
ghost use Rattle.definitions.specs.Limits as limits;
ghost use Rattle.definitions.specs.Means as meant;
ghost use Rattle.definitions.specs.Register.{line_text};
ghost use Rattle.definitions.specs.declared.sheet_kind.SheetKind.TheVariants.{Recount as RecountSheet};
ghost use Rattle.sheets.specs.Pairs.{pair_cmp};
ghost use Rattle.sheets.specs.Misfits.{misfit_of};

use crate::lines::Line;
use crate::writing::append_lines;
use definitions::{MOST_LINES, MOST_LINES_TWO, Refusal, Rules, SheetKind};
use std::alloc::{AllocError, Global};
use std::marker::Model;

/// A sheet of a clerk's act: at most 99 lines under rules 1 and 999 under rules 2, of identifiers
/// and quantities within their limits, by item and then lot bytes, each pair once.
#[derive(Drop)]
pub struct Sheet {
    lines: Vec<Line>,
}

impl Model for Sheet {
    ghost Value = { List meant.Line };

    ghost view = { λ s. map clerk.line_of s.lines.items };

    ghost invariant = { λ s. clerk.is_sheet Today RecountSheet
        (map clerk.line_of s.lines.items) ≡ true };
}

fn has_bad_line(kind: SheetKind, lines: &[Line]) -> bool
    ensures { result ≡ list_any (clerk.is_bad_line kind) lines.now }
{
    lines.iter().any(|line| line.is_bad(kind))
}

fn has_too_much(kind: SheetKind, lines: &[Line], rules: Rules) -> bool
    ensures { result ≡ list_any (clerk.is_too_much rules kind) lines.now }
{
    lines.iter().any(|line| line.is_too_much(kind, rules))
}

// The most lines of a sheet.
fn most_lines(rules: Rules) -> u16
    ensures { result ≡ limits.most_lines rules }
{
    match rules {
        Rules::One => MOST_LINES,
        Rules::Two => MOST_LINES_TWO,
    }
}

// The first refusal but for a repeated pair, each over all lines.
fn misfit(kind: SheetKind, lines: &[Line], rules: Rules) -> Option<Refusal>
    ensures { result ≡ misfit_of rules kind lines.now }
{
    if lines.len() > usize::from(most_lines(rules)) {
        return Some(Refusal::TooManyLines);
    }
    if has_bad_line(kind, lines) {
        return Some(Refusal::BadText);
    }
    if has_too_much(kind, lines, rules) {
        return Some(Refusal::TooMuch);
    }
    None
}

// The same lines by item and then lot.
fn in_order(mut lines: Vec<Line>) -> Vec<Line>
    ensures same { IsPermutation lines.items result.items }
    ensures sorted { IsSorted pair_cmp result.items }
{
    lines.sort_unstable_by(|line, other| line.compare_pair(other));
    lines
}

// Whether each line stands before the next, so that no pair stands twice.
fn ascends(lines: &[Line]) -> bool
    ensures { result ≡ clerk.is_ascending (map clerk.line_of lines.now) }
{
    lines.is_sorted_by(|line, next| line.compare_pair(next).is_lt())
}

impl Sheet {
    /// The sheet of these lines under the rules, in order. It takes no memory. The error is the
    /// first refusal that holds: 33 more lines than the rules allow, 99 or 999; 32 an item, a lot
    /// or a quantity that can't be read, or a pick of 0; 30 a quantity of more than nine digits or
    /// over its limit; 31 a pair of item and lot twice.
    pub fn new(kind: SheetKind, lines: Vec<Line>, rules: Rules) -> Result<Sheet, Refusal>
        ensures ok { IfOk result
            (λ sheet. clerk.sheet_of rules kind lines.items ≡ Ok sheet) }
        ensures kind { IfOk result (λ sheet. clerk.is_sheet rules kind sheet ≡ true) }
        ensures err { IfErr result
            (λ refusal. clerk.sheet_of rules kind lines.items ≡ Err refusal) }
    {
        if let Some(refusal) = misfit(kind, &lines, rules) {
            return Err(refusal);
        }
        let lines = in_order(lines);
        if !ascends(&lines) {
            return Err(Refusal::RepeatedLine);
        }
        Ok(Sheet { lines })
    }

    /// How many lines it has.
    pub fn len(&self) -> usize
        ensures { result ≡ length self.now }
    {
        self.lines.len()
    }

    /// Whether it has no line.
    pub fn is_empty(&self) -> bool
        ensures { result ≡ (length self.now == 0) }
    {
        self.lines.is_empty()
    }

    /// Its lines, by item and then lot, with quantities as numbers. The one error is want of
    /// memory.
    pub fn lines(&self, alloc: Global) -> Result<Vec<sets_in::Goods>, AllocError>
        ensures lines { IfOk result (λ v. v.items ≡ self.now) }
        ensures sheet { clerk.is_sheet Today RecountSheet self.now ≡ true }
    {
        let mut lines = Vec::new(alloc);
        for line in &self.lines {
            lines.push(line.typed(alloc)?)?;
        }
        Ok(lines)
    }

    /// Appends the lines of an act's canonical text: ITEM,LOT,QUANTITY and LF for each, without
    /// leading zeros. After an error, AllocError, the vector holds what it held.
    pub fn write_lines(&self, out: &mut Vec<u8>) -> Result<(), AllocError>
        ensures ok { OnOk result (out.new.items ≡ out.old.items ++ flat_map line_text self.now) }
        ensures err { OnErr result (out.new.items ≡ out.old.items) }
    {
        let start = out.len();
        match append_lines(out, &self.lines) {
            Ok(()) => Ok(()),
            Err(e) => {
                out.truncate(start);
                Err(e)
            }
        }
    }
}
