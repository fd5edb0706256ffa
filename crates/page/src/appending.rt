//! Appends the page, piece by piece. Made by bench/page_source.py from crates/page/page: edit that.
ghost use Rattle.std.specs.Prelude.{◌≡◌, ◌++◌, OnOk};
ghost use Rattle.page.specs.Pages.{from_top, from_style, from_paper, from_middle, from_script_1, from_script_2, from_script_3, from_script_4, from_script_5, from_script_6, from_script_7, from_script_8, from_script_9, from_script_10, from_script_11, from_script_12, from_script_13, from_script_14, from_script_15, from_end};

use crate::end::END;
use crate::middle::MIDDLE;
use crate::paper::PAPER;
use crate::script_1::SCRIPT_1;
use crate::script_2::SCRIPT_2;
use crate::script_3::SCRIPT_3;
use crate::script_4::SCRIPT_4;
use crate::script_5::SCRIPT_5;
use crate::script_6::SCRIPT_6;
use crate::script_7::SCRIPT_7;
use crate::script_8::SCRIPT_8;
use crate::script_9::SCRIPT_9;
use crate::script_10::SCRIPT_10;
use crate::script_11::SCRIPT_11;
use crate::script_12::SCRIPT_12;
use crate::script_13::SCRIPT_13;
use crate::script_14::SCRIPT_14;
use crate::script_15::SCRIPT_15;
use crate::style::STYLE;
use crate::top::TOP;
use std::alloc::AllocError;

// Appends the page from END on.
#[tactic(auto, unfolding(crate::specs::Pages::from_end))]
fn append_from_end(out: &mut Vec<u8>) -> Result<(), AllocError>
    ensures { OnOk result (out.new.items ≡ out.old.items ++ from_end) }
{
    out.extend_from_slice(END)?;
    Ok(())
}

// Appends the page from SCRIPT_15 on.
#[tactic(auto, unfolding(crate::specs::Pages::from_script_15))]
fn append_from_script_15(out: &mut Vec<u8>) -> Result<(), AllocError>
    ensures { OnOk result (out.new.items ≡ out.old.items ++ from_script_15) }
{
    out.extend_from_slice(SCRIPT_15)?;
    append_from_end(out)
}

// Appends the page from SCRIPT_14 on.
#[tactic(auto, unfolding(crate::specs::Pages::from_script_14))]
fn append_from_script_14(out: &mut Vec<u8>) -> Result<(), AllocError>
    ensures { OnOk result (out.new.items ≡ out.old.items ++ from_script_14) }
{
    out.extend_from_slice(SCRIPT_14)?;
    append_from_script_15(out)
}

// Appends the page from SCRIPT_13 on.
#[tactic(auto, unfolding(crate::specs::Pages::from_script_13))]
fn append_from_script_13(out: &mut Vec<u8>) -> Result<(), AllocError>
    ensures { OnOk result (out.new.items ≡ out.old.items ++ from_script_13) }
{
    out.extend_from_slice(SCRIPT_13)?;
    append_from_script_14(out)
}

// Appends the page from SCRIPT_12 on.
#[tactic(auto, unfolding(crate::specs::Pages::from_script_12))]
fn append_from_script_12(out: &mut Vec<u8>) -> Result<(), AllocError>
    ensures { OnOk result (out.new.items ≡ out.old.items ++ from_script_12) }
{
    out.extend_from_slice(SCRIPT_12)?;
    append_from_script_13(out)
}

// Appends the page from SCRIPT_11 on.
#[tactic(auto, unfolding(crate::specs::Pages::from_script_11))]
fn append_from_script_11(out: &mut Vec<u8>) -> Result<(), AllocError>
    ensures { OnOk result (out.new.items ≡ out.old.items ++ from_script_11) }
{
    out.extend_from_slice(SCRIPT_11)?;
    append_from_script_12(out)
}

// Appends the page from SCRIPT_10 on.
#[tactic(auto, unfolding(crate::specs::Pages::from_script_10))]
fn append_from_script_10(out: &mut Vec<u8>) -> Result<(), AllocError>
    ensures { OnOk result (out.new.items ≡ out.old.items ++ from_script_10) }
{
    out.extend_from_slice(SCRIPT_10)?;
    append_from_script_11(out)
}

// Appends the page from SCRIPT_9 on.
#[tactic(auto, unfolding(crate::specs::Pages::from_script_9))]
fn append_from_script_9(out: &mut Vec<u8>) -> Result<(), AllocError>
    ensures { OnOk result (out.new.items ≡ out.old.items ++ from_script_9) }
{
    out.extend_from_slice(SCRIPT_9)?;
    append_from_script_10(out)
}

// Appends the page from SCRIPT_8 on.
#[tactic(auto, unfolding(crate::specs::Pages::from_script_8))]
fn append_from_script_8(out: &mut Vec<u8>) -> Result<(), AllocError>
    ensures { OnOk result (out.new.items ≡ out.old.items ++ from_script_8) }
{
    out.extend_from_slice(SCRIPT_8)?;
    append_from_script_9(out)
}

// Appends the page from SCRIPT_7 on.
#[tactic(auto, unfolding(crate::specs::Pages::from_script_7))]
fn append_from_script_7(out: &mut Vec<u8>) -> Result<(), AllocError>
    ensures { OnOk result (out.new.items ≡ out.old.items ++ from_script_7) }
{
    out.extend_from_slice(SCRIPT_7)?;
    append_from_script_8(out)
}

// Appends the page from SCRIPT_6 on.
#[tactic(auto, unfolding(crate::specs::Pages::from_script_6))]
fn append_from_script_6(out: &mut Vec<u8>) -> Result<(), AllocError>
    ensures { OnOk result (out.new.items ≡ out.old.items ++ from_script_6) }
{
    out.extend_from_slice(SCRIPT_6)?;
    append_from_script_7(out)
}

// Appends the page from SCRIPT_5 on.
#[tactic(auto, unfolding(crate::specs::Pages::from_script_5))]
fn append_from_script_5(out: &mut Vec<u8>) -> Result<(), AllocError>
    ensures { OnOk result (out.new.items ≡ out.old.items ++ from_script_5) }
{
    out.extend_from_slice(SCRIPT_5)?;
    append_from_script_6(out)
}

// Appends the page from SCRIPT_4 on.
#[tactic(auto, unfolding(crate::specs::Pages::from_script_4))]
fn append_from_script_4(out: &mut Vec<u8>) -> Result<(), AllocError>
    ensures { OnOk result (out.new.items ≡ out.old.items ++ from_script_4) }
{
    out.extend_from_slice(SCRIPT_4)?;
    append_from_script_5(out)
}

// Appends the page from SCRIPT_3 on.
#[tactic(auto, unfolding(crate::specs::Pages::from_script_3))]
fn append_from_script_3(out: &mut Vec<u8>) -> Result<(), AllocError>
    ensures { OnOk result (out.new.items ≡ out.old.items ++ from_script_3) }
{
    out.extend_from_slice(SCRIPT_3)?;
    append_from_script_4(out)
}

// Appends the page from SCRIPT_2 on.
#[tactic(auto, unfolding(crate::specs::Pages::from_script_2))]
fn append_from_script_2(out: &mut Vec<u8>) -> Result<(), AllocError>
    ensures { OnOk result (out.new.items ≡ out.old.items ++ from_script_2) }
{
    out.extend_from_slice(SCRIPT_2)?;
    append_from_script_3(out)
}

// Appends the page from SCRIPT_1 on.
#[tactic(auto, unfolding(crate::specs::Pages::from_script_1))]
fn append_from_script_1(out: &mut Vec<u8>) -> Result<(), AllocError>
    ensures { OnOk result (out.new.items ≡ out.old.items ++ from_script_1) }
{
    out.extend_from_slice(SCRIPT_1)?;
    append_from_script_2(out)
}

// Appends the page from MIDDLE on.
#[tactic(auto, unfolding(crate::specs::Pages::from_middle))]
fn append_from_middle(out: &mut Vec<u8>) -> Result<(), AllocError>
    ensures { OnOk result (out.new.items ≡ out.old.items ++ from_middle) }
{
    out.extend_from_slice(MIDDLE)?;
    append_from_script_1(out)
}

// Appends the page from PAPER on.
#[tactic(auto, unfolding(crate::specs::Pages::from_paper))]
fn append_from_paper(out: &mut Vec<u8>) -> Result<(), AllocError>
    ensures { OnOk result (out.new.items ≡ out.old.items ++ from_paper) }
{
    out.extend_from_slice(PAPER)?;
    append_from_middle(out)
}

// Appends the page from STYLE on.
#[tactic(auto, unfolding(crate::specs::Pages::from_style))]
fn append_from_style(out: &mut Vec<u8>) -> Result<(), AllocError>
    ensures { OnOk result (out.new.items ≡ out.old.items ++ from_style) }
{
    out.extend_from_slice(STYLE)?;
    append_from_paper(out)
}

/// Appends the page.
#[tactic(auto, unfolding(crate::specs::Pages::from_top))]
pub(crate) fn append_from_top(out: &mut Vec<u8>) -> Result<(), AllocError>
    ensures { OnOk result (out.new.items ≡ out.old.items ++ from_top) }
{
    out.extend_from_slice(TOP)?;
    append_from_style(out)
}
