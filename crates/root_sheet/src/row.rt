// The line of a digit (docs/01-scope.md, "The root by hand").
ghost use Rattle.std.specs.Prelude.{◌^◌, ◌≤◌, ◌<◌};
ghost use Rattle.text.specs.Text.{Written};
ghost use Rattle.root_sheet.specs.RootSheet as Def;

use number::by_hand::{Sheet, sheet_after};
use text::Page;

// A number in hexadecimal, and a space.
fn put_cell(page: &mut Page, n: u32)
    ensures { Written page.old (Def.cell n) page.new }
{
    page.hex(n);
    page.bytes(b" ");
}

// What is tried at a place: what is left, counted in that place, and the trial.
fn put_tried(page: &mut Page, place: u32, left: u32, trial: u32)
    ensures { Written page.old (Def.tried place left trial) page.new }
{
    put_cell(page, place);
    put_cell(page, left);
    put_cell(page, trial);
    page.bytes(if left < trial { b"no   " } else { b"yes  " });
}

// The line of the digit at a place, between two sheets.
pub(crate) fn put_row(page: &mut Page, place: u32, s: Sheet, r: Sheet)
    requires { (place ≤ 2 ^ 24) × (s.twice < 2 ^ 26) × (s.left < 2 ^ 27) }
    ensures { Written page.old (Def.row place s r) page.new }
{
    put_tried(page, place, s.left << 1, s.twice + place);
    put_cell(page, r.left);
    page.hex(r.twice >> 1);
    page.bytes(b"\n");
}

// The lines of the 24 digits.
pub(crate) fn put_rows(page: &mut Page, x: f32)
    ensures { Written page.old (Def.rows x 24) page.new }
{
    for i in 0..24 {
        put_row(
            page,
            1 << (24 - i),
            sheet_after(x, i),
            sheet_after(x, i + 1),
        );
    }
}
