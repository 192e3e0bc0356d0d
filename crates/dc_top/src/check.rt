// What `check` writes.
ghost use Rattle.std.specs.Prelude.{◌≡◌, ◌++◌, string_bytes, IfOk, OnOk};
ghost use Rattle.dc_top.specs.CheckText.{check_text, numbers_text};

use segment_bounds::window;
use segment_file::Segment;
use std::alloc::{AllocError, Global};
use std::fmt::Write;

#[tactic(auto, unfolding(crate::specs::CheckText::numbers_text))]
fn push_numbers(
    text: &mut String,
    slaves: usize,
    clocks: u16,
    lock_in: u32,
    mu: i128,
    window: u128,
) -> Result<(), AllocError>
    ensures { OnOk result (string_bytes text.new ≡ string_bytes text.old ++ numbers_text slaves clocks lock_in mu window) }
{
    writeln!(
        text,
        "legal slaves {slaves} clocks {clocks} lock_in {lock_in} mu {mu} window_fs {window}"
    )
}

/// The numbers of a segment, in a line.
pub(crate) fn check_line(alloc: Global, segment: &Segment) -> Result<String, AllocError>
    ensures { IfOk result (λ s. string_bytes s ≡ check_text segment.now) }
{
    let mut text = String::new(alloc);
    push_numbers(
        &mut text,
        segment.rows().len(),
        segment.clocks(),
        segment.lock_in(),
        segment.lock_step(),
        window(segment),
    )?;
    Ok(text)
}
