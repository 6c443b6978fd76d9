//! The text of a summary.
ghost use Rattle.std.specs.Prelude.{◌≡◌, ◌++◌, IfOk, OnOk};
ghost use Rattle.ifmap_drill.specs.Summaries.{line, summary_text};

use crate::drill_counts::DrillCounts;
use ifmap_elem::Text;
use itoa::Buffer;
use std::alloc::{AllocError as NoMemory, Global};

/// The ten lines of a summary.
pub fn summary_text(alloc: Global, counts: &DrillCounts) -> Result<Text, NoMemory>
    ensures { IfOk result (λ text. text ≡ summary_text counts.now) }
{
    let mut text = Text::new(alloc);
    push_line(&mut text, "events", counts.events)?;
    push_line(&mut text, "sessions", counts.sessions)?;
    push_line(&mut text, "subscribes", counts.subscribes)?;
    push_line(&mut text, "publishes", counts.publishes)?;
    push_line(&mut text, "searches", counts.searches)?;
    push_line(&mut text, "polls", counts.polls)?;
    push_line(&mut text, "renewals", counts.renewals)?;
    push_line(&mut text, "held", counts.held)?;
    push_line(&mut text, "told", counts.told)?;
    push_line(&mut text, "links", counts.links)?;
    Ok(text)
}

// A name, a space, a number and a newline.
fn push_line(text: &mut Text, name: &str, count: u64) -> Result<(), NoMemory>
    ensures { OnOk result (text.new ≡ text.old ++ line name.now count) }
{
    text.push_str(name)?;
    text.push_str(" ")?;
    text.push_str(Buffer::new().format(count))?;
    text.push_str("\n")
}
