// The lines of a display: for each group `group N`, its journeys shown and `window W`, or `refused N`.
ghost use Rattle.std.specs.Prelude.{◌≡◌};

use display::part::Shown;
use display::{Display, deal, part_of};
use groups::{Group, group_at};
use prefix::first;
use refusal::Refusal;
use stdio::load_lines::{Figures, refused};
use stdio::out::Out;

// A group whose load file is refused.
pub fn file_refused(out: &mut Out, number: u8, r: Refusal)
    ensures { out.new.len ≡ 0 }
{
    writeln!(out, "group {number}");
    refused(out, r);
    out.flush();
}

// A group that is given: what it shows, or why it shows nothing.
fn part(out: &mut Out, number: u8, group: &Group, shown: Result<Shown, Refusal>) {
    writeln!(out, "group {number}");
    match shown {
        Ok(shown) => {
            for j in first(&group.journeys, shown.count) {
                writeln!(out, "journey {}", Figures(j));
            }
            writeln!(out, "window {}", shown.window);
        }
        Err(r) => refused(out, r),
    }
}

fn parts(out: &mut Out, groups: &[Group], d: Display) {
    for number in 0u8..4 {
        if let Some(group) = group_at(groups, number)
            && let Some(shown) = part_of(d, number)
        {
            part(out, number, group, shown);
        }
    }
}

// The display of the groups; or the refusal of the whole.
pub fn display(out: &mut Out, groups: &[Group])
    ensures { out.new.len ≡ 0 }
{
    let d = deal(groups);
    match d {
        Ok(_) => parts(out, groups, d),
        Err(r) => refused(out, r),
    }
    out.flush();
}
