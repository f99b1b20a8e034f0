// The records of displays: a load is set aside for a group, a display is dealt, its groups are asked.
use crate::printed::found;
use crate::record_fields::{Fields, Malformed};
use display::{Display, best_of_group, deal, next_of_group, part_of};
use groups::{Groups, group_at, group_of};
use load::Load;
use stdio::load_lines::refused;
use stdio::out::Out;

// The groups set aside for the next display, and the last display with its groups.
#[derive(Clone, Copy, Debug, PartialEq, Eq)]
pub struct Board {
    aside: Groups,
    shown: Groups,
    display: Display,
}

// Nothing set aside, and an empty display. Not derived, since an empty display is dealt.
impl Default for Board {
    fn default() -> Self {
        let none = Groups::default();
        Board {
            aside: none,
            shown: none,
            display: deal(none.given()),
        }
    }
}

impl Board {
    // Output, load and fields one by one, as in `query_records`.
    pub fn set_aside(
        &mut self,
        out: &mut Out,
        load: Load,
        mut fields: Fields<'_>,
    ) -> Result<(), Malformed> {
        let number = fields.u8()?;
        fields.end()?;
        if !self.aside.add(group_of(number, load)) {
            return Err(Malformed);
        }
        writeln!(out, "aside");
        Ok(())
    }

    // A display of the groups set aside; nothing is set aside after it.
    pub fn deal(&mut self, out: &mut Out, fields: Fields<'_>) -> Result<(), Malformed> {
        fields.end()?;
        self.shown = self.aside;
        self.aside = Groups::default();
        self.display = deal(self.shown.given());
        match self.display {
            Ok(_) => line(out, self.display),
            Err(r) => refused(out, r),
        }
        Ok(())
    }

    // Best of a group at a second.
    pub fn best(&self, out: &mut Out, mut fields: Fields<'_>) -> Result<(), Malformed> {
        let number = fields.u8()?;
        let second = fields.i64()?;
        fields.end()?;
        let part = part_of(self.display, number);
        let group = group_at(self.shown.given(), number);
        found(
            out,
            group.and_then(|group| best_of_group(group, part, second)),
        );
        Ok(())
    }

    // Next after a leave, of a group at a second.
    pub fn next(&self, out: &mut Out, mut fields: Fields<'_>) -> Result<(), Malformed> {
        let number = fields.u8()?;
        let second = fields.i64()?;
        let mut missed = profile::no_journey();
        missed.leave = fields.u16()?;
        fields.end()?;
        let part = part_of(self.display, number);
        let group = group_at(self.shown.given(), number);
        found(
            out,
            group.and_then(|group| next_of_group(group, part, second, missed)),
        );
        Ok(())
    }
}

// What each group has that is given: a window and so many journeys, or a refusal; ` ; ` stands between two groups.
fn line(out: &mut Out, display: Display) {
    let mut between = "";
    for number in 0u8..4 {
        let Some(part) = part_of(display, number) else {
            continue;
        };
        match part {
            Ok(shown) => write!(
                out,
                "{between}group {number} window {} shown {}",
                shown.window, shown.count
            ),
            Err(r) => write!(out, "{between}group {number} refused {}", u8::from(r)),
        }
        between = " ; ";
    }
    writeln!(out);
}
