// The text of a report.
ghost use Rattle.std.specs.Prelude.{◌≡◌, ◌≤◌, ◌++◌, length};
ghost use Rattle.text.specs.Drafts.{kept, text_of};
ghost use Rattle.report.specs.Lawful.{is_nil};
ghost use Rattle.report.specs.Written.{body, sections_text, written};

use crate::report::Report;
use layout::section::Section;
use layout::write::{are_left_out, put_section};
use text::draft::Draft;

const STATION_DIGITS: u8 = 5;

// The fields of the means and totals, the first of the first section.
const MEAN_FIELDS: usize = 12;

impl Report {
    // Whether there is nothing to report: no mean and no total.
    pub fn is_nil(&self) -> bool
        ensures { result ≡ is_nil self.now.first }
    {
        are_left_out(&self.first[..MEAN_FIELDS])
    }

    // The report's text.
    pub fn write(&self) -> Draft
        ensures text { text_of result ≡ written self.now }
        ensures room { length (written self.now) ≤ 281 }
    {
        let mut draft = Draft::new();
        draft.put_digits(STATION_DIGITS, self.station);
        self.put_body(&mut draft);
        draft.push_all(b"=\n");
        draft
    }

    fn put_body(&self, draft: &mut Draft)
        ensures text { text_of draft.new ≡ kept (text_of draft.old ++ body self.now) }
        ensures room { length (body self.now) ≤ 274 }
    {
        if self.is_nil() {
            return draft.push_all(b" NIL");
        }
        self.put_sections(draft)
    }

    fn put_sections(&self, draft: &mut Draft)
        ensures text { text_of draft.new ≡ kept (text_of draft.old ++ sections_text self.now) }
        ensures room { length (sections_text self.now) ≤ 274 }
    {
        put_section(draft, Section::First, &self.first);
        put_section(draft, Section::Second, &self.second);
        put_section(draft, Section::Third, &self.third);
        put_section(draft, Section::Fourth, &self.fourth)
    }
}
