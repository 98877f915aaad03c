// The records of a choice that are shown together.
ghost use Rattle.std.specs.Prelude.{◌≡◌, [], ◌∷◌, ◌++◌, if◌then◌else◌, decimal};
ghost use Rattle.combination.specs.Choices.{line_of, lines_of};
ghost use Rattle.loads.specs.Letters.{letter_of};
ghost use Rattle.writing.specs.Writing.{Writes};
ghost use Rattle.lines.specs.Reading.{spaced};
ghost use Rattle.answer_lines.specs.Lines.{details, line_text, section_text, shows as is_shown_line};

use combination::{Choice, Picked};
use loads::{Kind, Record};
use norm::Role;
use writing::Writer;

#[derive(Clone, Copy)]
pub(crate) enum Section {
    // the permanent loads, by their factors
    Factors,
    // the loads of a kind in a role, at a percentage
    InRole(Kind, Role, u64),
    // the special load that is taken
    Taken,
}

impl Section {
    // Whether it shows a record.
    fn shows<E>(self, line: &Picked<E>) -> bool
        ensures { result ≡ is_shown_line self (line_of line.now) }
    {
        let kind = line.of.kind;
        match self {
            Section::Factors => kind == Kind::Permanent,
            Section::InRole(of, role, _) => of == kind && line.pick.role() == Some(role),
            Section::Taken => kind == Kind::Special && line.pick.is_taken(),
        }
    }

    // What it shows of a record besides its number and kind, each after one blank.
    fn write_details<E>(self, out: &mut Writer, line: &Picked<E>)
        ensures { Writes out.old (spaced decimal (details self (line_of line.now)) []) out.new }
    {
        match self {
            Section::Factors => out.field(line.pick.factor(&line.of.load)),
            Section::InRole(_, role, percent) => {
                out.field(role.number());
                out.field(percent);
            }
            Section::Taken => {}
        }
    }

    // The line of a record.
    fn write_line<E>(self, out: &mut Writer, line: &Picked<E>)
        ensures { Writes out.old (line_text self (line_of line.now)) out.new }
    {
        start(out, line.of);
        self.write_details(out, line);
        out.put(b'\n');
    }

    // The same, where it shows the record.
    fn write_if_shown<E>(self, out: &mut Writer, line: &Picked<E>)
        ensures { Writes out.old (if is_shown_line self (line_of line.now) then line_text self (line_of line.now) else []) out.new }
    {
        if self.shows(line) {
            self.write_line(out, line);
        }
    }

    // The records that it shows, in their order.
    pub(crate) fn write<E>(self, out: &mut Writer, choice: &Choice<E>)
        ensures { Writes out.old (section_text self (lines_of choice.now)) out.new }
    {
        for (of, pick) in choice.records.iter().zip(choice.picks) {
            self.write_if_shown(out, &Picked { of, pick: *pick });
        }
    }
}

// The number of a record, and the letter of its kind after one blank.
fn start<E>(out: &mut Writer, of: &Record<E>)
    ensures { Writes out.old (decimal of.now.number ++ (32 ∷ (letter_of of.now.kind ∷ []))) out.new }
{
    out.number(of.number);
    out.put(b' ');
    out.put(of.kind.letter() as u8);
}
