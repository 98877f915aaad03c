// The lines of a choice.
ghost use Rattle.norm.specs.Percentages.{Percentages};
ghost use Rattle.combination.specs.Choices.{lines_of};
ghost use Rattle.combination.specs.Computing.{AskedFor};
ghost use Rattle.writing.specs.Writing.{Writes};
ghost use Rattle.answer_lines.specs.Lines.{choice_text, sections_text};

use crate::sections::Section;
use combination::{Choice, Table};
use loads::Kind;
use norm::Role;
use writing::Writer;

// Sections, one after the other.
fn write_sections<E>(out: &mut Writer, sections: &[Section], choice: &Choice<E>)
    ensures { Writes out.old (sections_text sections.now (lines_of choice.now)) out.new }
{
    for section in sections {
        section.write(out, choice);
    }
}

// A choice, by the percentages that any norm has for the numbers that it takes.
pub(crate) fn write_choice<E>(out: &mut Writer, table: Table, choice: &Choice<E>)
    ensures { (norm : Percentages) → AskedFor norm (lines_of choice.now) table → Writes out.old (choice_text norm (lines_of choice.now)) out.new }
{
    let sections = [
        Section::Factors,
        Section::InRole(Kind::LongTerm, Role::Leading, table.long.leading),
        Section::InRole(Kind::LongTerm, Role::Second, table.long.second),
        Section::InRole(Kind::LongTerm, Role::Other, table.long.other),
        Section::InRole(Kind::ShortTerm, Role::Leading, table.short.leading),
        Section::InRole(Kind::ShortTerm, Role::Second, table.short.second),
        Section::InRole(Kind::ShortTerm, Role::Other, table.short.other),
        Section::Taken,
    ];
    write_sections(out, &sections, choice);
}
