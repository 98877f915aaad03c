// The loads of a column, read from lines `STOREY CLASS AREA Q` and said for each section.
ghost use Rattle.std.specs.Prelude.{Some};
ghost use Rattle.listing.specs.Columns.{Loaded, RowSet, SectionSaid, blank, loaded_of, section_text, storeys_of};

use column::Column;
use lines::fault::Fault;
use lines::fixed::Fixed8;
use lines::number_lines::NumberLines;
use refusals::Refusal;
use std::fmt;

// Sets the storey that the numbers of a line say; a refusal is given with the line.
fn set_row(column: &mut Column, row: [u64; 4], line: usize) -> Result<(), Fault>
    ensures { RowSet row line (storeys_of column.old) (storeys_of column.new) result }
{
    let [storey, class, area, load] = row;
    column
        .set(storey, class, area, load)
        .map_err(|refusal| Fault { refusal, line })
}

// The column that the lines of a text set, or the first fault.
pub fn read_column(text: &[u8]) -> Result<Column, Fault>
    ensures { Loaded 1 text.now blank (loaded_of result) }
{
    let mut column = Column::new();
    for (i, row) in NumberLines::<4>::new(text).enumerate() {
        set_row(&mut column, row?, i + 1)?;
    }
    Ok(column)
}

// What is said of the section below a storey: its loads in units of 0.00000001 N.
#[derive(Clone, Copy, Debug, PartialEq)]
pub struct Section {
    pub storey: u64,
    pub full: u64,
    pub reduced: u64,
}

impl Section {
    // The section of a column below a storey; refused where there is no such storey.
    pub fn of_column(column: &Column, storey: u64) -> Result<Section, Refusal>
        ensures { SectionSaid (storeys_of column.now) storey result }
    {
        let (full, reduced) = column.section(storey)?;
        Ok(Section {
            storey,
            full,
            reduced,
        })
    }
}

impl fmt::Display for Section {
    ghost output = { λ x. Some (section_text x) };

    fn fmt<W: fmt::Write>(&self, f: &mut fmt::Formatter<W>) -> fmt::Result {
        let storey = self.storey;
        let full = Fixed8(self.full);
        let reduced = Fixed8(self.reduced);
        write!(f, "BELOW {storey} FULL {full} REDUCED {reduced}")
    }
}

#[cfg(test)]
mod tests {
    use super::*;
    use std::test::Fail;

    fn check_fault(text: &[u8], refusal: Refusal, line: usize) -> Result<(), Fail> {
        match read_column(text) {
            Ok(_) => Err(Fail::new("a fault is missing")),
            Err(fault) if fault == (Fault { refusal, line }) => Ok(()),
            Err(_) => Err(Fail::new("another fault")),
        }
    }

    // an unset storey between set ones, one set again, and one of class 0
    #[test]
    fn sections_of_a_column(rt: HostRuntime) -> Result<(), Fail> {
        let Ok(column) = read_column(b"1 1 3600 9\n3 0 100 2000\n1 1 3600 1500\n") else {
            return Err(Fail::new("a column is refused"));
        };
        assert_eq!(rt; column.lowest(), 3);
        let text = Section::of_column(&column, 3)?.to_string(rt.alloc())?;
        assert_eq!(rt;
            text.as_str(),
            "BELOW 3 FULL 72600.00000000 REDUCED 45376.44000000"
        );
        Ok(())
    }

    #[test]
    fn the_first_faulty_line_counts() -> Result<(), Fail> {
        check_fault(
            b"40 2 1000000 50000\n41 1 1 1\nx\n",
            Refusal::ColumnValue,
            2,
        )?;
        check_fault(b"1 1 1 50001\n", Refusal::ColumnValue, 1)?;
        check_fault(b"1 1 1 0\n1 1 1 0 \n", Refusal::BodyLine, 2)?;
        check_fault(b"1 1 1 0", Refusal::BodyLine, 1)
    }
}
