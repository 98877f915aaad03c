// Writing the numbers of a load.
ghost use Rattle.std.specs.Prelude.{◌≡◌, []};
ghost use Rattle.lines.specs.Reading.{spaced};
ghost use Rattle.load_lines.specs.Loads.{load_text, load_numbers};
ghost use Rattle.writing.specs.Writing.{Writes};

use effect::Written;
use loads::Load;
use writing::{Style, Whole, Writer};

// The numbers before the effect, in their order.
// Kept: a function, not `From`, since neither `Load` nor the array is a type of this crate; a line is read by the names of the same six fields.
pub fn numbers_of<E>(load: &Load<E>) -> [u64; 6]
    ensures { result ≡ load_numbers load.now }
{
    [
        load.group,
        load.upper,
        load.lower,
        load.class,
        load.area,
        load.storeys,
    ]
}

// The numbers of an effect, each after one blank.
pub fn write_effect<E: Written, S: Style>(out: &mut Writer, effect: E)
    ensures { Writes out.old (spaced S.shown (E.Written.writes.numbers effect) []) out.new }
{
    // Kept: a value gives its numbers by place, since its type says how many there are, and no slice of them stands in memory.
    for place in 0..E::count() {
        out.put(b' ');
        S::show(out, effect.number(place));
    }
}

// The numbers of a load and of its effect, each after one blank.
pub fn write_load<E: Written>(out: &mut Writer, load: &Load<E>)
    ensures { Writes out.old (load_text E.Written.writes load.now []) out.new }
{
    out.fields(&numbers_of(load));
    write_effect::<E, Whole>(out, load.effect);
}
