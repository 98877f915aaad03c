// Writing a whole text: a first pass over no buffer counts, a second writes.
ghost use Rattle.std.specs.Prelude.{ℕ, List};
ghost use Rattle.writing.specs.Writing.{Fitted, Overlaid, Writes};

use crate::writer::Writer;
use refusals::Refusal;

// What can be written, always as the same bytes.
// Kept: `Display` promises nothing where `fmt` gives an error, so that a buffer is refused only where it is too short would not follow.
pub trait Text {
    ghost text: { Self → List ℕ };

    fn write_to(&self, out: &mut Writer)
        ensures { Writes out.old (text self.now) out.new };
}

// Writes the text over the start of `out`, as far as that has room, and gives how many bytes the text has.
fn write_over<T: Text>(text: &T, out: &mut [u8]) -> usize
    ensures { Overlaid (T.Text.text text.now) out.old result out.new }
{
    let mut writer = Writer { out, at: 0 };
    text.write_to(&mut writer);
    writer.at
}

// Writes the text into `out` from its start and gives its length; a buffer that is too short is refused as `OutputTooLong` and stays as it is.
pub fn write_whole<T: Text>(text: &T, out: &mut [u8]) -> Result<usize, Refusal>
    ensures { Fitted (T.Text.text text.now) out.old result out.new }
{
    let length = write_over(text, &mut []);
    if length > out.len() {
        return Err(Refusal::OutputTooLong);
    }
    Ok(write_over(text, out))
}
