// Records of loads.
ghost use Rattle.std.specs.Prelude.{◌≡◌, Decides, ◌≢◌};
ghost use Rattle.reduction.specs.Answer.{Answer};

use crate::kinds::Kind;
use refusals::Refusal;

// A load as it is handed in. Factors are in percent, an area is in hundredths of a square metre.
// Kept: class and group are numbers, 0 for none, since any may be handed in and the sheet says why it is refused; a narrower type would ask more of callers.
#[derive(Clone, Copy)]
pub struct Load<E> {
    // loads of one group, other than 0, exclude each other
    pub group: u64,
    pub upper: u64,
    pub lower: u64,
    // how it is reduced for area and storeys
    pub class: u64,
    pub area: u64,
    pub storeys: u64,
    pub effect: E,
}

impl<E> Load<E> {
    // Whether two loads share a group, other than 0.
    pub fn shares_group(&self, other: &Load<E>) -> bool
        ensures { Decides result ((self.now.group ≢ 0) × (self.now.group ≡ other.now.group)) }
    {
        self.group != 0 && self.group == other.group
    }

    // The factor by which it is reduced for area and storeys, in ten-thousandths.
    pub fn reduction_factor(&self) -> Result<u64, Refusal>
        ensures { Answer self.now.class self.now.area self.now.storeys result }
    {
        reduction::factor(self.class, self.area, self.storeys)
    }
}

#[derive(Clone, Copy)]
pub struct Record<E> {
    pub number: u64,
    pub kind: Kind,
    pub load: Load<E>,
}
