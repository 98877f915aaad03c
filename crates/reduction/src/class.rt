// The classes by which floor loads are reduced.
ghost use Rattle.std.specs.Prelude.{◌≡◌};
ghost use Rattle.reduction.specs.Classes.{Decodes, formula_of};

use crate::formula::Formula;
use refusals::Refusal;

#[derive(Clone, Copy)]
pub(crate) enum Class {
    // class 0: not reduced
    Whole,
    // class 1: dwellings, offices and what lies beside them
    Rooms,
    // class 2: halls, service areas and what lies beside them
    Halls,
}

impl TryFrom<u64> for Class {
    type Error = Refusal;

    ghost try_from_gives = { Decodes };

    fn try_from(number: u64) -> Result<Class, Refusal> {
        match number {
            0 => Ok(Class::Whole),
            1 => Ok(Class::Rooms),
            2 => Ok(Class::Halls),
            _ => Err(Refusal::Reduction),
        }
    }
}

impl Class {
    // The formula of this class.
    pub(crate) fn formula(self) -> Option<Formula>
        ensures { result ≡ formula_of self }
    {
        match self {
            Class::Whole => None,
            Class::Rooms => Some(Formula::ROOMS),
            Class::Halls => Some(Formula::HALLS),
        }
    }
}
