// What a choice does with one record.
ghost use Rattle.std.specs.Prelude.{◌≡◌, if◌then◌else◌};
ghost use Rattle.combination.specs.Choices.{is_taken, is_lower, role_of};

use loads::Load;
use norm::Role;

#[derive(Clone, Copy, PartialEq, Eq, Debug)]
pub enum Pick {
    // a permanent load with its upper factor
    Upper,
    // a permanent load with its lower factor
    Lower,
    // any other load, left out
    Out,
    // a long-term or short-term load, taken in a role
    As(Role),
    // a special load, taken
    Taken,
}

impl Pick {
    // Whether a record other than a permanent load is taken.
    pub fn is_taken(self) -> bool
        ensures { result ≡ is_taken self }
    {
        matches!(self, Pick::As(_) | Pick::Taken)
    }

    // Whether a permanent load has its lower factor.
    pub fn is_lower(self) -> bool
        ensures { result ≡ is_lower self }
    {
        self == Pick::Lower
    }

    // The role that it gives.
    pub fn role(self) -> Option<Role>
        ensures { result ≡ role_of self }
    {
        match self {
            Pick::As(role) => Some(role),
            _ => None,
        }
    }

    // The factor of a permanent load.
    pub fn factor<E>(self, load: &Load<E>) -> u64
        ensures { result ≡ (if is_lower self then load.now.lower else load.now.upper) }
    {
        if self.is_lower() {
            load.lower
        } else {
            load.upper
        }
    }
}
