// The role of a load among the loads of its term that are taken.
ghost use Rattle.std.specs.Prelude.{◌≡◌};
ghost use Rattle.norm.specs.Roles.{RoleOf, role_number};

#[derive(Clone, Copy, PartialEq, Eq, Debug)]
pub enum Role {
    // the leading load
    Leading = 1,
    // the second
    Second = 2,
    // any other
    Other = 3,
}

impl Role {
    // The number of this role, by which a norm is asked.
    // Kept: as for a refusal, `role.number()` says at a call what `u64::from(role)` leaves out.
    pub fn number(self) -> u64
        ensures { result ≡ role_number self }
    {
        self as u64
    }
}

// A number that no role has.
#[derive(Clone, Copy, PartialEq, Eq, Debug)]
pub struct NoRole;

impl TryFrom<u64> for Role {
    type Error = NoRole;

    ghost try_from_gives = { RoleOf };

    fn try_from(number: u64) -> Result<Role, NoRole> {
        match number {
            1 => Ok(Role::Leading),
            2 => Ok(Role::Second),
            3 => Ok(Role::Other),
            _ => Err(NoRole),
        }
    }
}
